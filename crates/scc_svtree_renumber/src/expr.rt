//! Expressions. A chain of operators is as deep as it is long, so first operands are walked by a loop.
ghost use Rattle.std.specs.Prelude.{◌≡◌, IfOk, Some, true, map};
ghost use Rattle.std.specs.Option.{option_copied};
ghost use Rattle.scc_svtree.specs.declared.expr.SvExpr.{SvExpr};
ghost use Rattle.scc_svtree_renumber.specs.Copies.{IsPath, first_of};

use scc_base::{Boxed, List, NoMemory, lost, push};
use scc_svtree::{SvExpr, SvExprNode, SvLeft, VarId};
use std::alloc::Global;

/// The new numbers: of the variables from 0 those in `first`, of the next ones those in `next`, and of the last numbers that a
/// `u32` has those in `last`.
#[derive(Clone, Copy)]
pub struct Ids<'a> {
    /// Whether all variables keep their numbers.
    pub same: bool,
    pub first: &'a [u32],
    pub next: &'a [u32],
    pub last: &'a [u32],
}

/// The number of a variable that isn't declared.
pub const UNDECLARED: u32 = u32::MAX;

impl<'a> Ids<'a> {
    /// The numbers as they are.
    pub fn same() -> Ids<'a>
        ensures { result.same ≡ true }
    {
        Ids {
            same: true,
            first: &[],
            next: &[],
            last: &[],
        }
    }

    /// The new number of a variable.
    pub fn of(&self, var: VarId) -> Result<VarId, NoMemory>
        ensures { self.now.same ≡ true → IfOk result (λ v. v ≡ var) }
    {
        if self.same {
            return Ok(var);
        }
        let at = var.0 as usize;
        let down = (u32::MAX - var.0) as usize;
        let found = if at < self.first.len() {
            self.first.get(at)
        } else if down < self.last.len() {
            self.last.get(down)
        } else {
            self.next.get(at - self.first.len())
        };
        match found {
            Some(id) if *id != UNDECLARED => Ok(VarId(*id)),
            Some(_) | None => Err(lost()),
        }
    }
}

pub fn renumbered_left(left: &SvLeft, ids: Ids<'_>) -> Result<SvLeft, NoMemory>
    ensures { ids.entry.same ≡ true → IfOk result (λ l. l ≡ left.now) }
{
    Ok(match left {
        SvLeft::Whole(var) => SvLeft::Whole(ids.of(*var)?),
        SvLeft::Bit { var, at } => SvLeft::Bit {
            var: ids.of(*var)?,
            at: *at,
        },
        SvLeft::Range { var, h, l } => SvLeft::Range {
            var: ids.of(*var)?,
            h: *h,
            l: *l,
        },
    })
}

// The operand that is copied first, if there is one.
fn first(e: &SvExpr) -> Option<&SvExpr>
    ensures { option_copied result ≡ first_of e.now }
{
    match e.node.get() {
        SvExprNode::Unary { of, .. } => Some(of),
        SvExprNode::Cast { of, .. } => Some(of),
        SvExprNode::Sign { of, .. } => Some(of),
        SvExprNode::Binary { left, .. } => Some(left),
        SvExprNode::Cond { test, .. } => Some(test),
        SvExprNode::Literal(_) | SvExprNode::Left(_) | SvExprNode::Concat(_) => None,
    }
}

// An expression and its first operands, from the outermost on, and the innermost of them.
fn spine(alloc: Global, e: &SvExpr) -> Result<(Vec<&SvExpr>, &SvExpr), NoMemory>
    ensures { IfOk result (λ r. IsPath e.now (map (λ x. x.now) r.0.items) r.1.now) }
{
    let mut found = Vec::new(alloc);
    let mut here = e;
    for _ in 0..usize::MAX {
        match first(here) {
            Some(inner) => {
                push(&mut found, here)?;
                here = inner;
            }
            None => return Ok((found, here)),
        }
    }
    Err(lost())
}

/// An expression with other numbers. Operands other than the first stand in one another at most `levels` deep.
#[cycle(renumbered)]
pub fn renumbered_expr(
    alloc: Global,
    e: &SvExpr,
    ids: Ids<'_>,
    levels: u32,
) -> Result<SvExpr, NoMemory>
    ensures { ids.entry.same ≡ true → IfOk result (λ r. r ≡ e.now) }
{
    if levels == 0 {
        return Err(lost());
    }
    let (mut chain, innermost) = spine(alloc, e)?;
    let mut made = leaf(alloc, innermost, ids, levels - 1)?;
    while let Some(outer) = chain.pop() {
        made = over(alloc, outer, made, ids, levels - 1)?;
    }
    Ok(made)
}

#[cycle(renumbered)]
fn leaf(alloc: Global, e: &SvExpr, ids: Ids<'_>, levels: u32) -> Result<SvExpr, NoMemory>
    ensures { ids.entry.same ≡ true → IfOk result (λ r. r ≡ e.now) }
{
    let made = match e.node.get() {
        SvExprNode::Literal(l) => SvExprNode::Literal(*l),
        SvExprNode::Left(l) => SvExprNode::Left(renumbered_left(l, ids)?),
        SvExprNode::Concat(parts) => {
            let mut list = List::new(alloc);
            for part in parts.as_slice() {
                list.push(renumbered_expr(alloc, part, ids, levels)?)?;
            }
            SvExprNode::Concat(list)
        }
        _ => return Err(lost()),
    };
    Ok(SvExpr {
        node: Boxed::new(alloc, made)?,
    })
}

#[cycle(renumbered)]
fn over(
    alloc: Global,
    e: &SvExpr,
    inner: SvExpr,
    ids: Ids<'_>,
    levels: u32,
) -> Result<SvExpr, NoMemory>
    ensures { ids.entry.same ≡ true → first_of e.now ≡ Some inner → IfOk result (λ r. r ≡ e.now) }
{
    let made = match e.node.get() {
        SvExprNode::Unary { op, .. } => SvExprNode::Unary { op: *op, of: inner },
        SvExprNode::Cast { width, .. } => SvExprNode::Cast {
            width: *width,
            of: inner,
        },
        SvExprNode::Sign { signed, .. } => SvExprNode::Sign {
            signed: *signed,
            of: inner,
        },
        SvExprNode::Binary { op, right, .. } => SvExprNode::Binary {
            op: *op,
            left: inner,
            right: renumbered_expr(alloc, right, ids, levels)?,
        },
        SvExprNode::Cond { yes, no, .. } => SvExprNode::Cond {
            test: inner,
            yes: renumbered_expr(alloc, yes, ids, levels)?,
            no: renumbered_expr(alloc, no, ids, levels)?,
        },
        _ => return Err(lost()),
    };
    Ok(SvExpr {
        node: Boxed::new(alloc, made)?,
    })
}
