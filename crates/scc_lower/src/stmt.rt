//! Statements, and how blocks are left: a variable holds the number of the block that is being left, 0 where none is.
ghost use Rattle.std.specs.Prelude.{◌≡◌, [], ◌∷◌, IfOk, OnOk, length};
ghost use Rattle.scc_svtree.specs.Code.{code_of};
ghost use Rattle.scc_svtree.specs.Term.{term_of};
ghost use Rattle.scc_lower_tree_laws.specs.Stating.{is_leaving, leave};
ghost use Rattle.scc_lower.specs.Texts.{IsGuarded, IsTextOf};

use crate::assign::assigned;
use scc_base::{List, NoMemory, lost, push};
use scc_core::{CoreExpr, CoreNode, CoreStmt};
use scc_lower_expressions::built::{binary, literal, whole};
use scc_lower_expressions::convert::{Lowered, expression};
use scc_lower_expressions::expr::{LEVELS, lowered};
use scc_lower_expressions::lowering::{Cells, Lowering};
use scc_svtree::{SvBinary, SvExpr, SvLeft, SvStmt};
use std::alloc::Global;
use std::mem::replace;

/// The text of some statements, and the least number of a block around them that they may leave, `NONE` for none.
#[derive(Drop)]
struct Text {
    stmts: List<SvStmt>,
    least: u32,
}

const NONE: u32 = u32::MAX;

/// What stays the same in a list of statements and its parts.
#[derive(Clone, Copy)]
struct Around<'a> {
    cells: Cells<'a>,
    /// How many blocks are open.
    depth: u32,
}

/// The text of statements that leave no block around them. Temporaries stand before their statement.
pub fn lowered_stmts(
    alloc: Global,
    body: &[CoreStmt],
    cells: Cells<'_>,
    cx: &mut Lowering<'_>,
) -> Result<List<SvStmt>, NoMemory> {
    let mut left = Vec::new(alloc);
    let Text { stmts, least } = list(body, alloc, Around { cells, depth: 0 }, cx, &mut left)?;
    if least == NONE {
        Ok(stmts)
    } else {
        Err(lost())
    }
}

/// The text of one such statement.
pub fn lowered_stmt(
    alloc: Global,
    s: &CoreStmt,
    cells: Cells<'_>,
    cx: &mut Lowering<'_>,
) -> Result<List<SvStmt>, NoMemory> {
    let mut left = Vec::new(alloc);
    let Text { stmts, least } = stmt(s, alloc, Around { cells, depth: 0 }, cx, &mut left)?;
    if least == NONE {
        Ok(stmts)
    } else {
        Err(lost())
    }
}

// The variable that holds the number of the block that is being left, compared with a number.
fn leaving_is(
    alloc: Global,
    k: u32,
    cells: Cells<'_>,
    cx: &Lowering<'_>,
) -> Result<SvExpr, NoMemory>
    ensures { IfOk result (λ t. term_of t ≡ is_leaving (length cells.entry.cells.now) cx.now.exit k) }
{
    let var = whole(alloc, cells.leaving()?)?;
    let number = literal(alloc, cx.exit, u128::from(k))?;
    binary(alloc, SvBinary::Eq, var, number)
}

fn leave(alloc: Global, k: u32, cells: Cells<'_>, cx: &Lowering<'_>) -> Result<SvStmt, NoMemory>
    ensures { IfOk result (λ s. code_of (s ∷ []) ≡ leave (length cells.entry.cells.now) cx.now.exit k) }
{
    let var = cells.leaving()?;
    let value = literal(alloc, cx.exit, u128::from(k))?;
    Ok(SvStmt::Assign {
        left: SvLeft::Whole(var),
        value,
    })
}

fn one(alloc: Global, stmt: SvStmt) -> Result<List<SvStmt>, NoMemory> {
    let mut stmts = List::new(alloc);
    stmts.push(stmt)?;
    Ok(stmts)
}

// `left` says of each open block, outermost first, whether an exit to it was met.
#[cycle(stmts)]
fn list(
    body: &[CoreStmt],
    alloc: Global,
    around: Around<'_>,
    cx: &mut Lowering<'_>,
    left: &mut Vec<bool>,
) -> Result<Text, NoMemory> {
    let mut out = List::new(alloc);
    let mut least = NONE;
    let cells = around.cells;
    for s in body {
        let Text {
            stmts: new,
            least: below,
        } = stmt(s, alloc, around, cx, left)?;
        if least == NONE {
            out.append(new)?;
        } else {
            guard(alloc, new, cells, cx, &mut out)?;
        }
        least = least.min(below);
    }
    Ok(Text { stmts: out, least })
}

// Statements behind one that may leave a block: they run where none is being left.
fn guard(
    alloc: Global,
    new: List<SvStmt>,
    cells: Cells<'_>,
    cx: &Lowering<'_>,
    out: &mut List<SvStmt>,
) -> Result<(), NoMemory>
    ensures { OnOk result (IsGuarded (length cells.entry.cells.now) cx.now.exit (code_of new) (code_of out.old) (code_of out.new)) }
{
    if new.is_empty() {
        return Ok(());
    }
    let test = leaving_is(alloc, 0, cells, cx)?;
    out.push(SvStmt::If {
        test,
        yes: new,
        no: List::new(alloc),
    })
}

#[cycle(stmts)]
fn stmt(
    s: &CoreStmt,
    alloc: Global,
    around: Around<'_>,
    cx: &mut Lowering<'_>,
    left: &mut Vec<bool>,
) -> Result<Text, NoMemory> {
    match &s.node {
        CoreNode::Assign { left: to, value } => {
            let new = assigned(alloc, to, value, around.cells, cx)?;
            let mut stmts = replace(&mut cx.before, List::new(alloc));
            stmts.append(new)?;
            Ok(Text { stmts, least: NONE })
        }
        CoreNode::Block(body) => block(body.as_slice(), alloc, around, cx, left),
        CoreNode::Exit(n) => exit(alloc, *n, around, cx, left),
        CoreNode::If { test, yes, no } => {
            match lowered(alloc, test, around.cells, cx, LEVELS)? {
                Lowered::Known(v) if v.is_true() => list(yes.as_slice(), alloc, around, cx, left),
                Lowered::Known(_) => list(no.as_slice(), alloc, around, cx, left),
                Lowered::Made(test) => {
                    let mut stmts = replace(&mut cx.before, List::new(alloc));
                    let Text {
                        stmts: yes,
                        least: first,
                    } = list(yes.as_slice(), alloc, around, cx, left)?;
                    let Text {
                        stmts: no,
                        least: second,
                    } = list(no.as_slice(), alloc, around, cx, left)?;
                    stmts.push(SvStmt::If { test, yes, no })?;
                    let least = first.min(second);
                    Ok(Text { stmts, least })
                }
            }
        }
        CoreNode::Loop { .. } | CoreNode::Wait { .. } | CoreNode::Alias { .. } => Err(lost()),
    }
}

#[cycle(stmts)]
fn block(
    body: &[CoreStmt],
    alloc: Global,
    around: Around<'_>,
    cx: &mut Lowering<'_>,
    left: &mut Vec<bool>,
) -> Result<Text, NoMemory> {
    let Some(depth) = around.depth.checked_add(1) else {
        return Err(lost());
    };
    push(left, false)?;
    let inner = Around {
        cells: around.cells,
        depth,
    };
    let Text { mut stmts, least } = list(body, alloc, inner, cx, left)?;
    let Some(was_left) = left.pop() else {
        return Err(lost());
    };
    if was_left {
        let test = leaving_is(alloc, depth, around.cells, cx)?;
        let back = leave(alloc, 0, around.cells, cx)?;
        stmts.push(SvStmt::If {
            test,
            yes: one(alloc, back)?,
            no: List::new(alloc),
        })?;
    }
    let least = if least < depth { least } else { NONE };
    Ok(Text { stmts, least })
}

fn exit(
    alloc: Global,
    n: u32,
    around: Around<'_>,
    cx: &Lowering<'_>,
    left: &mut Vec<bool>,
) -> Result<Text, NoMemory> {
    let Some(outer) = around.depth.checked_sub(n) else {
        return Err(lost());
    };
    let Some(flag) = outer
        .checked_sub(1)
        .and_then(|at| left.get_mut(at as usize))
    else {
        return Err(lost());
    };
    *flag = true;
    let stmt = leave(alloc, outer, around.cells, cx)?;
    Ok(Text {
        stmts: one(alloc, stmt)?,
        least: outer,
    })
}

/// The text of an expression.
pub fn lowered_expr(
    alloc: Global,
    e: &CoreExpr,
    cells: Cells<'_>,
    cx: &mut Lowering<'_>,
) -> Result<SvExpr, NoMemory>
    ensures { IfOk result (λ t. IsTextOf cells.entry e.now cx.old t cx.new) }
{
    let x = lowered(alloc, e, cells, cx, LEVELS)?;
    expression(alloc, x)
}
