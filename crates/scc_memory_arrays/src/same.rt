//! Equal expressions.
use scc_base::{NoMemory, lost, push};
use scc_svtree::{SvExpr, SvExprNode, SvLeft, SvLiteral};
use std::alloc::Global;

/// Two expressions of which it isn't known whether they are equal.
#[derive(Clone, Copy)]
struct Pair<'a> {
    a: &'a SvExpr,
    b: &'a SvExpr,
}

/// Whether two expressions are equal.
pub fn same<'a>(alloc: Global, a: &'a SvExpr, b: &'a SvExpr) -> Result<bool, NoMemory> {
    let mut rest = Vec::new(alloc);
    push(&mut rest, Pair { a, b })?;
    for _ in 0..usize::MAX {
        let Some(pair) = rest.pop() else {
            return Ok(true);
        };
        if !alike(pair, &mut rest)? {
            return Ok(false);
        }
    }
    Err(lost())
}

// Whether two nodes are alike; what must be equal besides goes to the rest.
fn alike<'a>(pair: Pair<'a>, rest: &mut Vec<Pair<'a>>) -> Result<bool, NoMemory> {
    match (pair.a.node.get(), pair.b.node.get()) {
        (SvExprNode::Literal(a), SvExprNode::Literal(b)) => Ok(same_literal(a, b)),
        (SvExprNode::Left(a), SvExprNode::Left(b)) => Ok(same_left(a, b)),
        (SvExprNode::Unary { op: p, of: a }, SvExprNode::Unary { op: q, of: b }) => {
            push(rest, Pair { a, b })?;
            Ok(p == q)
        }
        (
            SvExprNode::Binary {
                op: p,
                left: a,
                right: c,
            },
            SvExprNode::Binary {
                op: q,
                left: b,
                right: d,
            },
        ) => {
            push(rest, Pair { a: c, b: d })?;
            push(rest, Pair { a, b })?;
            Ok(p == q)
        }
        (
            SvExprNode::Cond {
                test: a,
                yes: c,
                no: e,
            },
            SvExprNode::Cond {
                test: b,
                yes: d,
                no: f,
            },
        ) => {
            push(rest, Pair { a: e, b: f })?;
            push(rest, Pair { a: c, b: d })?;
            push(rest, Pair { a, b })?;
            Ok(true)
        }
        (SvExprNode::Cast { width: p, of: a }, SvExprNode::Cast { width: q, of: b }) => {
            push(rest, Pair { a, b })?;
            Ok(p == q)
        }
        (SvExprNode::Sign { signed: p, of: a }, SvExprNode::Sign { signed: q, of: b }) => {
            push(rest, Pair { a, b })?;
            Ok(p == q)
        }
        (SvExprNode::Concat(a), SvExprNode::Concat(b)) => {
            for (a, b) in a.as_slice().iter().zip(b.as_slice().iter()) {
                push(rest, Pair { a, b })?;
            }
            Ok(a.len() == b.len())
        }
        _ => Ok(false),
    }
}

fn same_literal(a: &SvLiteral, b: &SvLiteral) -> bool {
    a.width == b.width && a.value.bits == b.value.bits
}

fn same_left(a: &SvLeft, b: &SvLeft) -> bool {
    match (a, b) {
        (SvLeft::Whole(v), SvLeft::Whole(w)) => v == w,
        (SvLeft::Bit { var: v, at: i }, SvLeft::Bit { var: w, at: j }) => v == w && i == j,
        (SvLeft::Range { var: v, h, l }, SvLeft::Range { var: w, h: i, l: j }) => {
            v == w && h == i && l == j
        }
        _ => false,
    }
}
