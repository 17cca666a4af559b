//! Expressions with memories.
use crate::module::{MemExpr, MemExprNode};
use scc_base::{Boxed, NoMemory};
use scc_bits::Word;
use scc_svtree::{SvBinary, SvLeft, SvLiteral, VarId};
use std::alloc::Global;

pub fn node(alloc: Global, of: MemExprNode) -> Result<MemExpr, NoMemory> {
    Ok(MemExpr {
        node: Boxed::new(alloc, of)?,
    })
}

/// A variable as a whole.
pub fn variable(alloc: Global, v: VarId) -> Result<MemExpr, NoMemory> {
    node(alloc, MemExprNode::Left(SvLeft::Whole(v)))
}

pub fn number(width: u32, n: u32) -> SvLiteral {
    SvLiteral {
        width,
        value: Word {
            bits: u128::from(n),
        },
    }
}

pub fn literal(alloc: Global, width: u32, n: u32) -> Result<MemExpr, NoMemory> {
    node(alloc, MemExprNode::Literal(number(width, n)))
}

pub fn binary(
    alloc: Global,
    op: SvBinary,
    left: MemExpr,
    right: MemExpr,
) -> Result<MemExpr, NoMemory> {
    node(alloc, MemExprNode::Binary { op, left, right })
}

/// An operand without sign, so that a cast to a greater width doesn't reach into it.
pub fn unsigned(alloc: Global, of: MemExpr) -> Result<MemExpr, NoMemory> {
    node(alloc, MemExprNode::Sign { signed: false, of })
}
