//! Modules with memories as trees (IEEE 1800-2017, 7.4).
use scc_base::{Boxed, List, Text};
use scc_svtree::{SvBinary, SvLeft, SvLiteral, SvReset, SvUnary, SvVar, VarId};

/// A module some of whose registers are the elements of memories: `SvModule` with memories.
#[derive(Drop)]
pub struct MemModule {
    pub name: Text,
    pub vars: List<SvVar>,
    pub blocks: List<MemBlock>,
    pub memories: List<Memory>,
}

/// A memory. At an edge of its block the element at `address` takes `value`, where `write` isn't 0.
#[derive(Drop)]
pub struct Memory {
    pub name: Text,
    /// Of each element, in bits.
    pub width: u32,
    /// How many elements there are.
    pub size: u32,
    pub write: VarId,
    pub address: VarId,
    pub value: VarId,
}

/// An expression: `SvExpr` with elements of memories. A chain of operators is as deep as it is long, so it is let go by a loop along
/// its first operands.
#[cycle(mem_expr)]
pub struct MemExpr {
    pub node: Boxed<MemExprNode>,
}

#[cycle(mem_expr)]
#[derive(Drop)]
pub enum MemExprNode {
    Literal(SvLiteral),
    Left(SvLeft),
    Unary {
        op: SvUnary,
        of: MemExpr,
    },
    Binary {
        op: SvBinary,
        left: MemExpr,
        right: MemExpr,
    },
    Cond {
        test: MemExpr,
        yes: MemExpr,
        no: MemExpr,
    },
    Concat(List<MemExpr>),
    /// A size cast `W'(e)`.
    Cast {
        width: u32,
        of: MemExpr,
    },
    /// `$signed` or `$unsigned`.
    Sign {
        signed: bool,
        of: MemExpr,
    },
    /// The element of the memory of that number; 0 past the end.
    Element {
        memory: u32,
        at: MemExpr,
    },
}

/// A statement, as `SvStmt`.
#[cycle(mem_stmt)]
#[derive(Drop)]
pub enum MemStmt {
    Assign {
        left: SvLeft,
        value: MemExpr,
    },
    If {
        test: MemExpr,
        yes: List<MemStmt>,
        no: List<MemStmt>,
    },
    Case {
        of: MemExpr,
        arms: List<MemArm>,
    },
}

/// An arm of a `case`.
#[cycle(mem_stmt)]
#[derive(Drop)]
pub struct MemArm {
    pub label: SvLiteral,
    pub body: List<MemStmt>,
}

/// A block, as `SvBlock`.
#[derive(Drop)]
pub enum MemBlock {
    Comb(List<MemStmt>),
    Edge {
        rising: bool,
        clock: VarId,
        reset: Option<SvReset>,
        sets: List<MemSet>,
    },
}

/// What an edge sets: a register, or the element of the memory of that number that is written.
#[derive(Drop)]
pub enum MemSet {
    Register { target: VarId, value: MemExpr },
    Memory(u32),
}

impl Drop for MemExpr {
    #[cycle(gone)]
    fn drop(mut self) {
        loop {
            let MemExpr { node } = self;
            match Boxed::into_inner(node) {
                MemExprNode::Literal(_literal) => return,
                MemExprNode::Left(_left) => return,
                MemExprNode::Unary { op: _op, of } => self = of,
                MemExprNode::Binary {
                    op: _op,
                    left,
                    right,
                } => {
                    drop(right);
                    self = left;
                }
                MemExprNode::Cond { test, yes, no } => {
                    drop(yes);
                    drop(no);
                    self = test;
                }
                MemExprNode::Concat(list) => {
                    drop(list);
                    return;
                }
                MemExprNode::Cast { width: _width, of } => self = of,
                MemExprNode::Sign {
                    signed: _signed,
                    of,
                } => self = of,
                MemExprNode::Element {
                    memory: _memory,
                    at,
                } => self = at,
            }
        }
    }
}
