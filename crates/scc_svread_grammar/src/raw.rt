//! A module as it is written: its names and numbers are the bytes that stand for them, and any of them may be wrong.
use scc_base::{Boxed, List, Text};
use scc_svtree::{Dir, SvBinary, SvUnary};

/// A literal: the decimal digits of its width, and its digits of base 16 (IEEE 1800-2017, section 5.7.1).
#[derive(Drop)]
pub struct RawLiteral {
    pub width: Text,
    pub digits: Text,
}

/// The bits that are taken of a variable, by their decimal digits (IEEE 1800-2017, section 11.5.1).
#[derive(Drop)]
pub enum RawSelect {
    Whole,
    Bit(Text),
    Range { h: Text, l: Text },
}

/// A variable or a part of it.
#[derive(Drop)]
pub struct RawLeft {
    pub name: Text,
    pub select: RawSelect,
}

/// An expression.
#[cycle(raw_expr)]
#[derive(Drop)]
pub enum RawExpr {
    Literal(RawLiteral),
    Left(RawLeft),
    Unary {
        op: SvUnary,
        of: Boxed<RawExpr>,
    },
    Binary {
        op: SvBinary,
        left: Boxed<RawExpr>,
        right: Boxed<RawExpr>,
    },
    Cond {
        test: Boxed<RawExpr>,
        yes: Boxed<RawExpr>,
        no: Boxed<RawExpr>,
    },
    Concat(List<RawExpr>),
    Cast {
        width: Text,
        of: Boxed<RawExpr>,
    },
    Sign {
        signed: bool,
        of: Boxed<RawExpr>,
    },
}

/// A statement.
#[cycle(raw_stmt)]
#[derive(Drop)]
pub enum RawStmt {
    Assign {
        left: RawLeft,
        value: RawExpr,
    },
    If {
        test: RawExpr,
        yes: List<RawStmt>,
        no: List<RawStmt>,
    },
    Case {
        of: RawExpr,
        arms: List<RawArm>,
    },
}

/// An arm of a `case`.
#[cycle(raw_stmt)]
#[derive(Drop)]
pub struct RawArm {
    pub label: RawLiteral,
    pub body: List<RawStmt>,
}

/// What an edge sets.
#[derive(Drop)]
pub struct RawSet {
    pub target: Text,
    pub value: RawExpr,
}

/// What a reset loads.
#[derive(Drop)]
pub struct RawLoad {
    pub target: Text,
    pub value: RawLiteral,
}

/// An asynchronous reset: the edge and the name in the list of edges, the condition under which it stands, and what it
/// loads.
#[derive(Drop)]
pub struct RawReset {
    pub rising: bool,
    pub signal: Text,
    pub negated: bool,
    pub level: Text,
    pub values: List<RawLoad>,
}

/// A procedure.
#[derive(Drop)]
pub enum RawBlock {
    Comb(List<RawStmt>),
    Edge {
        rising: bool,
        clock: Text,
        reset: Option<RawReset>,
        sets: List<RawSet>,
    },
}

/// A variable: the decimal digits of the number of its highest bit, where it has a range.
#[derive(Drop)]
pub struct RawVar {
    pub name: Text,
    pub dir: Dir,
    pub high: Option<Text>,
}

/// A line or more behind the ports.
#[derive(Drop)]
pub enum RawItem {
    Var(RawVar),
    Block(RawBlock),
}

/// A module.
#[derive(Drop)]
pub struct RawModule {
    pub name: Text,
    pub ports: List<RawVar>,
    pub items: List<RawItem>,
}
