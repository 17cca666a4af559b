use crate::{SvExpr, SvStmt, VarId};
use scc_base::{List, Text};
use scc_bits::Word;

/// A module (IEEE 1800-2017, section 23): its ports stand before its other variables.
#[derive(Drop)]
pub struct SvModule {
    pub name: Text,
    pub vars: List<SvVar>,
    pub blocks: List<SvBlock>,
}

/// A variable of 1 to 128 bits without sign.
#[derive(Drop)]
pub struct SvVar {
    pub name: Text,
    pub width: u32,
    pub dir: Dir,
}

/// Whether a variable is a port.
#[derive(Clone, Copy, PartialEq, Eq)]
pub enum Dir {
    Input,
    Output,
    Inner,
}

/// A procedure that runs by itself (IEEE 1800-2017, section 9.2.2).
#[derive(Drop)]
pub enum SvBlock {
    /// `always_comb`.
    Comb(List<SvStmt>),
    /// `always_ff` at one edge of a clock, with an asynchronous reset or without.
    Edge {
        rising: bool,
        clock: VarId,
        reset: Option<SvReset>,
        sets: List<SvSet>,
    },
}

/// An asynchronous reset: the signal, the edge at which it becomes active, and what it loads.
#[derive(Drop)]
pub struct SvReset {
    pub signal: VarId,
    pub rising: bool,
    pub values: List<SvLoad>,
}

/// A register that a reset loads with a number.
#[derive(Clone, Copy)]
pub struct SvLoad {
    pub target: VarId,
    pub value: Word,
}

/// A register that an edge sets to a value.
#[derive(Drop)]
pub struct SvSet {
    pub target: VarId,
    pub value: SvExpr,
}
