//! The design that a thin text denotes: one combinational method that writes to ports.
use scc_base::{List, Text};

/// A port of numbers without sign.
#[derive(Drop)]
pub struct Port {
    pub name: Text,
    /// Whether it is an output; else it is an input.
    pub output: bool,
    /// In bits, 1 to 64.
    pub width: u32,
}

/// The operators `&`, `|` and `^`.
#[derive(Clone, Copy, PartialEq, Eq)]
pub enum Bitwise {
    And,
    Or,
    Xor,
}

/// The second operand of a written value.
#[derive(Clone, Copy)]
pub struct Second {
    pub op: Bitwise,
    pub port: u32,
}

/// A write to a port, all ports by their numbers from 0.
#[derive(Clone, Copy)]
pub struct Put {
    pub target: u32,
    pub first: u32,
    pub second: Option<Second>,
}

/// A module with its ports in the order of their declarations, and its writes in theirs.
#[derive(Drop)]
pub struct Design {
    /// The module's name.
    pub top: Text,
    pub ports: List<Port>,
    /// The ports in the method's sensitivity.
    pub senses: List<u32>,
    pub puts: List<Put>,
}
