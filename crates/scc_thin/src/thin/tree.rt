//! The tree of a thin text.
use crate::design::Bitwise;
use scc_base::{List, Text};

/// Ports that are declared together.
#[derive(Drop)]
pub struct Group {
    pub output: bool,
    /// In bits, 1 to 64.
    pub width: u32,
    pub names: List<Text>,
}

/// An operator, and the port that is read after it.
#[derive(Drop)]
pub struct Read {
    pub op: Bitwise,
    pub port: Text,
}

/// A write to a port: of a port that is read, or of two with an operator.
#[derive(Drop)]
pub struct Write {
    pub target: Text,
    pub first: Text,
    pub second: Option<Read>,
}

/// The module's name and its ports.
#[derive(Drop)]
pub struct Head {
    pub top: Text,
    pub groups: List<Group>,
}

/// The function with its writes.
#[derive(Drop)]
pub struct Body {
    pub function: Text,
    pub writes: List<Write>,
}

/// The constructor: the class that it names, the function that is its process, and the sensitivity.
#[derive(Drop)]
pub struct Constructor {
    pub class: Text,
    pub method: Text,
    pub senses: List<Text>,
}

/// A whole thin text.
#[derive(Drop)]
pub struct Tree {
    pub head: Head,
    pub body: Body,
    pub constructor: Constructor,
}
