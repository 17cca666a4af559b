//! The design that construction leaves: objects, processes, and what leads where.
#![tactic(auto)]

use scc_base::{List, Path, Place};
use scc_bits::{Kind, Word};

/// What a program's construction leaves.
#[derive(Drop)]
pub struct Design {
    /// In construction order; the top is the first. At most 65,536.
    pub objects: List<Object>,
    /// In construction order.
    pub processes: List<Process>,
    /// Where the pointers and references lead that aren't null, in the order of their numbers.
    pub targets: List<Target>,
    /// The vectors that have elements, and how many, in construction order.
    pub vectors: List<VectorSize>,
}

#[derive(Drop)]
pub struct Object {
    /// Fewer than 65 parts.
    pub path: Path,
    /// That of the declaration, or of the `new` that made it.
    pub place: Place,
    pub node: ObjectNode,
}

#[derive(Clone, Copy, PartialEq, Eq)]
pub enum ObjectNode {
    /// An object of the class of that number.
    Module(u32),
    /// A port; its root is the number of a signal or of a port of the top, its own number where it is one of the top's.
    Port { kind: Kind, output: bool, root: u32 },
    Signal(Kind),
    /// A variable, and what construction left in it.
    Variable { kind: Kind, value: Word },
    /// A pointer or reference, and the object to which it leads; None for null and for a path that names no object.
    Pointer(Option<u32>),
}

/// Where a pointer or reference leads. The path may name a whole array or vector, or no object at all.
#[derive(Drop)]
pub struct Target {
    /// The pointer's number.
    pub object: u32,
    pub path: Path,
}

/// A vector and the number of its elements.
#[derive(Drop)]
pub struct VectorSize {
    pub path: Path,
    pub size: u32,
}

#[derive(Drop)]
pub struct Process {
    /// The object whose function it runs.
    pub object: u32,
    /// The function's number in the program.
    pub function: u32,
    /// That of the statement that declares it.
    pub place: Place,
    pub sort: Sort,
    /// The roots in its sensitivity list whose levels count.
    pub senses: List<u32>,
    pub edge: Option<Edge>,
    pub reset: Option<Reset>,
}

/// IEEE 1666-2011, 5.2.9: method and thread processes.
#[derive(Clone, Copy, PartialEq, Eq)]
pub enum Sort {
    Method,
    Thread,
}

/// The clock edge at which a process resumes.
#[derive(Clone, Copy, PartialEq, Eq)]
pub struct Edge {
    pub root: u32,
    pub rising: bool,
}

/// The reset of a thread: the level at which it starts again.
#[derive(Clone, Copy, PartialEq, Eq)]
pub struct Reset {
    pub root: u32,
    pub level: bool,
    pub asynchronous: bool,
}
