//! Cells and processes.
use crate::{CoreStmt, Path2};
use scc_base::{List, Name, Place};
use scc_bits::{Kind, Word};

/// What a design does: its cells and its processes.
#[derive(Drop)]
pub struct Core {
    /// The top's name.
    pub top: Name,
    /// The objects' cells in construction order, then those of each process's locals in the order in which they are
    /// numbered.
    pub cells: List<Cell>,
    /// In construction order.
    pub processes: List<CoreProcess>,
    /// The vectors of the design and their sizes.
    pub vectors: List<VectorSize2>,
}

/// A vector and the number of its elements.
#[derive(Drop)]
pub struct VectorSize2 {
    pub path: Path2,
    pub size: u32,
}

/// Something that is read or written as a whole: a port, a signal, a variable or a local, or a pointer to one.
#[derive(Drop)]
pub struct Cell {
    pub name: CellName,
    pub kind: Kind,
    pub sort: CellSort,
    pub place: Place,
}

/// A cell's name, which no other cell that is no pointer has.
#[derive(Drop)]
pub struct CellName {
    /// The object's path; for a local, that of its process: the module's path and the function's name.
    pub path: Path2,
    /// A local's number in its process, and its identifier.
    pub local: Option<(u32, Name)>,
    /// A local's element.
    pub indices: List<u32>,
}

#[derive(Drop)]
pub enum CellSort {
    /// An input of the top.
    Input,
    /// An output of the top.
    Output,
    Signal,
    /// A variable: what construction left, and whether no process can change it.
    Variable { value: Word, fixed: bool },
    /// A local of the process of that number.
    Local(u32),
    /// A pointer or reference and where it leads; None for null, and for a local one.
    Pointer(Option<Path2>),
    /// A port below the top, and its root.
    Port(Path2),
}

#[derive(Drop)]
pub struct CoreProcess {
    pub sort: Sort2,
    /// The module's path, followed by the function's name.
    pub name: CellName,
    pub place: Place,
    /// The cells of the roots in its sensitivity list, without edges.
    pub senses: List<u32>,
    pub edge: Option<Edge2>,
    pub reset: Option<Reset2>,
    pub body: List<CoreStmt>,
}

#[derive(Clone, Copy, PartialEq, Eq)]
pub enum Sort2 {
    Method,
    Thread,
}

/// The clock edge at which a process resumes.
#[derive(Clone, Copy, PartialEq, Eq)]
pub struct Edge2 {
    pub cell: u32,
    pub rising: bool,
}

/// The reset of a thread: the level at which it starts again.
#[derive(Clone, Copy, PartialEq, Eq)]
pub struct Reset2 {
    pub cell: u32,
    pub level: bool,
    pub asynchronous: bool,
}
