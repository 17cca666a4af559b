//! Processes while construction runs.
use scc_base::Place;
use std::alloc::Global;

/// A process as its constructor declares it.
#[derive(Drop)]
pub struct Record {
    /// The object whose constructor declares it.
    pub object: u32,
    pub function: u32,
    pub place: Place,
    pub thread: bool,
    pub senses: Vec<Sensed>,
    pub resets: Vec<ResetAt>,
}

/// An entry of a sensitivity list.
#[derive(Clone, Copy)]
pub struct Sensed {
    pub place: Place,
    /// The port or signal; None where no such thing is named.
    pub object: Option<u32>,
    /// None for a level.
    pub rising: Option<bool>,
}

/// A reset's declaration.
#[derive(Clone, Copy)]
pub struct ResetAt {
    pub place: Place,
    /// The port or signal; None where no such thing is named.
    pub object: Option<u32>,
    pub level: bool,
    pub asynchronous: bool,
}

/// A process on a function of an object. There is one at most.
#[derive(Clone, Copy, PartialEq, Eq, Hash)]
pub struct Runs {
    pub object: u32,
    pub function: u32,
}

impl Record {
    /// A process without sensitivity and resets.
    pub fn new(alloc: Global, runs: Runs, place: Place, thread: bool) -> Record {
        Record {
            object: runs.object,
            function: runs.function,
            place,
            thread,
            senses: Vec::new(alloc),
            resets: Vec::new(alloc),
        }
    }
}
