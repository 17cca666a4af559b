//! Processes that stop and go on.
use crate::place::Frame;
use std::alloc::Global;

/// Where a process stands.
#[derive(Drop)]
pub struct Thread {
    /// The line that is next.
    pub(crate) at: u32,
    pub(crate) now: Frame,
    /// The calls around the one that runs, the innermost last.
    pub(crate) callers: Vec<Frame>,
    /// The call of its function, and that one's first line.
    first: Frame,
    start: u32,
}

impl Thread {
    /// A process before its function's first line.
    pub fn new(alloc: Global, first: Frame, start: u32) -> Thread {
        Thread {
            at: start,
            now: first,
            callers: Vec::new(alloc),
            first,
            start,
        }
    }

    /// Stands before its function's first line again.
    pub fn restart(&mut self) {
        self.at = self.start;
        self.now = self.first;
        self.callers.clear();
    }
}
