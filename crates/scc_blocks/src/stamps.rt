//! Which process was the last that something was noted for.
use scc_base::{NoMemory, push};
use std::alloc::Global;

/// For each number the last turn in which it was noted, counted from 1; 0 for none.
pub struct Stamps {
    pub by: Vec<u32>,
}

impl Drop for Stamps {
    fn drop(self) {
        let Stamps { by: _by } = self;
    }
}

impl Stamps {
    pub fn new(alloc: Global) -> Stamps {
        Stamps {
            by: Vec::new(alloc),
        }
    }

    /// So many more numbers, noted in no turn.
    pub fn grow(&mut self, count: usize) -> Result<(), NoMemory> {
        for _ in 0..count {
            push(&mut self.by, 0)?;
        }
        Ok(())
    }
}
