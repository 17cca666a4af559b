//! Module objects by their paths.
use indexmap::IndexSet;
use scc_base::NoMemory;
use std::alloc::Global;

/// The paths of module objects, of which the top's isn't among them: the first has the number 1.
pub struct Paths {
    alloc: Global,
    texts: IndexSet<Vec<u8>>,
}

// One call at each exit of what owns them.
impl Drop for Paths {
    fn drop(self) {
        let Paths {
            alloc: _,
            texts: _texts,
        } = self;
    }
}

impl Paths {
    pub fn new(alloc: Global) -> Paths {
        Paths {
            alloc,
            texts: IndexSet::new(alloc),
        }
    }

    /// Adds the next path.
    pub fn add(&mut self, path: &[u8]) -> Result<(), NoMemory> {
        let copy = Vec::from_slice(self.alloc, path)?;
        self.texts.insert_full(copy)?;
        Ok(())
    }

    /// The number of a path.
    pub fn find(&self, path: &[u8]) -> Option<usize> {
        match self.texts.get_index_of(path) {
            Some(at) => Some(at.saturating_add(1)),
            None => None,
        }
    }

    /// The number of the module object with the longest path such that a name begins with that path and `$`; 0, the top's, where
    /// there is none.
    pub fn owner(&self, name: &[u8]) -> usize {
        let mut rest = name;
        for _ in 0..name.len() {
            let Some((last, front)) = rest.split_last() else {
                return 0;
            };
            if *last == b'$' {
                if let Some(found) = self.find(front) {
                    return found;
                }
            }
            rest = front;
        }
        0
    }
}
