//! The variables of a module by their names.
use indexmap::IndexSet;
use scc_base::{NoMemory, lost};
use scc_svtree::{SvVar, VarId};
use std::alloc::Global;

/// The names of a module's variables, none of which stands twice.
pub struct Variables {
    names: IndexSet<Vec<u8>>,
}

// One call at each exit of what owns them.
impl Drop for Variables {
    fn drop(self) {
        let Variables { names: _names } = self;
    }
}

impl Variables {
    /// Those of a list.
    pub fn of(alloc: Global, vars: &[SvVar]) -> Result<Variables, NoMemory> {
        let mut variables = Variables {
            names: IndexSet::new(alloc),
        };
        variables.add(alloc, vars)?;
        Ok(variables)
    }

    fn add(&mut self, alloc: Global, vars: &[SvVar]) -> Result<(), NoMemory> {
        for v in vars {
            let name = Vec::from_slice(alloc, v.name.bytes())?;
            let (_, new) = self.names.insert_full(name)?;
            if !new {
                return Err(lost());
            }
        }
        Ok(())
    }

    /// The variable of a name.
    pub fn find(&self, name: &[u8]) -> Option<VarId> {
        match self.names.get_index_of(name) {
            Some(at) => match u32::try_from(at) {
                Ok(id) => Some(VarId(id)),
                Err(_) => None,
            },
            None => None,
        }
    }
}
