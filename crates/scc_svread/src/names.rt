//! The variables of a module by their names.
ghost use Rattle.std.specs.Prelude.{◌≡◌, [], OnOk};
ghost use Rattle.scc_svread_check.specs.Mentioned.{with_name};
ghost use Rattle.scc_svread_written.specs.Resolved.{number_of};

use scc_base::NoMemory;
use scc_svread_check::TextSet;
use scc_svtree::VarId;
use std::alloc::Global;
use std::marker::Model;

/// Names in the order in which they came, each once; fewer than 2^32.
#[derive(Drop)]
pub struct VarNames {
    names: TextSet,
}

impl Model for VarNames {
    ghost use Rattle.std.specs.Prelude.{List, ℕ, length, ◌<◌, ◌^◌};

    ghost Value = { List (List ℕ) };

    ghost view = { λ n. n.names };

    ghost invariant = { λ n. length n.names < 2 ^ 32 };
}

impl VarNames {
    pub fn new(alloc: Global) -> VarNames
        ensures empty { result ≡ [] }
    {
        VarNames {
            names: TextSet::new(alloc),
        }
    }

    /// Adds a name, if it is new. Where there is no number for a further one, that is want of memory.
    pub fn add(&mut self, name: &[u8]) -> Result<(), NoMemory>
        ensures added { OnOk result (self.new ≡ with_name self.old name.now) }
    {
        if self.names.len() < u32::MAX as usize {
            return self.names.add(name);
        }
        Err(NoMemory)
    }

    /// The variable of a name; the first where there is none of that name.
    pub fn var(&self, name: &[u8]) -> VarId
        ensures number { result.0 ≡ number_of self.now name.now }
    {
        match self.names.index(name) {
            Some(i) => VarId(i as u32),
            None => VarId(0),
        }
    }
}
