//! Names of nested scopes.
ghost use Rattle.std.specs.Prelude.{◌≡◌, ℕ, nat_eq, None, OnOk, if◌then◌else◌};
ghost use Rattle.scc_templates_scopes.specs.Layered.{known_in};

use indexmap::IndexMap;
use scc_base::{Name, NoMemory, push};
use std::alloc::Global;

// What a name meant before a change.
#[derive(Clone, Copy)]
struct Change {
    name: Name,
    before: Option<u32>,
}

/// What the names of a body mean: each the number of a local, where it means one. Scopes are closed by taking their
/// changes back.
pub struct Layers {
    meanings: IndexMap<Name, Option<u32>>,
    changes: Vec<Change>,
}

impl Drop for Layers {
    fn drop(self) {
        let Layers {
            meanings: _meanings,
            changes: _changes,
        } = self;
    }
}

impl Layers {
    /// No name means anything.
    pub fn new(alloc: Global) -> Layers
        ensures { (x : ℕ) → known_in result x ≡ None }
    {
        Layers {
            meanings: IndexMap::new(alloc),
            changes: Vec::new(alloc),
        }
    }

    /// What a name means.
    pub fn get(&self, name: Name) -> Option<u32>
        ensures { result ≡ known_in self.now name.0 }
    {
        match self.meanings.get(&name) {
            Some(meaning) => *meaning,
            None => None,
        }
    }

    /// Gives a name a meaning, or none.
    pub fn set(&mut self, name: Name, meaning: Option<u32>) -> Result<(), NoMemory>
        ensures { OnOk result ((x : ℕ) → known_in self.new x ≡ (if nat_eq name.0 x then meaning else known_in self.old x)) }
    {
        let before = self.get(name);
        push(&mut self.changes, Change { name, before })?;
        self.meanings.insert(name, meaning)?;
        Ok(())
    }

    /// How many changes were made and not taken back.
    pub fn mark(&self) -> usize {
        self.changes.len()
    }

    /// Takes back the changes after the first so many.
    pub fn close(&mut self, mark: usize) {
        for _ in mark..self.changes.len() {
            let Some(change) = self.changes.pop() else {
                return;
            };
            self.put_back(change);
        }
    }

    fn put_back(&mut self, change: Change) {
        if let Some(meaning) = self.meanings.get_mut(&change.name) {
            *meaning = change.before;
        }
    }
}
