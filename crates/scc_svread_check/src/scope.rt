//! How the names of a module are declared.
ghost use Rattle.std.specs.Prelude.{◌≡◌, [], OnOk};
ghost use Rattle.scc_svread_check.specs.Scope.{declare, entry_of, is_declared, once, once_more as declared_again};

use crate::number::high_of;
use indexmap::IndexMap;
use scc_base::NoMemory;
use scc_svread_grammar::RawVar;
use std::alloc::Global;
use std::marker::Model;

/// Names, each with the number of its highest bit where it is declared once.
pub struct Scope {
    alloc: Global,
    highs: IndexMap<Vec<u8>, Option<u128>>,
}

impl Drop for Scope {
    fn drop(self) {
        let Scope {
            alloc: _,
            highs: _highs,
        } = self;
    }
}

impl Model for Scope {
    ghost use Rattle.std.specs.Prelude.{List, ℕ, Option, map};

    ghost Value = { List (List ℕ × Option ℕ) };

    ghost view = { λ s. map (λ e. (e.0.items, e.1)) s.highs.entries };
}

impl Scope {
    pub fn new(alloc: Global) -> Scope
        ensures empty { result ≡ [] }
    {
        Scope {
            alloc,
            highs: IndexMap::new(alloc),
        }
    }

    fn entry(&self, name: &[u8]) -> Option<Option<u128>>
        ensures { result ≡ entry_of self.now name.now }
    {
        self.highs.get(name).copied()
    }

    /// Whether a name is declared.
    pub fn has(&self, name: &[u8]) -> bool
        ensures { result ≡ is_declared self.now name.now }
    {
        match self.entry(name) {
            Some(_) => true,
            None => false,
        }
    }

    /// The number of a name's highest bit, where it is declared exactly once.
    pub fn high(&self, name: &[u8]) -> Option<u128>
        ensures { result ≡ once self.now name.now }
    {
        match self.entry(name) {
            Some(high) => high,
            None => None,
        }
    }

    /// Declares a variable.
    pub fn declare(&mut self, v: &RawVar) -> Result<(), NoMemory>
        ensures declared { OnOk result (self.new ≡ declare self.old v.now) }
    {
        let name = v.name.bytes();
        let high = once_more(high_of(v), self.entry(name));
        self.highs.insert(Vec::from_slice(self.alloc, name)?, high)?;
        Ok(())
    }
}

// What a further declaration leaves of a name.
fn once_more(high: u128, before: Option<Option<u128>>) -> Option<u128>
    ensures { result ≡ declared_again high before }
{
    match before {
        Some(_) => None,
        None => Some(high),
    }
}
