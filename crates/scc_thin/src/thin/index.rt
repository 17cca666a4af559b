//! Names and numbers that stand at most once, found without a walk over all of them.
ghost use Rattle.std.specs.Prelude.{◌≡◌, ◌<◌, [], ◌∷◌, ◌++◌, length, not, IfOk, IfSome, if◌then◌else◌, bytes_eq, nat_eq, position, map};
ghost use Rattle.std.specs.List.{list_any};

use indexmap::IndexSet;
use scc_base::NoMemory;
use std::alloc::Global;
use std::marker::Model;

/// Names in the order in which they came, each once.
pub struct NameIndex {
    names: IndexSet<Vec<u8>>,
}

impl Drop for NameIndex {
    fn drop(self) {
        let NameIndex { names: _names } = self;
    }
}

impl Model for NameIndex {
    ghost use Rattle.std.specs.Prelude.{List, ℕ, map};

    ghost Value = { List (List ℕ) };

    ghost view = { λ n. map (λ v. v.items) n.names.keys };
}

impl NameIndex {
    pub fn new(alloc: Global) -> NameIndex
        ensures empty { result ≡ [] }
    {
        NameIndex {
            names: IndexSet::new(alloc),
        }
    }

    /// Adds a name, and says whether it was new.
    #[tactic(auto, using(crate::proofs::Mapped::list_any_map))]
    pub fn insert(&mut self, alloc: Global, name: &[u8]) -> Result<bool, NoMemory>
        ensures new { IfOk result (λ b. b ≡ not (list_any (bytes_eq name.now) self.old)) }
        ensures kept { IfOk result (λ b. self.new ≡ (if b then self.old ++ name.now ∷ [] else self.old)) }
    {
        let (_, new) = self.names.insert_full(Vec::from_slice(alloc, name)?)?;
        Ok(new)
    }

    /// The number of a name, from 0.
    #[tactic(auto, using(crate::proofs::Mapped::position_map, crate::proofs::Mapped::length_map))]
    pub fn number(&self, name: &[u8]) -> Option<usize>
        ensures number { result ≡ position (bytes_eq name.now) self.now }
        ensures within { IfSome result (λ i. i < length self.now) }
    {
        self.names.get_index_of(name)
    }

    #[tactic(auto, using(crate::proofs::Mapped::list_any_map))]
    pub fn has(&self, name: &[u8]) -> bool
        ensures has { result ≡ list_any (bytes_eq name.now) self.now }
    {
        self.names.contains(name)
    }
}

/// Numbers, each once.
pub struct NumberSet {
    numbers: IndexSet<u32>,
}

impl Drop for NumberSet {
    fn drop(self) {
        let NumberSet { numbers: _numbers } = self;
    }
}

impl Model for NumberSet {
    ghost use Rattle.std.specs.Prelude.{List, ℕ};

    ghost Value = { List ℕ };

    ghost view = { λ s. s.numbers.keys };
}

impl NumberSet {
    pub fn new(alloc: Global) -> NumberSet
        ensures empty { result ≡ [] }
    {
        NumberSet {
            numbers: IndexSet::new(alloc),
        }
    }

    /// Adds a number, and says whether it was new.
    pub fn insert(&mut self, number: u32) -> Result<bool, NoMemory>
        ensures new { IfOk result (λ b. b ≡ not (list_any (nat_eq number) self.old)) }
        ensures kept { IfOk result (λ b. self.new ≡ (if b then self.old ++ number ∷ [] else self.old)) }
    {
        let (_, new) = self.numbers.insert_full(number)?;
        Ok(new)
    }

    pub fn has(&self, number: u32) -> bool
        ensures has { result ≡ list_any (nat_eq number) self.now }
    {
        self.numbers.contains(&number)
    }
}
