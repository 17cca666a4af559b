//! Sets of texts.
ghost use Rattle.std.specs.Prelude.{◌≡◌, ◌++◌, ◌∷◌, ◌+◌, ◌≤◌, [], not, nat_eq, length, position, IfOk, OnOk, if◌then◌else◌, bytes_eq};
ghost use Rattle.std.specs.List.{list_any};
ghost use Rattle.scc_svread_check.specs.Drivers.{with_name_if};
ghost use Rattle.scc_svread_check.specs.Mentioned.{is_among, with_name};

use indexmap::IndexSet;
use scc_base::NoMemory;
use std::alloc::Global;
use std::marker::Model;

/// Texts in the order in which they came, each once.
pub struct TextSet {
    alloc: Global,
    texts: IndexSet<Vec<u8>>,
}

impl Drop for TextSet {
    fn drop(self) {
        let TextSet {
            alloc: _,
            texts: _texts,
        } = self;
    }
}

impl Model for TextSet {
    ghost use Rattle.std.specs.Prelude.{List, ℕ, map};

    ghost Value = { List (List ℕ) };

    ghost view = { λ s. map (λ v. v.items) s.texts.keys };
}

impl TextSet {
    pub fn new(alloc: Global) -> TextSet
        ensures empty { result ≡ [] }
    {
        TextSet {
            alloc,
            texts: IndexSet::new(alloc),
        }
    }

    #[tactic(auto, using(crate::proofs::Mapped::length_map))]
    pub fn len(&self) -> usize
        ensures { result ≡ length self.now }
    {
        self.texts.len()
    }

    pub fn is_empty(&self) -> bool
        ensures { result ≡ nat_eq (length self.now) 0 }
    {
        self.len() == 0
    }

    /// Whether a text is among them.
    #[tactic(auto, using(crate::proofs::Mapped::list_any_map))]
    pub fn has(&self, text: &[u8]) -> bool
        ensures { result ≡ is_among self.now text.now }
    {
        self.texts.contains(text)
    }

    /// How many stand before a text.
    #[tactic(auto, using(crate::proofs::Mapped::position_map))]
    pub fn index(&self, text: &[u8]) -> Option<usize>
        ensures { result ≡ position (bytes_eq text.now) self.now }
    {
        self.texts.get_index_of(text)
    }

    /// Adds a text, if it is new, and says whether it was.
    #[tactic(auto, using(crate::proofs::Mapped::list_any_map, crate::proofs::Mapped::length_map))]
    pub fn insert(&mut self, text: Vec<u8>) -> Result<bool, NoMemory>
        ensures new { IfOk result (λ b. b ≡ not (list_any (bytes_eq text.items) self.old)) }
        ensures kept { IfOk result (λ b. self.new ≡ (if b then self.old ++ text.items ∷ [] else self.old)) }
        ensures at_most { length self.new ≤ length self.old + 1 }
    {
        let (_, new) = self.texts.insert_full(text)?;
        Ok(new)
    }

    /// Adds a text, if it is new.
    pub fn add(&mut self, text: &[u8]) -> Result<(), NoMemory>
        ensures added { OnOk result (self.new ≡ with_name self.old text.now) }
        ensures at_most { length self.new ≤ length self.old + 1 }
    {
        let copy = Vec::from_slice(self.alloc, text)?;
        self.insert(copy)?;
        Ok(())
    }

    /// Adds a text, if it is new and wanted.
    pub fn add_if(&mut self, wanted: bool, text: &[u8]) -> Result<(), NoMemory>
        ensures added { OnOk result (self.new ≡ with_name_if wanted text.now self.old) }
    {
        if wanted { self.add(text) } else { Ok(()) }
    }
}
