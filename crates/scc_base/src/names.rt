//! Names by number: each text has the number of its first use.
ghost use Rattle.std.specs.Prelude.{◌≡◌, ◌<◌, ◌^◌, length, IfOk, OnErr, OnOk, IfSome, Some, slice_get, IsTrue, ◌↔◌, bytes_eq, position};
ghost use Rattle.scc_base.specs.Names.{fixed_names, with_name, AllDiffer};

use crate::NoMemory;
use indexmap::IndexSet;
use std::alloc::Global;
use std::marker::Model;

/// The number of a text in a table of names.
#[derive(Clone, Copy, Debug, PartialEq, Eq, Hash)]
pub struct Name(pub u32);

/// Texts by number, from 0, in the order in which they were first seen.
pub struct Names {
    alloc: Global,
    texts: IndexSet<String>,
}

impl Drop for Names {
    fn drop(self) {
        let Names {
            alloc: _alloc,
            texts: _texts,
        } = self;
    }
}

impl Model for Names {
    ghost use Rattle.std.specs.Prelude.{List, ℕ, map, string_bytes};
    ghost use Rattle.scc_base.specs.Names.{AllDiffer};

    ghost Value = { List (List ℕ) };

    ghost view = { λ n. map string_bytes n.texts.keys };

    ghost invariant = { λ n. AllDiffer (map string_bytes n.texts.keys) };
}

impl Names {
    /// The table of the names 0 to 13, which later stages know by their numbers.
    pub fn new(alloc: Global) -> Result<Names, NoMemory>
        ensures { IfOk result (λ n. n ≡ fixed_names) }
    {
        let mut names = Names {
            alloc,
            texts: IndexSet::new(alloc),
        };
        for text in FIXED {
            names.intern(text)?;
        }
        Ok(names)
    }

    /// The number of a text; a new text gets the next one. Where memory runs out, the table is as it was.
    pub fn intern(&mut self, text: &str) -> Result<Name, NoMemory>
        requires { length self.old < 2 ^ 32 }
        ensures number { IfOk result (λ n. slice_get self.new n.0 ≡ Some text.now) }
        ensures kept { OnOk result (self.new ≡ with_name self.old text.now) }
        ensures err { OnErr result (self.new ≡ self.old) }
        // Equal numbers are of equal texts alone.
        ensures differ { AllDiffer self.new }
    {
        if let Some(index) = self.number_of(text) {
            return Ok(Name(index as u32));
        }
        let copy = String::from_str(self.alloc, text)?;
        let (index, _) = self.texts.insert_full(copy)?;
        Ok(Name(index as u32))
    }

    // The number of a text that the table has.
    #[tactic(auto, using(crate::proofs::NameLemmas::position_map, crate::proofs::NameLemmas::length_map))]
    fn number_of(&self, text: &str) -> Option<usize>
        ensures number { result ≡ position (bytes_eq text.now) self.now }
        ensures within { IfSome result (λ i. i < length self.now) }
    {
        self.texts.get_index_of(text)
    }

    /// Whether a number has a text.
    pub fn has(&self, n: Name) -> bool
        ensures value { IsTrue result ↔ (n.0 < length self.now) }
        ensures differ { AllDiffer self.now }
    {
        (n.0 as usize) < self.texts.len()
    }

    /// The text of a number.
    pub fn text(&self, n: Name) -> &str
        requires { n.0 < length self.now }
        ensures text { slice_get self.now n.0 ≡ Some result.now }
        ensures differ { AllDiffer self.now }
    {
        match self.texts.get_index(n.0 as usize) {
            Some(text) => text.as_str(),
            None => "",
        }
    }
}

const FIXED: [&str; 14] = [
    "read",
    "write",
    "bind",
    "pos",
    "neg",
    "range",
    "and_reduce",
    "or_reduce",
    "xor_reduce",
    "to_int",
    "to_uint",
    "to_int64",
    "to_uint64",
    "switch",
];
