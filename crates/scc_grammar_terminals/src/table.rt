//! The names that are declared so far.
ghost use Rattle.std.specs.Prelude.{◌≡◌, OnOk};
ghost use Rattle.scc_grammar_terminals.specs.Names.{no_names, has, added, is_type, is_template, with_type, with_template};

use indexmap::IndexSet;
use scc_base::{Name, NoMemory};
use std::alloc::Global;
use std::marker::Model;

/// Numbers of names.
#[derive(Drop)]
struct Numbers {
    numbers: IndexSet<u32>,
}

impl Model for Numbers {
    ghost use Rattle.std.specs.Prelude.{List, ℕ};

    ghost Value = { List ℕ };

    ghost view = { λ n. n.numbers.keys };
}

impl Numbers {
    fn has(&self, x: u32) -> bool
        ensures { result ≡ has self.now x }
    {
        self.numbers.contains(&x)
    }

    fn add(&mut self, x: u32) -> Result<(), NoMemory>
        ensures { OnOk result (self.new ≡ added self.old x) }
    {
        if self.has(x) {
            return Ok(());
        }
        self.numbers.insert(x)?;
        Ok(())
    }
}

/// The names of types and of class templates that are declared so far.
#[derive(Drop)]
pub struct Table {
    types: Numbers,
    templates: Numbers,
}

impl Model for Table {
    ghost use Rattle.scc_grammar_terminals.specs.Names.{Names};

    ghost Value = { Names };

    ghost view = { λ t. record { types = t.types; templates = t.templates } };
}

impl Table {
    pub fn new(alloc: Global) -> Table
        ensures { result ≡ no_names }
    {
        Table {
            types: Numbers {
                numbers: IndexSet::new(alloc),
            },
            templates: Numbers {
                numbers: IndexSet::new(alloc),
            },
        }
    }

    /// Whether a name stands for a type.
    pub fn is_type(&self, x: Name) -> bool
        ensures { result ≡ is_type self.now x }
    {
        self.types.has(x.0)
    }

    /// Whether a name stands for a class template.
    pub fn is_template(&self, x: Name) -> bool
        ensures { result ≡ is_template self.now x }
    {
        self.types.has(x.0) && self.templates.has(x.0)
    }

    pub fn add_type(&mut self, x: Name) -> Result<(), NoMemory>
        ensures { OnOk result (self.new ≡ with_type self.old x) }
    {
        self.types.add(x.0)
    }

    pub fn add_template(&mut self, x: Name) -> Result<(), NoMemory>
        ensures { OnOk result (self.new ≡ with_template self.old x) }
    {
        self.types.add(x.0)?;
        self.templates.add(x.0)
    }
}
