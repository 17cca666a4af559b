//! Macros by the names that they have (C++, "Macro replacement").
ghost use Rattle.std.specs.Prelude.{◌≡◌, [], OnOk, OnErr, nat_eq};
ghost use Rattle.std.specs.Option.{option_copied};
ghost use Rattle.indexmap.specs.IndexMap.{insert_entry};
ghost use Rattle.scc_tokens_directives.specs.Macros.{macro_of};

use indexmap::IndexMap;
use scc_base::{Name, NoMemory};
use scc_tokens_lexer::Tokens;
use std::alloc::Global;
use std::marker::Model;

/// What each name was last defined as; nothing where its definition was withdrawn.
#[derive(Drop)]
pub struct Macros {
    map: IndexMap<u32, Option<Tokens>>,
}

impl Model for Macros {
    ghost use Rattle.std.specs.Prelude.{List, ℕ, Option};
    ghost use Rattle.scc_tokens_lexer.specs.declared.token.Token.{Token};

    ghost Value = { List (ℕ × Option (List Token)) };

    ghost view = { λ m. m.map.entries };
}

impl Macros {
    /// No macros.
    pub fn new(alloc: Global) -> Macros
        ensures { result ≡ [] }
    {
        Macros {
            map: IndexMap::new(alloc),
        }
    }

    /// The tokens that stand for a name, if it is a macro.
    pub fn get(&self, name: Name) -> Option<&Tokens>
        ensures { option_copied result ≡ macro_of self.now name.0 }
    {
        match self.map.get(&name.0) {
            Some(Some(body)) => Some(body),
            _ => None,
        }
    }

    /// Gives a name these tokens, or none.
    pub fn set(&mut self, name: Name, body: Option<Tokens>) -> Result<(), NoMemory>
        ensures ok { OnOk result (self.new ≡ insert_entry nat_eq self.old name.0 body) }
        ensures err { OnErr result (self.new ≡ self.old) }
    {
        self.map.insert(name.0, body)?;
        Ok(())
    }
}
