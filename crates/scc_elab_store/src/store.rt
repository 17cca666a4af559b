//! Words and targets by their locations. Where nothing was written stands 0, or null; a local variable is declared anew each time
//! that its declaration is met.
ghost use Rattle.std.specs.Prelude.{◌≡◌, None, option_map, IfOk, OnOk};
ghost use Rattle.scc_semantics.specs.Store.{changed};
ghost use Rattle.scc_elab_store.specs.Locations.{location_of, root_of};
ghost use Rattle.scc_elab_store.specs.Stores.{entry_at, store_of, turn_of};

use crate::locations::{LocalOf, Location};
use indexmap::IndexMap;
use scc_base::NoMemory;
use std::alloc::Global;

/// A word, and how often its local variable had been declared when it was written.
#[derive(Clone, Copy)]
pub struct HeldWord {
    pub since: u64,
    pub word: u128,
}

/// What a pointer or reference was given, None for null, and how often its local variable had been declared then.
#[derive(Drop)]
pub struct HeldTarget {
    pub since: u64,
    pub to: Option<Location>,
}

/// What stands at locations.
pub struct Store {
    pub words: IndexMap<Location, HeldWord>,
    pub targets: IndexMap<Location, HeldTarget>,
    /// How often local variables were declared.
    pub declared: IndexMap<LocalOf, u64>,
}

impl Drop for Store {
    fn drop(self) {
        let Store {
            words: _words,
            targets: _targets,
            declared: _declared,
        } = self;
    }
}

impl Store {
    /// Before construction.
    pub fn new(alloc: Global) -> Store
        ensures { store_of result ≡ record { words = λ l. 0; targets = λ l. None } }
    {
        Store {
            words: IndexMap::new(alloc),
            targets: IndexMap::new(alloc),
            declared: IndexMap::new(alloc),
        }
    }

    // How often what stands at a root was declared.
    #[tactic(auto, using(crate::proofs::Same::turn_is))]
    fn turn(&self, local: Option<LocalOf>) -> u64
        ensures { result ≡ turn_of self.now.declared.entries (root_of local) }
    {
        match local {
            Some(of) => self.declared.get(&of).copied().unwrap_or(0),
            None => 0,
        }
    }

    /// Counts a declaration of a local variable: what it held is no more.
    pub fn declare(&mut self, of: LocalOf) -> Result<(), NoMemory> {
        let turn = self.turn(Some(of));
        self.declared.insert(of, turn.saturating_add(1))?;
        Ok(())
    }

    #[tactic(auto, using(crate::proofs::Same::entry_is))]
    fn held_word(&self, at: &Location) -> Option<HeldWord>
        ensures { result ≡ entry_at self.now.words.entries (location_of at.now) }
    {
        self.words.get(at).copied()
    }

    /// The word at a location.
    pub fn word(&self, at: &Location) -> u128
        ensures { result ≡ (store_of self.now).words (location_of at.now) }
    {
        match self.held_word(at) {
            Some(held) => {
                if held.since == self.turn(at.local) {
                    held.word
                } else {
                    0
                }
            }
            None => 0,
        }
    }

    /// Where the pointer or reference at a location leads; None for null.
    #[tactic(auto, using(crate::proofs::Same::entry_is))]
    pub fn target(&self, alloc: Global, at: &Location) -> Result<Option<Location>, NoMemory>
        ensures { IfOk result (λ t. option_map location_of t ≡ (store_of self.now).targets (location_of at.now)) }
    {
        match self.targets.get(at) {
            Some(held) => {
                if held.since == self.turn(at.local)
                    && let Some(to) = &held.to
                {
                    Ok(Some(to.copied(alloc)?))
                } else {
                    Ok(None)
                }
            }
            None => Ok(None),
        }
    }

    /// Writes a word. Where memory runs out, nothing is said of the store.
    pub fn put_word(&mut self, at: Location, word: u128) -> Result<(), NoMemory>
        ensures { OnOk result (store_of self.new ≡ record { words = changed (location_of at) word (store_of self.old).words; targets = (store_of self.old).targets }) }
    {
        let since = self.turn(at.local);
        self.words.insert(at, HeldWord { since, word })?;
        Ok(())
    }

    /// Gives a pointer or reference what it leads to.
    pub fn put_target(&mut self, at: Location, to: Option<Location>) -> Result<(), NoMemory>
        ensures { OnOk result (store_of self.new ≡ record { words = (store_of self.old).words; targets = changed (location_of at) (option_map location_of to) (store_of self.old).targets }) }
    {
        let since = self.turn(at.local);
        self.targets.insert(at, HeldTarget { since, to })?;
        Ok(())
    }
}
