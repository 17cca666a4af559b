//! The objects that construction made, within the limits on their number and on their bits of storage.
ghost use Rattle.std.specs.Prelude.{◌≡◌, ◌≤◌, ◌<◌, ◌↔◌, IsTrue, length};
ghost use Rattle.std.specs.List.{sum_by};
ghost use Rattle.scc_elab_state.specs.Things.{thing_bits};

use crate::things::{MOST_BITS, MOST_OBJECTS, Thing, ThingSort};
use scc_base::{NoMemory, lost, push};
use std::alloc::Global;
use std::marker::Model;

/// Objects by number. They keep the limits, and the bits are counted as they come.
#[derive(Drop)]
pub struct Things {
    list: Vec<Thing>,
    bits: u32,
}

impl Model for Things {
    ghost use Rattle.std.specs.Prelude.{List};
    ghost use Rattle.scc_elab_state.specs.declared.things.Thing.{Thing};
    ghost use Rattle.scc_elab_state.specs.Things.{Within};

    ghost Value = { List Thing };

    ghost view = { λ t. t.list.items };

    ghost invariant = { λ t. Within t.list.items t.bits };
}

impl Things {
    /// None.
    pub fn new(alloc: Global) -> Things {
        Things {
            list: Vec::new(alloc),
            bits: 0,
        }
    }

    /// The objects, in the order of their numbers.
    pub fn as_slice(&self) -> &[Thing]
        ensures things { result.now ≡ self.now }
        ensures bits { sum_by thing_bits self.now ≤ 1048576 }
    {
        self.list.as_slice()
    }

    /// The object of a number.
    pub fn get(&self, number: u32) -> Option<Thing> {
        self.list.get(number as usize).copied()
    }

    /// Whether there may be no more objects.
    pub fn is_full(&self) -> bool
        ensures { IsTrue result ↔ (65536 ≤ length self.now) }
    {
        MOST_OBJECTS <= self.list.len()
    }

    /// Adds an object and answers its number; None, and nothing is added, where there may not be so many bits.
    pub fn add(&mut self, thing: Thing) -> Result<Option<u32>, NoMemory>
        requires { length self.old < 65536 }
    {
        let bits = thing.sort.bits();
        if MOST_BITS - self.bits < bits {
            return Ok(None);
        }
        let number = self.list.len() as u32;
        push(&mut self.list, thing)?;
        self.bits += bits;
        Ok(Some(number))
    }

    /// Changes what an object is, to what stores as many bits.
    pub fn set(&mut self, number: u32, sort: ThingSort) -> Result<(), NoMemory> {
        let at = number as usize;
        let Some(old) = self.list.get(at).copied() else {
            return Err(lost());
        };
        let new = Thing::new(old.spot, old.place, sort);
        if old.sort.bits() != new.sort.bits() {
            return Err(lost());
        }
        self.list[at] = new;
        Ok(())
    }
}
