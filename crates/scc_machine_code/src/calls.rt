//! Activations: a function has slots of its own for each chain of calls that leads to it, and they keep what they hold between
//! its calls.
use crate::store::Store;
use scc_base::{NoMemory, lost, push};
use std::alloc::Global;

/// A function's code.
#[derive(Clone, Copy)]
pub struct Body {
    /// Its first line.
    pub start: u32,
    /// How many slots a call of it has.
    pub slots: u32,
    /// How many calls stand in it.
    pub calls: u32,
}

#[derive(Clone, Copy)]
struct Activation {
    base: u32,
    /// Where the activations of its calls stand.
    callees: u32,
}

/// The activations that were entered.
#[derive(Drop)]
pub struct Calls {
    list: Vec<Activation>,
    /// The activation of each call, `NONE` before the first.
    callees: Vec<u32>,
}

const NONE: u32 = u32::MAX;

impl Calls {
    /// None.
    pub fn new(alloc: Global) -> Calls {
        Calls {
            list: Vec::new(alloc),
            callees: Vec::new(alloc),
        }
    }

    /// An activation more; its number.
    pub fn add(&mut self, body: Body, store: &mut Store) -> Result<u32, NoMemory> {
        let base = store.grow(body.slots)?;
        let (Ok(number), Ok(callees)) = (
            u32::try_from(self.list.len()),
            u32::try_from(self.callees.len()),
        ) else {
            return Err(NoMemory);
        };
        for _ in 0..body.calls {
            push(&mut self.callees, NONE)?;
        }
        push(&mut self.list, Activation { base, callees })?;
        Ok(number)
    }

    /// The first slot of an activation.
    pub fn base(&self, activation: u32) -> Result<u32, NoMemory> {
        match self.list.get(activation as usize) {
            Some(one) => Ok(one.base),
            None => Err(lost()),
        }
    }

    /// The activation of the call of that number in an activation.
    #[inline(always)]
    pub fn callee(
        &mut self,
        caller: u32,
        number: u32,
        body: Body,
        store: &mut Store,
    ) -> Result<u32, NoMemory> {
        let Some(one) = self.list.get(caller as usize) else {
            return Err(lost());
        };
        let at = one.callees.saturating_add(number) as usize;
        match self.callees.get(at) {
            Some(callee) if *callee != NONE => Ok(*callee),
            Some(_) => self.enter(at, body, store),
            None => Err(lost()),
        }
    }

    #[cold]
    fn enter(&mut self, at: usize, body: Body, store: &mut Store) -> Result<u32, NoMemory> {
        let made = self.add(body, store)?;
        match self.callees.get_mut(at) {
            Some(callee) => {
                *callee = made;
                Ok(made)
            }
            None => Err(lost()),
        }
    }
}
