//! Code of one function while it is made.
use crate::layout::{Layout, plus, slots_of};
use crate::walk::Task;
use crate::way::{Located, Valued};
use scc_base::{NoMemory, lost, push};
use scc_machine_code::{Label, Maker, Place};
use scc_plain_tree::{Plain, PlainFunction, PlainMember, PlainStmt};
use std::alloc::Global;

/// What is still to be coded.
#[derive(Clone, Copy)]
pub enum Work<'t> {
    Statements(&'t [PlainStmt]),
    /// A label stands here.
    Set(Label),
    /// A branch ends: goes to the second label, and the other branch begins at the first.
    Other(Label, Label),
    /// A block ends at its label.
    EndBlock(Label),
    /// A loop goes on at its label.
    Again(Label),
}

/// A function that is coded. Values and locations that are still wanted have words and locations in between by their places
/// in the lists.
#[derive(Drop)]
pub struct Coder<'t> {
    pub p: &'t Plain,
    pub layout: &'t Layout,
    pub function: &'t PlainFunction,
    pub maker: Maker,
    pub tasks: Vec<Task<'t>>,
    pub values: Vec<Valued>,
    pub located: Vec<Located<'t>>,
    pub works: Vec<Work<'t>>,
    /// Where the enclosing blocks end, the innermost last.
    pub blocks: Vec<Label>,
    /// The first slot of each local.
    locals: Vec<u32>,
    /// How many slots the locals have.
    slots: u32,
    /// How many calls stand in it.
    calls: u32,
}

impl<'t> Coder<'t> {
    /// A function of which nothing is coded.
    pub fn new(
        alloc: Global,
        p: &'t Plain,
        layout: &'t Layout,
        function: &'t PlainFunction,
        maker: Maker,
    ) -> Result<Coder<'t>, NoMemory> {
        let mut locals = Vec::new(alloc);
        let mut slots = 0;
        for local in function.locals.as_slice() {
            push(&mut locals, slots)?;
            slots = plus(slots, slots_of(&local.shape));
        }
        Ok(Coder {
            p,
            layout,
            function,
            maker,
            tasks: Vec::new(alloc),
            values: Vec::new(alloc),
            located: Vec::new(alloc),
            works: Vec::new(alloc),
            blocks: Vec::new(alloc),
            locals,
            slots,
            calls: 0,
        })
    }

    /// The code, with this function's at its end.
    pub fn end(self) -> Result<Maker, NoMemory> {
        let Coder {
            mut maker,
            slots,
            calls,
            ..
        } = self;
        maker.end(plus(slots, calls), calls)?;
        Ok(maker)
    }

    /// The declaration of a local, and its first slot.
    pub fn local(&self, number: u32) -> Result<(&'t PlainMember, u32), NoMemory> {
        let function = self.function;
        match (
            function.locals.get(number as usize),
            self.locals.get(number as usize),
        ) {
            (Some(member), Some(slot)) => Ok((member, *slot)),
            _ => Err(lost()),
        }
    }

    /// The slot that takes the result of the call of a number.
    pub fn answer(&mut self, call: u32) -> u32 {
        self.calls = self.calls.max(call.saturating_add(1));
        plus(self.slots, call)
    }

    /// The number of the word in between that the next value may take.
    pub fn next_value(&mut self) -> Result<u32, NoMemory> {
        match u32::try_from(self.values.len()) {
            Ok(number) => Ok(self.maker.temporary(number)),
            Err(_) => Err(lost()),
        }
    }

    /// The number of the location in between that the next location may take.
    pub fn next_spot(&mut self) -> Result<u32, NoMemory> {
        match u32::try_from(self.located.len()) {
            Ok(number) => Ok(self.maker.spot(number)),
            Err(_) => Err(lost()),
        }
    }

    /// Keeps a value.
    pub fn give(&mut self, value: Valued) -> Result<(), NoMemory> {
        push(&mut self.values, value)
    }

    /// The last value.
    pub fn take(&mut self) -> Result<Valued, NoMemory> {
        match self.values.pop() {
            Some(value) => Ok(value),
            None => Err(lost()),
        }
    }

    /// Keeps a location.
    pub fn give_located(&mut self, located: Located<'t>) -> Result<(), NoMemory> {
        push(&mut self.located, located)
    }

    /// The last location.
    pub fn take_located(&mut self) -> Result<Located<'t>, NoMemory> {
        match self.located.pop() {
            Some(located) => Ok(located),
            None => Err(lost()),
        }
    }

    /// Keeps the location in between of that number.
    pub fn give_spot(&mut self, spot: u32) -> Result<(), NoMemory> {
        self.give_located(Located::one(Place::Spot(spot), None))
    }
}
