//! The machine: it runs a process until it waits or ends, in at most so many steps.
use crate::act::{Act, Line, Object};
use crate::calls::{Body, Calls};
use crate::maker::Code;
use crate::place::{Frame, NOWHERE, NULL};
use crate::store::Store;
use crate::thread::Thread;
use scc_base::{NoMemory, lost, push};
use std::alloc::Global;

/// How a run halts.
#[derive(Clone, Copy, PartialEq, Eq)]
pub enum Halt {
    /// At a wait for so many edges.
    Waits(u32),
    Ended,
    /// It would take more steps, or it followed null.
    Over,
}

/// Code with the slots on which it works.
#[derive(Drop)]
pub struct Machine {
    code: Code,
    pub store: Store,
    calls: Calls,
    /// The activation of the call that was begun last.
    begun: u32,
}

impl Machine {
    /// A machine that has run nothing.
    pub fn new(alloc: Global, code: Code, store: Store) -> Machine {
        Machine {
            code,
            store,
            calls: Calls::new(alloc),
            begun: 0,
        }
    }

    fn body(&self, function: u32) -> Result<Body, NoMemory> {
        match self.code.bodies.get(function as usize) {
            Some(body) => Ok(*body),
            None => Err(lost()),
        }
    }

    /// A process of a function on the object whose first slot is given.
    pub fn thread(&mut self, alloc: Global, function: u32, this: u32) -> Result<Thread, NoMemory> {
        let body = self.body(function)?;
        let activation = self.calls.add(body, &mut self.store)?;
        let base = self.calls.base(activation)?;
        let first = Frame {
            back: 0,
            base,
            this,
            activation,
            answer: NOWHERE,
        };
        Ok(Thread::new(alloc, first, body.start))
    }

    /// Runs a process from where it stands until it halts.
    pub fn go(&mut self, t: &mut Thread, bound: u64) -> Result<Halt, NoMemory> {
        let mut left = bound;
        for _ in 0..u64::MAX {
            let Some(line) = self.code.lines.get(t.at as usize) else {
                return Err(lost());
            };
            let Line { cost, act } = *line;
            let Some(rest) = left.checked_sub(u64::from(cost)) else {
                return Ok(Halt::Over);
            };
            left = rest;
            match act {
                Act::Wait(n) => {
                    t.at = t.at.saturating_add(1);
                    return Ok(self.halted(Halt::Waits(n)));
                }
                Act::Leave => {
                    let Some(caller) = t.callers.pop() else {
                        return Ok(self.halted(Halt::Ended));
                    };
                    t.at = t.now.back;
                    t.now = caller;
                }
                Act::Begin { .. } | Act::Pass { .. } | Act::PassSpot { .. } | Act::Call { .. } => {
                    self.call(act, t)?;
                }
                _ => t.at = self.store.act(act, t.at, t.now),
            }
        }
        Err(lost())
    }

    fn halted(&mut self, halt: Halt) -> Halt {
        if self.store.take_stuck() {
            Halt::Over
        } else {
            halt
        }
    }

    fn call(&mut self, act: Act, t: &mut Thread) -> Result<(), NoMemory> {
        let next = t.at.saturating_add(1);
        match act {
            Act::Begin { number, function } => {
                let body = self.body(function)?;
                let caller = t.now.activation;
                self.begun = self.calls.callee(caller, number, body, &mut self.store)?;
                t.at = next;
            }
            Act::Pass { slot, of } => {
                let x = self.store.value(t.now, of);
                let to = self.calls.base(self.begun)?.saturating_add(slot);
                self.store.set_word(to, x);
                t.at = next;
            }
            Act::PassSpot { slot, spot } => {
                let to = self.calls.base(self.begun)?.saturating_add(slot);
                let leads = self.store.spot(spot);
                self.store.set_link(to, leads);
                t.at = next;
            }
            Act::Call {
                function,
                object,
                answer,
            } => {
                let frame = Frame {
                    back: next,
                    base: self.calls.base(self.begun)?,
                    this: self.object(object, t.now),
                    activation: self.begun,
                    answer: t.now.base.saturating_add(answer),
                };
                push(&mut t.callers, t.now)?;
                t.now = frame;
                t.at = self.body(function)?.start;
            }
            _ => t.at = next,
        }
        Ok(())
    }

    fn object(&self, object: Object, now: Frame) -> u32 {
        match object {
            Object::Missing => NULL,
            Object::This => now.this,
            Object::Spot(spot) => self.store.spot(spot),
        }
    }
}
