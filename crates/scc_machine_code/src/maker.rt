//! Code while it is made: lines, labels for what lies ahead, and constants.
use crate::act::{Act, Line, targeted};
use crate::calls::Body;
use crate::place::Operand;
use crate::store::Store;
use indexmap::IndexSet;
use scc_base::{NoMemory, lost, push};
use scc_bits::Word;
use std::alloc::Global;

/// The code of functions.
#[derive(Drop)]
pub struct Code {
    pub(crate) lines: Vec<Line>,
    pub(crate) bodies: Vec<Body>,
}

/// A line to which code goes.
#[derive(Clone, Copy)]
pub struct Label(pub(crate) u32);

/// Code while it is made.
pub struct Maker {
    alloc: Global,
    lines: Vec<Line>,
    bodies: Vec<Body>,
    labels: Vec<u32>,
    constants: IndexSet<Word>,
    /// What the next line costs.
    cost: u32,
    /// How many words in between and locations there are.
    temporaries: u32,
    spots: u32,
    start: u32,
}

impl Drop for Maker {
    fn drop(self) {
        let Maker {
            alloc: _,
            lines: _lines,
            bodies: _bodies,
            labels: _labels,
            constants: _constants,
            cost: _,
            temporaries: _,
            spots: _,
            start: _,
        } = self;
    }
}

impl Maker {
    /// No code.
    pub fn new(alloc: Global) -> Maker {
        Maker {
            alloc,
            lines: Vec::new(alloc),
            bodies: Vec::new(alloc),
            labels: Vec::new(alloc),
            constants: IndexSet::new(alloc),
            cost: 0,
            temporaries: 0,
            spots: 0,
            start: 0,
        }
    }

    fn here(&self) -> Result<u32, NoMemory> {
        match u32::try_from(self.lines.len()) {
            Ok(at) => Ok(at),
            Err(_) => Err(NoMemory),
        }
    }

    /// Appends a line. It costs what is owed.
    pub fn emit(&mut self, act: Act) -> Result<(), NoMemory> {
        let cost = self.cost;
        self.cost = 0;
        push(&mut self.lines, Line { cost, act })
    }

    /// Owes so many steps more.
    pub fn pay(&mut self, steps: u32) {
        self.cost = self.cost.saturating_add(steps);
    }

    /// A label that is set later.
    pub fn label(&mut self) -> Result<Label, NoMemory> {
        let Ok(number) = u32::try_from(self.labels.len()) else {
            return Err(NoMemory);
        };
        push(&mut self.labels, u32::MAX)?;
        Ok(Label(number))
    }

    /// Sets a label at the next line. What is owed is paid before, since code may come from elsewhere.
    pub fn set(&mut self, label: Label) -> Result<(), NoMemory> {
        if self.cost > 0 {
            self.emit(Act::Rest)?;
        }
        let here = self.here()?;
        match self.labels.get_mut(label.0 as usize) {
            Some(line) => {
                *line = here;
                Ok(())
            }
            None => Err(lost()),
        }
    }

    /// Goes to a label.
    pub fn go(&mut self, to: Label) -> Result<(), NoMemory> {
        self.emit(Act::Go(to.0))
    }

    /// Goes to a label where the word is 0.
    pub fn unless(&mut self, test: Operand, to: Label) -> Result<(), NoMemory> {
        self.emit(Act::Unless { test, to: to.0 })
    }

    /// Goes to a label where the location is null.
    pub fn if_null(&mut self, spot: u32, to: Label) -> Result<(), NoMemory> {
        self.emit(Act::IfNull { spot, to: to.0 })
    }

    /// A constant.
    pub fn constant(&mut self, bits: u128) -> Result<Operand, NoMemory> {
        let (at, _) = self.constants.insert_full(Word { bits })?;
        match u32::try_from(at) {
            Ok(at) => Ok(Operand::Constant(at)),
            Err(_) => Err(NoMemory),
        }
    }

    /// The word in between of that number is used; its number.
    pub fn temporary(&mut self, number: u32) -> u32 {
        self.temporaries = self.temporaries.max(number.saturating_add(1));
        number
    }

    /// The location of that number is used; its number.
    pub fn spot(&mut self, number: u32) -> u32 {
        self.spots = self.spots.max(number.saturating_add(1));
        number
    }

    /// Begins the code of the next function.
    pub fn begin(&mut self) -> Result<(), NoMemory> {
        self.cost = 0;
        self.start = self.here()?;
        Ok(())
    }

    /// Ends a function's code. Its calls have so many slots, and so many calls stand in it.
    pub fn end(&mut self, slots: u32, calls: u32) -> Result<(), NoMemory> {
        self.emit(Act::Leave)?;
        let start = self.start;
        push(
            &mut self.bodies,
            Body {
                start,
                slots,
                calls,
            },
        )
    }

    /// The code, and a store with its constants.
    pub fn finish(self) -> Result<(Code, Store), NoMemory> {
        let store = self.store()?;
        let lines = self.targeted_lines()?;
        let code = Code {
            lines,
            bodies: self.into_bodies(),
        };
        Ok((code, store))
    }

    fn store(&self) -> Result<Store, NoMemory> {
        let mut words = Vec::new(self.alloc);
        for word in self.constants.iter() {
            push(&mut words, word.bits)?;
        }
        Store::new(self.alloc, words, self.temporaries, self.spots)
    }

    // The lines, whose jumps go to lines in place of labels.
    fn targeted_lines(&self) -> Result<Vec<Line>, NoMemory> {
        let mut done = Vec::new(self.alloc);
        for line in &self.lines {
            let Line { cost, act } = *line;
            let act = targeted(act, self.labels.as_slice());
            push(&mut done, Line { cost, act })?;
        }
        Ok(done)
    }

    fn into_bodies(self) -> Vec<Body> {
        let Maker {
            alloc: _,
            lines: _lines,
            bodies,
            labels: _labels,
            constants: _constants,
            cost: _,
            temporaries: _,
            spots: _,
            start: _,
        } = self;
        bodies
    }
}
