//! The runner: what it is made of, and its calls.
use crate::build::{Placed, place_objects};
use crate::resume::{ResetAt, Running, Stage};
use crate::start::Start;
use scc_base::{NoMemory, lost, push};
use scc_bits::Word;
use scc_elab_design::{Design, Object, ObjectNode, Process, Sort};
use scc_machine_code::{Machine, NULL};
use scc_machine_functions::{Layout, coded};
use scc_plain_tree::Plain;
use std::alloc::{AllocFailed, Global};

/// Why a runner stopped for good.
#[derive(Clone, Copy, PartialEq, Eq)]
pub enum RunStop {
    NoMemory,
    /// A resume of the process of that number neither waited nor ended within the process's bound of steps, or it followed null.
    Bound(u32),
}

impl From<NoMemory> for RunStop {
    fn from(_: NoMemory) -> Self {
        RunStop::NoMemory
    }
}

impl<T: Drop> From<AllocFailed<T>> for RunStop {
    fn from(_: AllocFailed<T>) -> Self {
        RunStop::NoMemory
    }
}

/// A design that runs. Once a call answered an error, every later one gives the same.
pub struct Runner<'a> {
    pub(crate) machine: Machine,
    pub(crate) processes: Vec<Running>,
    pub(crate) bounds: &'a [u64],
    /// The slot of the word that each port, signal or variable shows.
    words: Vec<u32>,
    /// The inputs of the top but the clocks, by their slots.
    pub(crate) inputs: Vec<u32>,
    /// The combinational methods, the clocked processes, and the threads with an asynchronous reset, in construction order.
    pub(crate) combs: Vec<u32>,
    pub(crate) clocked: Vec<u32>,
    pub(crate) asynchronous: Vec<u32>,
    /// The methods whose sensitivity lists name a signal; the signal's slot leads to them.
    pub(crate) listeners: Vec<Vec<u32>>,
    /// The methods whose listed signals changed since they ran.
    pub(crate) due: Vec<u32>,
    /// Whether a clock has its edge, by the number of its port.
    pub(crate) ticks: Vec<bool>,
    pub(crate) stopped: Option<RunStop>,
}

// One call at each exit of what owns it.
impl Drop for Runner<'_> {
    fn drop(self) {
        let Runner {
            machine: _machine,
            processes: _processes,
            bounds: _,
            words: _words,
            inputs: _inputs,
            combs: _combs,
            clocked: _clocked,
            asynchronous: _asynchronous,
            listeners: _listeners,
            due: _due,
            ticks: _ticks,
            stopped: _,
        } = self;
    }
}

impl<'a> Runner<'a> {
    /// A program's design before its first step. The inputs are 0, and so are outputs and locals; signals and variables hold the
    /// start's words. There is a bound of steps for each process.
    pub fn new(
        alloc: Global,
        p: &'a Plain,
        d: &'a Design,
        start: &Start,
        bounds: &'a [u64],
    ) -> Result<Runner<'a>, NoMemory> {
        let layout = Layout::new(alloc, p)?;
        let (code, mut store) = coded(alloc, p, &layout)?.finish()?;
        let Placed { words, slots } = place_objects(alloc, p, d, &layout, start, &mut store)?;
        let mut runner = Runner {
            machine: Machine::new(alloc, code, store),
            processes: Vec::new(alloc),
            bounds,
            words,
            inputs: Vec::new(alloc),
            combs: Vec::new(alloc),
            clocked: Vec::new(alloc),
            asynchronous: Vec::new(alloc),
            listeners: Vec::new(alloc),
            due: Vec::new(alloc),
            ticks: Vec::new(alloc),
            stopped: None,
        };
        runner.add_processes(alloc, d, slots.as_slice())?;
        runner.add_inputs(alloc, d)?;
        Ok(runner)
    }

    fn add_processes(&mut self, alloc: Global, d: &Design, slots: &[u32]) -> Result<(), NoMemory> {
        let mut number = 0;
        for process in d.processes.as_slice() {
            self.add_process(alloc, number, process, slots)?;
            number = number.saturating_add(1);
        }
        Ok(())
    }

    fn add_process(
        &mut self,
        alloc: Global,
        number: u32,
        process: &Process,
        slots: &[u32],
    ) -> Result<(), NoMemory> {
        let Some(this) = slots.get(process.object as usize) else {
            return Err(lost());
        };
        let thread = self.machine.thread(alloc, process.function, *this)?;
        let running = Running {
            thread,
            is_thread: process.sort == Sort::Thread,
            reset: self.reset_of(process)?,
            clock: process.edge.map(|edge| edge.root),
            stage: Stage::Fresh,
            waits: 0,
            is_due: false,
        };
        push(&mut self.processes, running)?;
        if let Some(reset) = process.reset {
            if reset.asynchronous {
                push(&mut self.asynchronous, number)?;
            }
        }
        if process.edge.is_some() {
            return push(&mut self.clocked, number);
        }
        if process.sort == Sort::Thread {
            return Ok(());
        }
        push(&mut self.combs, number)?;
        self.make_due(number)?;
        for root in process.senses.as_slice() {
            self.listen(alloc, *root, number)?;
        }
        Ok(())
    }

    fn reset_of(&self, process: &Process) -> Result<Option<ResetAt>, NoMemory> {
        let Some(reset) = process.reset else {
            return Ok(None);
        };
        Ok(Some(ResetAt {
            slot: self.word_slot(reset.root)?,
            level: reset.level,
        }))
    }

    // The slot of the word that an object shows.
    fn word_slot(&self, object: u32) -> Result<u32, NoMemory> {
        match self.words.get(object as usize) {
            Some(slot) => Ok(*slot),
            None => Err(lost()),
        }
    }

    // A method is to be due when a signal changes.
    fn listen(&mut self, alloc: Global, root: u32, number: u32) -> Result<(), NoMemory> {
        let slot = self.word_slot(root)?;
        let row = self.machine.store.link(slot);
        if row != NULL {
            return match self.listeners.get_mut(row as usize) {
                Some(list) => push(list, number),
                None => Err(lost()),
            };
        }
        let Ok(row) = u32::try_from(self.listeners.len()) else {
            return Err(lost());
        };
        self.machine.store.set_link(slot, row);
        let mut list = Vec::new(alloc);
        push(&mut list, number)?;
        push(&mut self.listeners, list)
    }

    fn add_inputs(&mut self, alloc: Global, d: &Design) -> Result<(), NoMemory> {
        let clocks = clocks_of(alloc, d)?;
        let mut number: usize = 0;
        for object in d.objects.as_slice() {
            let is_clock = clocks.get(number).copied().unwrap_or(false);
            if is_input(object, number) && !is_clock {
                match self.words.get(number) {
                    Some(slot) => push(&mut self.inputs, *slot)?,
                    None => return Err(lost()),
                }
            }
            push(&mut self.ticks, false)?;
            number = number.saturating_add(1);
        }
        Ok(())
    }

    /// What the port, signal or variable of that number shows; 0 for other objects.
    pub fn get(&self, object: u32) -> Word {
        let bits = match self.words.get(object as usize) {
            Some(slot) => self.machine.store.word(*slot),
            None => 0,
        };
        Word { bits }
    }
}

// Whether each object is the clock of a process.
fn clocks_of(alloc: Global, d: &Design) -> Result<Vec<bool>, NoMemory> {
    let mut list = Vec::new(alloc);
    for _object in d.objects.as_slice() {
        push(&mut list, false)?;
    }
    for process in d.processes.as_slice() {
        if let Some(edge) = process.edge {
            if let Some(is) = list.get_mut(edge.root as usize) {
                *is = true;
            }
        }
    }
    Ok(list)
}

// Whether an object is an input of the top.
fn is_input(object: &Object, number: usize) -> bool {
    match object.node {
        ObjectNode::Port { output, root, .. } => !output && root as usize == number,
        _ => false,
    }
}
