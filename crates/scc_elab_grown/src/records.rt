//! Processes that constructors declare.
ghost use Rattle.std.specs.Prelude.{◌≡◌, ◌++◌, [], ◌∷◌, length, map, OnOk};
ghost use Rattle.std.specs.List.{list_any};
ghost use Rattle.scc_elab_spec.specs.Binding.{changed_at, with_items, with_reset};
ghost use Rattle.scc_elab_grown.specs.Records.{item_of, record_of, reset_of, RunSame, runs_at};

use indexmap::IndexMap;
use scc_base::{NoMemory, Place, lost, push};
use std::alloc::Global;
use std::marker::Model;

/// An item of a sensitivity: an edge or a level of the port or signal of that number; None where none is named.
#[derive(Clone, Copy)]
pub struct Item {
    pub place: Place,
    pub signal: Option<u32>,
    pub rising: Option<bool>,
}

/// A reset.
#[derive(Clone, Copy)]
pub struct ResetItem {
    pub place: Place,
    pub signal: Option<u32>,
    pub level: bool,
    pub asynchronous: bool,
}

/// A process of an object.
pub struct Record {
    pub object: u32,
    pub function: u32,
    pub place: Place,
    pub is_thread: bool,
    pub items: Vec<Item>,
    pub resets: Vec<ResetItem>,
}

impl Drop for Record {
    fn drop(self) {
        let Record {
            object: _object,
            function: _function,
            place: _place,
            is_thread: _is_thread,
            items: _items,
            resets: _resets,
        } = self;
    }
}

/// A function of an object that a process runs.
#[derive(Clone, Copy, PartialEq, Eq, Hash)]
pub struct Runs {
    pub object: u32,
    pub function: u32,
}

/// Processes in the order in which they are declared.
pub struct Records {
    list: Vec<Record>,
    runs: IndexMap<Runs, bool>,
}

impl Drop for Records {
    fn drop(self) {
        let Records {
            list: _list,
            runs: _runs,
        } = self;
    }
}

impl Model for Records {
    ghost use Rattle.std.specs.Prelude.{List};
    ghost use Rattle.scc_elab_grown.specs.declared.records.Record.{Record};
    ghost use Rattle.scc_elab_grown.specs.Records.{KeepsRuns};

    ghost Value = { List Record };

    ghost view = { λ t. t.list.items };

    ghost invariant = { λ t. KeepsRuns t.list.items t.runs.entries };
}

impl Records {
    /// None.
    pub fn new(alloc: Global) -> Records
        ensures { result ≡ [] }
    {
        Records {
            list: Vec::new(alloc),
            runs: IndexMap::new(alloc),
        }
    }

    /// The processes.
    pub fn as_slice(&self) -> &[Record]
        ensures { result.now ≡ self.now }
    {
        self.list.as_slice()
    }

    /// How many there are.
    pub fn len(&self) -> usize
        ensures { result ≡ length self.now }
    {
        self.list.len()
    }

    /// Whether a process runs a function of an object.
    #[tactic(auto, using(crate::proofs::Running::has_is))]
    pub fn has(&self, object: u32, function: u32) -> bool
        ensures { result ≡ list_any (runs_at object function) (map record_of self.now) }
    {
        self.runs.get(&Runs { object, function }).is_some()
    }

    /// One more process.
    pub fn add(&mut self, process: Record) -> Result<(), NoMemory>
        ensures { OnOk result (self.new ≡ self.old ++ process ∷ []) }
    {
        let runs = Runs {
            object: process.object,
            function: process.function,
        };
        push(&mut self.list, process)?;
        if let Err(failed) = self.runs.insert(runs, true) {
            let _process = self.list.pop();
            return Err(NoMemory::from(failed));
        }
        Ok(())
    }

    /// The process of that number gets more items.
    #[tactic(auto, using(crate::proofs::Running::kept_same))]
    pub fn sense(&mut self, number: u32, items: &[Item]) -> Result<(), NoMemory>
        ensures { OnOk result (map record_of self.new ≡ changed_at number (with_items (map item_of items.now)) (map record_of self.old)) }
    {
        sense_at(&mut self.list, number, items)
    }

    /// The process of that number gets a reset.
    #[tactic(auto, using(crate::proofs::Running::kept_same))]
    pub fn reset(&mut self, number: u32, reset: ResetItem) -> Result<(), NoMemory>
        ensures { OnOk result (map record_of self.new ≡ changed_at number (with_reset (reset_of reset)) (map record_of self.old)) }
    {
        reset_at(&mut self.list, number, reset)
    }
}

// What processes run stays.
fn sense_at(list: &mut Vec<Record>, number: u32, items: &[Item]) -> Result<(), NoMemory>
    ensures runs { RunSame list.old.items list.new.items }
    ensures given { OnOk result (map record_of list.new.items ≡ changed_at number (with_items (map item_of items.now)) (map record_of list.old.items)) }
{
    match list.get_mut(number as usize) {
        Some(process) => put_all(&mut process.items, items),
        None => Err(lost()),
    }
}

fn reset_at(list: &mut Vec<Record>, number: u32, reset: ResetItem) -> Result<(), NoMemory>
    ensures runs { RunSame list.old.items list.new.items }
    ensures given { OnOk result (map record_of list.new.items ≡ changed_at number (with_reset (reset_of reset)) (map record_of list.old.items)) }
{
    match list.get_mut(number as usize) {
        Some(process) => push(&mut process.resets, reset),
        None => Err(lost()),
    }
}

fn put_all(list: &mut Vec<Item>, items: &[Item]) -> Result<(), NoMemory>
    ensures { OnOk result (list.new.items ≡ list.old.items ++ items.now) }
{
    for item in items {
        push(list, *item)?;
    }
    Ok(())
}
