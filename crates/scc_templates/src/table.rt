//! The table of instances.
ghost use Rattle.std.specs.Prelude.{◌≡◌, IfErr, option_map, slice_get};
ghost use Rattle.scc_templates_scopes.specs.Refusals.{MayStop};
ghost use Rattle.scc_templates.specs.Sessions.{arg_of};

use indexmap::IndexMap;
use scc_base::{Code, NoMemory, Place, Stop, lost, push};
use scc_templates_scopes::refuse::{number, refuse};
use scc_templates_scopes::ty::{Arg, Args, ClassId, InstanceId};
use std::alloc::Global;

/// The most instances (this project's profile).
pub(crate) const MOST: usize = 4096;

// A list of arguments: a shorter one, by its number, and a last argument.
#[derive(Clone, Copy, PartialEq, Eq, Hash)]
struct Longer {
    front: u32,
    last: Arg,
}

/// A class with a list of arguments, by its number; 0 is the empty list.
#[derive(Clone, Copy, PartialEq, Eq, Hash)]
pub(crate) struct Made {
    pub item: u32,
    pub list: u32,
}

#[derive(Drop)]
struct Row {
    made: Made,
    args: Args,
}

/// The instances that are needed so far, in the order in which they were first needed.
#[derive(Drop)]
pub struct Instances {
    pub(crate) alloc: Global,
    lists: IndexMap<Longer, u32>,
    numbers: IndexMap<Made, u32>,
    rows: Vec<Row>,
}

impl Instances {
    /// No instances.
    pub fn new(alloc: Global) -> Instances {
        Instances {
            alloc,
            lists: IndexMap::new(alloc),
            numbers: IndexMap::new(alloc),
            rows: Vec::new(alloc),
        }
    }

    pub fn len(&self) -> usize {
        self.rows.len()
    }

    /// The class and the arguments of an instance, None exactly where no instance has that number.
    pub fn args_of(&self, i: InstanceId) -> Option<(ClassId, &Args)> {
        let row = self.rows.get(i.0 as usize)?;
        Some((ClassId(row.made.item), &row.args))
    }

    /// The argument of that number of an instance.
    pub(crate) fn argument(&self, i: InstanceId, at: usize) -> Option<Arg>
        ensures { result ≡ arg_of self.now i.0 at }
    {
        let row = self.rows.get(i.0 as usize)?;
        row.args.get(at).copied()
    }

    /// An instance's class and arguments by number.
    pub(crate) fn made(&self, i: InstanceId) -> Option<Made>
        ensures { result ≡ option_map (λ r. r.made) (slice_get self.now.rows.items i.0) }
    {
        let row = self.rows.get(i.0 as usize)?;
        Some(row.made)
    }

    /// The number of a list with a further argument.
    pub(crate) fn longer(&mut self, front: u32, last: Arg) -> Result<u32, NoMemory> {
        let key = Longer { front, last };
        if let Some(n) = self.lists.get(&key) {
            return Ok(*n);
        }
        let n = number(self.lists.len())?;
        let n = n.checked_add(1).ok_or(lost())?;
        self.lists.insert(key, n)?;
        Ok(n)
    }

    pub(crate) fn find(&self, made: Made) -> Option<InstanceId> {
        let n = self.numbers.get(&made)?;
        Some(InstanceId(*n))
    }

    /// Puts an instance into the table.
    pub(crate) fn add(&mut self, made: Made, args: Args, at: Place) -> Result<InstanceId, Stop>
        ensures stop { IfErr result MayStop }
    {
        if self.rows.len() >= MOST {
            return refuse(Code::TooManyInstances, at); // E314
        }
        let n = number(self.rows.len())?;
        self.append(made, args, n)?;
        Ok(InstanceId(n))
    }

    fn append(&mut self, made: Made, args: Args, n: u32) -> Result<(), NoMemory> {
        self.numbers.insert(made, n)?;
        if let Err(e) = push(&mut self.rows, Row { made, args }) {
            self.numbers.pop();
            return Err(e);
        }
        Ok(())
    }
}
