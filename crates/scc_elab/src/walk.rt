//! Values and locations, worked out by a stack of tasks: a chain of operators or arrows may be as long as a text.
use crate::locate::{behind, element, locate, parts};
use crate::worth::{apply, enter};
use scc_base::{NoMemory, Stop, lost, push};
use scc_bits::Value;
use scc_elab_state::frames::Frame;
use scc_elab_state::grown::Grown;
use scc_elab_state::spots::SpotId;
use scc_plain_tree::{Base, Plain, PlainExpr, PlainLeft};
use std::alloc::Global;

/// How a location is taken.
#[derive(Clone, Copy)]
pub struct Way {
    /// What lies behind a null pointer is null, as for a target; else following null is refused.
    pub soft: bool,
    /// A reference at the end isn't followed, since it is to be given something.
    pub raw: bool,
}

/// A location that is read or written.
pub const FIRM: Way = Way {
    soft: false,
    raw: false,
};

/// A pointer or reference that is given something.
pub const RAW: Way = Way {
    soft: false,
    raw: true,
};

/// A target.
pub const SOFT: Way = Way {
    soft: true,
    raw: false,
};

/// A location with what its declaration says of it.
#[derive(Clone, Copy)]
pub struct Located {
    /// None behind null.
    pub at: Option<SpotId>,
    pub base: Base,
    /// Whether it is declared as a vector.
    pub vector: bool,
}

/// What is still to be done, the next task last.
#[derive(Clone, Copy)]
pub enum Task<'t> {
    Value(&'t PlainExpr),
    /// The expression's parts have values.
    Apply(&'t PlainExpr),
    /// The rest of a concatenation.
    Items(&'t [PlainExpr]),
    Locate(&'t PlainLeft, Way),
    /// The pointer is located that is to be followed.
    Behind(&'t PlainLeft, Way),
    /// The parts from the given one on.
    Parts(&'t PlainLeft, usize, Way),
    /// The index of the given part has a value.
    Element(&'t PlainLeft, usize, Way),
}

/// Tasks, values and locations that are still wanted.
pub struct Walk<'t> {
    tasks: Vec<Task<'t>>,
    values: Vec<Value>,
    located: Vec<Located>,
}

// One call at each exit of what owns it.
impl Drop for Walk<'_> {
    fn drop(self) {
        let Walk {
            tasks: _tasks,
            values: _values,
            located: _located,
        } = self;
    }
}

impl<'t> Walk<'t> {
    fn new(alloc: Global, first: Task<'t>) -> Result<Walk<'t>, NoMemory> {
        let mut tasks = Vec::new(alloc);
        push(&mut tasks, first)?;
        Ok(Walk {
            tasks,
            values: Vec::new(alloc),
            located: Vec::new(alloc),
        })
    }

    /// Puts a task in front of the others.
    pub fn then(&mut self, task: Task<'t>) -> Result<(), NoMemory> {
        push(&mut self.tasks, task)
    }

    /// Keeps a value for the task that wants it.
    pub fn give(&mut self, value: Value) -> Result<(), NoMemory> {
        push(&mut self.values, value)
    }

    /// The last value.
    pub fn take(&mut self) -> Result<Value, NoMemory> {
        match self.values.pop() {
            Some(value) => Ok(value),
            None => Err(lost()),
        }
    }

    /// Keeps a location for the task that wants it.
    pub fn give_located(&mut self, located: Located) -> Result<(), NoMemory> {
        push(&mut self.located, located)
    }

    /// The last location.
    pub fn take_located(&mut self) -> Result<Located, NoMemory> {
        match self.located.pop() {
            Some(located) => Ok(located),
            None => Err(lost()),
        }
    }

    // The walk of all tasks, in the constructor of a frame.
    fn run(&mut self, p: &'t Plain, f: Frame, g: &mut Grown) -> Result<(), Stop> {
        for _ in 0..usize::MAX {
            let Some(task) = self.tasks.pop() else {
                return Ok(());
            };
            turn(task, p, f, self, g)?;
        }
        Err(Stop::from(lost()))
    }
}

fn turn<'t>(
    task: Task<'t>,
    p: &'t Plain,
    f: Frame,
    w: &mut Walk<'t>,
    g: &mut Grown,
) -> Result<(), Stop> {
    match task {
        Task::Value(e) => enter(e, w),
        Task::Apply(e) => Ok(apply(e, p, w, g)?),
        Task::Items(items) => Ok(next_item(items, w)?),
        Task::Locate(left, way) => locate(left, way, p, f, w, g),
        Task::Behind(left, way) => behind(left, way, w, g),
        Task::Parts(left, from, way) => parts(left, from, way, p, w, g),
        Task::Element(left, at, way) => Ok(element(left, at, way, p, w, g)?),
    }
}

fn next_item<'t>(items: &'t [PlainExpr], w: &mut Walk<'t>) -> Result<(), NoMemory> {
    match items {
        [] => Ok(()),
        [first, rest @ ..] => {
            w.then(Task::Items(rest))?;
            w.then(Task::Value(first))
        }
    }
}

/// The value of an expression in the constructor that runs. Refused as E404 where it reads a port or signal, and E405.
pub fn value_of(e: &PlainExpr, p: &Plain, g: &mut Grown) -> Result<Value, Stop> {
    let f = g.frame()?;
    let mut w = Walk::new(g.alloc, Task::Value(e))?;
    w.run(p, f, g)?;
    Ok(w.take()?)
}

/// The location of a left side in the constructor that runs. Refused as `value_of`.
pub fn location_of(left: &PlainLeft, way: Way, p: &Plain, g: &mut Grown) -> Result<Located, Stop> {
    let f = g.frame()?;
    let mut w = Walk::new(g.alloc, Task::Locate(left, way))?;
    w.run(p, f, g)?;
    Ok(w.take_located()?)
}
