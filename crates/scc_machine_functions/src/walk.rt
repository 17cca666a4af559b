//! Values and locations, by a stack of tasks: a chain of operators or arrows may be as long as a text.
use crate::coder::Coder;
use crate::way::{Located, Valued, Way};
use scc_base::{NoMemory, lost, push};
use scc_plain_tree::{PlainExpr, PlainLeft};

/// What is still to be done.
#[derive(Clone, Copy)]
pub enum Task<'t> {
    Value(&'t PlainExpr),
    /// The expression's parts have values.
    Apply(&'t PlainExpr),
    /// The rest of a concatenation.
    Items(&'t [PlainExpr]),
    Locate(&'t PlainLeft, Way),
    /// The pointer is located that is to be followed.
    Behind(&'t PlainLeft, Way),
    /// The parts from the given one on.
    Parts(&'t PlainLeft, usize, Way),
    /// The index of the given part has a value.
    Element(&'t PlainLeft, usize, Way),
}

impl<'t> Coder<'t> {
    /// Puts a task in front of the others.
    pub fn then(&mut self, task: Task<'t>) -> Result<(), NoMemory> {
        push(&mut self.tasks, task)
    }

    fn walk(&mut self, first: Task<'t>) -> Result<(), NoMemory> {
        self.then(first)?;
        for _ in 0..usize::MAX {
            let Some(task) = self.tasks.pop() else {
                return Ok(());
            };
            self.turn(task)?;
        }
        Err(lost())
    }

    fn turn(&mut self, task: Task<'t>) -> Result<(), NoMemory> {
        match task {
            Task::Value(e) => self.begin_value(e),
            Task::Apply(e) => self.apply(e),
            Task::Items(items) => self.next_item(items),
            Task::Locate(left, way) => self.locate(left, way),
            Task::Behind(left, way) => self.behind(left, way),
            Task::Parts(left, from, way) => self.parts(left, from, way),
            Task::Element(left, at, way) => self.element(left, at, way),
        }
    }

    fn next_item(&mut self, items: &'t [PlainExpr]) -> Result<(), NoMemory> {
        match items {
            [] => Ok(()),
            [first, rest @ ..] => {
                self.then(Task::Items(rest))?;
                self.then(Task::Value(first))
            }
        }
    }

    /// Codes an expression, and keeps its value.
    pub fn value(&mut self, e: &'t PlainExpr) -> Result<(), NoMemory> {
        self.walk(Task::Value(e))
    }

    /// Codes an expression; its value.
    pub fn value_of(&mut self, e: &'t PlainExpr) -> Result<Valued, NoMemory> {
        self.value(e)?;
        self.take()
    }

    /// Codes a left side, and keeps its location.
    pub fn location(&mut self, left: &'t PlainLeft, way: Way) -> Result<(), NoMemory> {
        self.walk(Task::Locate(left, way))
    }

    /// The location that was kept last, which stays kept.
    pub fn last_located(&self) -> Result<Located<'t>, NoMemory> {
        match self.located.last() {
            Some(located) => Ok(*located),
            None => Err(lost()),
        }
    }
}
