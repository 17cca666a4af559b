//! What construction has still to do. Constructors nest as deep as paths, blocks as deep as a `switch` has labels.
use crate::spots::SpotId;
use scc_base::{NoMemory, Place, push};
use scc_plain_tree::{Base, PlainArg, PlainMember, PlainStmt};
use std::alloc::Global;

/// What is still to be done.
#[derive(Clone, Copy)]
pub enum Work<'t> {
    Statements(&'t [PlainStmt]),
    /// A loop's own test.
    Test(&'t PlainStmt),
    /// Statements but for those that make a member.
    Others(&'t [PlainStmt]),
    /// A block's end.
    End,
    /// A loop begins a turn; its body, and its place.
    Again(&'t [PlainStmt], Place),
    /// The loop's own test let the turn in.
    Turn(&'t [PlainStmt], Place),
    /// The members of a class from one on, with the groups of initialisers from one on.
    Members {
        class: u32,
        next: u32,
        group: usize,
        end: usize,
    },
    /// Groups of initialisers of the constructor that runs; others where what makes the member is left out.
    Groups {
        first: usize,
        end: usize,
        others: bool,
    },
    /// A member that is the thing itself, made with these arguments.
    Direct(&'t PlainMember, SpotId, &'t [PlainArg]),
    /// The elements of an array from one on.
    Elements {
        of: SpotId,
        sizes: &'t [u32],
        next: u32,
        each: Each<'t>,
    },
    /// The elements of a vector from one on.
    Vector {
        of: SpotId,
        next: u32,
        size: u32,
        base: Base,
        place: Place,
    },
    /// A pointer is given the object that was made for it.
    Lead {
        pointer: u32,
        to: SpotId,
    },
    /// A constructor ends.
    Leave,
}

/// What each element of an array is.
#[derive(Clone, Copy)]
pub struct Each<'t> {
    pub form: Form,
    pub base: Base,
    pub place: Place,
    pub args: &'t [PlainArg],
}

#[derive(Clone, Copy)]
pub enum Form {
    /// A pointer or reference.
    Pointer,
    /// A vector of so many elements.
    Vector(u32),
    One,
}

/// What is still to be done, the next last.
#[derive(Drop)]
pub struct Stack<'t> {
    works: Vec<Work<'t>>,
}

impl<'t> Stack<'t> {
    /// Nothing.
    pub fn new(alloc: Global) -> Stack<'t> {
        Stack {
            works: Vec::new(alloc),
        }
    }

    /// Puts something in front of the rest.
    pub fn then(&mut self, work: Work<'t>) -> Result<(), NoMemory> {
        push(&mut self.works, work)
    }

    /// What is next.
    pub fn next(&mut self) -> Option<Work<'t>> {
        self.works.pop()
    }
}
