//! A walk over statements in text order without recursion: a `switch` nests as many blocks as it has labels.
use scc_base::{NoMemory, push};
use scc_plain_tree::{Base, PlainBase, PlainFunction, PlainLeft, PlainNode, PlainStmt};
use std::alloc::Global;

/// What of a list is still to be met.
#[derive(Drop)]
pub struct Walk<'a> {
    lists: Vec<&'a [PlainStmt]>,
}

impl<'a> Walk<'a> {
    /// All statements of a list, at every depth.
    pub fn new(alloc: Global, list: &'a [PlainStmt]) -> Result<Walk<'a>, NoMemory> {
        let mut lists = Vec::new(alloc);
        push(&mut lists, list)?;
        Ok(Walk { lists })
    }

    /// The next one; None at the end.
    pub fn next(&mut self) -> Result<Option<&'a PlainStmt>, NoMemory> {
        for _ in 0..usize::MAX {
            let Some(list) = self.lists.pop() else {
                return Ok(None);
            };
            if let Some((first, rest)) = list.split_first() {
                push(&mut self.lists, rest)?;
                self.open(first)?;
                return Ok(Some(first));
            }
        }
        Ok(None)
    }

    // What stands in a statement comes behind it.
    fn open(&mut self, s: &'a PlainStmt) -> Result<(), NoMemory> {
        match &s.node {
            PlainNode::If { yes, no, .. } => {
                push(&mut self.lists, no.as_slice())?;
                push(&mut self.lists, yes.as_slice())
            }
            PlainNode::Block(body) | PlainNode::Loop { body, .. } => {
                push(&mut self.lists, body.as_slice())
            }
            _ => Ok(()),
        }
    }
}

/// A location and the pointers by which it is reached, from the outermost on.
pub fn pointers(alloc: Global, left: &PlainLeft) -> Result<Vec<&PlainLeft>, NoMemory> {
    let mut found = Vec::new(alloc);
    let mut here = left;
    push(&mut found, here)?;
    while let PlainBase::Follow(inner) = &here.base {
        here = inner.get();
        push(&mut found, here)?;
    }
    Ok(found)
}

/// What stands where a location of a function begins, if it begins with no pointer.
pub fn first_base(function: &PlainFunction, left: &PlainLeft) -> Option<Base> {
    match left.base {
        PlainBase::Local(local) => function.locals.get(local as usize).map(|l| l.shape.base),
        PlainBase::This => function.class.map(Base::Class),
        PlainBase::Answer(_) | PlainBase::Follow(_) => None,
    }
}
