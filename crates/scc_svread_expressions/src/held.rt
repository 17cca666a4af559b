//! What is held while a text is read on. What a drop moves, and a value that is built or appended, has room in the frame of a
//! call, which `#[inline(never)]` keeps apart: so those of a recursion stay small, and 8,192 levels fit a stack of 8 MiB.
ghost use Rattle.std.specs.Prelude.{◌≡◌, ◌∷◌, ◌++◌, [], IfOk, OnOk};

use scc_base::{Boxed, List, NoMemory};
use std::alloc::Global;
use std::marker::Model;

/// A value on the heap.
pub struct Node<T> {
    of: Boxed<T>,
}

impl<T> Model for Node<T> {
    ghost Value = { T };

    ghost coded = { T.code };

    ghost view = { λ n. n.of };
}

impl<T: Drop> Drop for Node<T> {
    #[inline(never)]
    fn drop(self) {
        let Node { of: _of } = self;
    }
}

impl<T> Node<T> {
    /// The value, still on the heap.
    pub fn into_boxed(self) -> Boxed<T>
        ensures { result ≡ self }
    {
        let Node { of } = self;
        of
    }

    /// The value, taken off the heap.
    pub fn into_inner(self) -> T
        ensures { result ≡ self }
    {
        self.into_boxed().into_inner()
    }
}

impl<T: Drop> Node<T> {
    /// Puts a value on the heap.
    pub fn new(alloc: Global, value: T) -> Result<Node<T>, NoMemory>
        ensures { IfOk result (λ n. n ≡ value) }
    {
        let of = Boxed::new(alloc, value)?;
        Ok(Node { of })
    }
}

/// A list that grows by nodes.
pub struct Nodes<T> {
    all: List<T>,
}

impl<T> Model for Nodes<T> {
    ghost use Rattle.std.specs.Prelude.{List};
    ghost use Rattle.std.specs.Coded.{coded_list};

    ghost Value = { List T };

    ghost coded = { coded_list T.code };

    ghost view = { λ n. n.all };
}

impl<T: Drop> Drop for Nodes<T> {
    #[inline(never)]
    fn drop(self) {
        let Nodes { all: _all } = self;
    }
}

impl<T> Nodes<T> {
    /// The empty list.
    pub fn new(alloc: Global) -> Nodes<T>
        ensures { result ≡ [] }
    {
        Nodes {
            all: List::new(alloc),
        }
    }

    /// The list.
    pub fn into_list(self) -> List<T>
        ensures { result ≡ self }
    {
        let Nodes { all } = self;
        all
    }
}

impl<T: Drop> Nodes<T> {
    /// Appends a node's value.
    #[inline(never)]
    pub fn push(&mut self, next: Node<T>) -> Result<(), NoMemory>
        ensures ok { OnOk result (self.new ≡ self.old ++ next ∷ []) }
    {
        self.all.push(next.into_inner())
    }

    /// A list of one node's value.
    #[inline(never)]
    pub fn alone(alloc: Global, first: Node<T>) -> Result<Nodes<T>, NoMemory>
        ensures { IfOk result (λ l. l ≡ first ∷ []) }
    {
        let mut all = List::new(alloc);
        all.push(first.into_inner())?;
        Ok(Nodes { all })
    }
}
