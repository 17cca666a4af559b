ghost use Rattle.std.specs.Prelude.{◌≡◌, [], ◌∷◌, ◌++◌, length, OnOk, OnErr, slice_get, IfSome, None, nat_eq, take};
ghost use Rattle.std.specs.Option.{option_copied};

use crate::NoMemory;
use std::alloc::Global;
use std::marker::Model;

/// A list that grows at its end. Contracts see its elements alone, so a tree whose nodes hold lists is plain data.
pub struct List<T> {
    items: Vec<T>,
}

// Elements go one by one from the end, so that the last of a long list is let go with no more stack than the first.
impl<T: Drop> Drop for List<T> {
    fn drop(self) {
        let List { mut items } = self;
        while let Some(_last) = items.pop() {}
        items.destroy_empty();
    }
}

impl<T> Model for List<T> {
    ghost use Rattle.std.specs.Prelude.{List};
    ghost use Rattle.std.specs.Coded.{coded_list};

    ghost Value = { List T };

    ghost coded = { coded_list T.code };

    ghost view = { λ l. l.items.items };
}

impl<T> List<T> {
    /// The empty list. It takes no memory; the list keeps the allocator for its elements.
    pub fn new(alloc: Global) -> List<T>
        ensures empty { result ≡ [] }
    {
        List {
            items: Vec::new(alloc),
        }
    }

    /// How many elements there are.
    pub fn len(&self) -> usize
        ensures length { result ≡ length self.now }
    {
        self.items.len()
    }

    /// The element at `i`, counted from 0; None exactly where `i` is not below the length.
    pub fn get(&self, i: usize) -> Option<&T>
        ensures element { option_copied result ≡ slice_get self.now i }
    {
        self.items.get(i)
    }

    /// Whether there is no element.
    pub fn is_empty(&self) -> bool
        ensures empty { result ≡ nat_eq (length self.now) 0 }
    {
        self.items.len() == 0
    }

    /// The elements.
    pub fn as_slice(&self) -> &[T]
        ensures elements { result.now ≡ self.now }
    {
        self.items.as_slice()
    }

    /// Takes the last element off; None where there is none.
    pub fn pop(&mut self) -> Option<T>
        ensures last { IfSome result (λ x. self.old ≡ self.new ++ x ∷ []) }
        ensures none { result ≡ None → (self.old ≡ []) × (self.new ≡ []) }
    {
        self.items.pop()
    }

    /// The elements, taken out of the list.
    pub fn into_vec(self) -> Vec<T>
        ensures elements { result.items ≡ self }
    {
        let List { items } = self;
        items
    }

    /// The elements as a list.
    pub fn from_vec(items: Vec<T>) -> List<T>
        ensures elements { result ≡ items.items }
    {
        List { items }
    }
}

impl<T: Drop> List<T> {
    /// Appends an element. Where memory runs out, the list is as it was, and the element is gone.
    pub fn push(&mut self, x: T) -> Result<(), NoMemory>
        ensures ok { OnOk result (self.new ≡ self.old ++ x ∷ []) }
        ensures err { OnErr result (self.new ≡ self.old) }
    {
        self.items.push(x)?;
        Ok(())
    }

    /// Appends the elements of another list. Where memory runs out, the list is as it was, and the others are gone.
    pub fn append(&mut self, other: List<T>) -> Result<(), NoMemory>
        ensures ok { OnOk result (self.new ≡ self.old ++ other) }
        ensures err { OnErr result (self.new ≡ self.old) }
    {
        let List { mut items } = other;
        self.items.append(&mut items)?;
        Ok(())
    }

    /// Keeps the first `n` elements, all where there are no more.
    pub fn truncate(&mut self, n: usize)
        ensures first { self.new ≡ take n self.old }
    {
        self.items.truncate(n);
    }
}
