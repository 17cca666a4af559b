//! Rows of numbers.
ghost use Rattle.std.specs.Prelude.{◌≡◌, ◌<◌, ◌+◌, ◌^◌, ◌++◌, ◌∷◌, [], length, IfOk, OnOk};
ghost use Rattle.scc_svtree_order.specs.Fed as fed;

use scc_base::{List, NoMemory};
use std::alloc::Global;
use std::marker::Model;

/// A list of lists of numbers.
#[derive(Drop)]
pub struct Rows {
    alloc: Global,
    rows: Vec<List<usize>>,
}

impl Model for Rows {
    ghost use Rattle.std.specs.Prelude.{List, ℕ};

    ghost Value = { List (List ℕ) };

    ghost view = { λ r. r.rows.items };
}

/// Whether a list has a number.
pub fn has(list: &[usize], x: usize) -> bool
    ensures { result ≡ fed.has list.now x }
{
    list.iter().any(|y| *y == x)
}

impl Rows {
    pub fn new(alloc: Global) -> Rows
        ensures empty { result ≡ [] }
    {
        Rows {
            alloc,
            rows: Vec::new(alloc),
        }
    }

    pub fn len(&self) -> usize
        ensures length { result ≡ length self.now }
    {
        self.rows.len()
    }

    /// The row at `i`, which is empty behind the last.
    pub fn row(&self, i: usize) -> &[usize]
        ensures row { result.now ≡ fed.row_at self.now i }
    {
        match self.rows.get(i) {
            Some(row) => row.as_slice(),
            None => &[],
        }
    }

    /// A further row.
    pub fn push(&mut self, row: List<usize>) -> Result<(), NoMemory>
        ensures pushed { OnOk result (self.new ≡ self.old ++ row ∷ []) }
    {
        self.rows.push(row)?;
        Ok(())
    }

    // Adds empty rows until there are n.
    #[tactic(auto, using(crate::proofs::Grown::grown_more, crate::proofs::Grown::grown_full))]
    fn grow(&mut self, n: usize) -> Result<(), NoMemory>
        ensures grown { OnOk result (self.new ≡ fed.grown n self.old) }
    {
        while self.len() < n {
            let row = List::new(self.alloc);
            self.push(row)?;
        }
        Ok(())
    }

    // Adds a number to a row.
    fn put(&mut self, i: usize, x: usize) -> Result<(), NoMemory>
        requires { i < length self.old }
        ensures put { OnOk result (self.new ≡ fed.put i x self.old) }
    {
        self.rows[i].push(x)
    }

    /// Adds a number to a row, if it is new there.
    #[tactic(auto, using(crate::proofs::Grown::grown_length))]
    pub fn note(&mut self, i: u32, x: usize) -> Result<(), NoMemory>
        ensures noted { OnOk result (self.new ≡ fed.noted i x self.old) }
    {
        let i = i as usize;
        if has(self.row(i), x) {
            return Ok(());
        }
        self.grow(i + 1)?;
        self.put(i, x)
    }
}
