//! How often locals are assigned as a whole.
ghost use Rattle.std.specs.Prelude.{◌≡◌, ◌+◌, ℕ, OnOk, ◌∷◌, [], map, nat_eq};
ghost use Rattle.scc_core_spec.specs.Counted as spec;
ghost use Rattle.scc_core_view.specs.Codes.{code_of};
ghost use Rattle.scc_core_view.specs.Programs.{cell_of};
ghost use Rattle.scc_unroll.specs.Used.{used};

use crate::own::own_at;
use indexmap::IndexMap;
use scc_base::{List, NoMemory, lost};
use scc_core::{Cell, CoreNode, CoreStmt};
use std::alloc::Global;

/// How often each local is assigned, by its number; what a pointer leads to counts as three times more, which no counter is.
pub struct Uses {
    counts: IndexMap<u32, u64>,
}

// One call at each exit of what owns it.
impl Drop for Uses {
    fn drop(self) {
        let Uses { counts: _counts } = self;
    }
}

impl Uses {
    /// Nothing is assigned yet.
    pub fn new(alloc: Global) -> Uses
        ensures { (o : ℕ) → used result o ≡ 0 }
    {
        Uses {
            counts: IndexMap::new(alloc),
        }
    }

    /// How often a local is assigned.
    pub fn of(&self, own: u32) -> u64
        ensures { result ≡ used self.now own }
    {
        match self.counts.get(&own) {
            Some(count) => *count,
            None => 0,
        }
    }

    fn add(&mut self, own: u32, times: u64) -> Result<(), NoMemory>
        ensures { OnOk result ((o : ℕ) → used self.new o ≡ used self.old o + spec.times times (nat_eq o own)) }
    {
        let Some(count) = self.of(own).checked_add(times) else {
            return Err(lost());
        };
        let _old = self.counts.insert(own, count)?;
        Ok(())
    }
}

fn add_own(own: Option<u32>, times: u64, uses: &mut Uses) -> Result<(), NoMemory>
    ensures { OnOk result ((o : ℕ) → used uses.new o ≡ used uses.old o + spec.times times (spec.is_it o own)) }
{
    match own {
        Some(own) => uses.add(own, times),
        None => Ok(()),
    }
}

/// Adds what statements assign.
#[cycle(noted)]
pub fn note_all(body: &[CoreStmt], cells: &List<Cell>, uses: &mut Uses) -> Result<(), NoMemory>
    ensures { OnOk result ((o : ℕ) → used uses.new o ≡ used uses.old o + spec.uses (map cell_of cells.now) o (code_of body.now)) }
{
    for s in body {
        note(s, cells, uses)?;
    }
    Ok(())
}

#[cycle(noted)]
fn note(s: &CoreStmt, cells: &List<Cell>, uses: &mut Uses) -> Result<(), NoMemory>
    ensures { OnOk result ((o : ℕ) → used uses.new o ≡ used uses.old o + spec.uses (map cell_of cells.now) o (code_of (s.now ∷ []))) }
{
    match &s.node {
        CoreNode::Assign { left, .. } => add_own(own_at(cells, left), 1, uses),
        CoreNode::Alias { target, .. } => add_own(own_at(cells, target), 3, uses),
        CoreNode::If { yes, no, .. } => {
            note_all(yes.as_slice(), cells, uses)?;
            note_all(no.as_slice(), cells, uses)
        }
        CoreNode::Block(body) | CoreNode::Loop { body, .. } => {
            note_all(body.as_slice(), cells, uses)
        }
        CoreNode::Exit(_) | CoreNode::Wait { .. } => Ok(()),
    }
}
