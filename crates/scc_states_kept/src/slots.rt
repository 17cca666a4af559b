//! Sets of a thread's cells, one of their reads or whole writes after the other.
ghost use Rattle.std.specs.Prelude.{◌≡◌, ◌||◌, ◌&&◌, ℕ, Bool, not, nat_eq, IfOk, OnOk};
ghost use Rattle.std.specs.List.{list_any};
ghost use Rattle.scc_core_spec.specs.Static.{Cells};
ghost use Rattle.scc_core_spec.specs.Uses.{among, loads, whole_writes};
ghost use Rattle.scc_core_view.specs.Terms.{taken_of, term_of};
ghost use Rattle.scc_states_kept.specs.Filled.{filled_in};
ghost use Rattle.scc_states_kept.specs.Needs.{reads_cell};
ghost use Rattle.scc_states_kept.specs.Rows.{cells_in};
ghost use Rattle.scc_states_kept.specs.Slots.{Keeps, TellsPut, TellsUses, is_at, put_reads, slot_in};

use crate::fills::filled;
use crate::own::Own;
use crate::rows::cells_named;
use scc_base::{NoMemory, lost};
use scc_core::{CoreExpr, CoreLeft};
use scc_core_flow::CellSet;
use scc_rules_walks::{Load, left_loads, test_loads, value_loads};
use std::alloc::Global;

/// The slot of a cell, if it is one of the thread's own.
#[tactic(auto, unfolding(crate::specs::Slots::slot_in))]
pub fn slot_of(cell: u32, own: &Own<'_>) -> Result<Option<u32>, NoMemory>
    ensures { IfOk result (λ o. o ≡ slot_in own.now cell) }
{
    match own.cells.get_index_of(&cell) {
        Some(at) => match u32::try_from(at) {
            Ok(slot) => Ok(Some(slot)),
            Err(_) => Err(lost()),
        },
        None => Ok(None),
    }
}

fn add_cell(cell: u32, own: &Own<'_>, live: &mut CellSet) -> Result<(), NoMemory>
    ensures { (only f : ℕ → Bool) → Keeps only own.now live.old f → OnOk result (Keeps only own.now live.new (λ x. nat_eq x cell || f x)) }
{
    match slot_of(cell, own)? {
        Some(slot) => live.add(slot),
        None => Ok(()),
    }
}

fn add_cells(cells: &[u32], own: &Own<'_>, live: &mut CellSet) -> Result<(), NoMemory>
    ensures { (only f : ℕ → Bool) → Keeps only own.now live.old f → OnOk result (Keeps only own.now live.new (λ x. among x cells.now || f x)) }
{
    for cell in cells {
        add_cell(*cell, own, live)?;
    }
    Ok(())
}

fn add_read(
    alloc: Global,
    left: &CoreLeft,
    own: &Own<'_>,
    live: &mut CellSet,
) -> Result<(), NoMemory>
    ensures { (only f : ℕ → Bool) → Keeps only own.now live.old f → OnOk result (Keeps only own.now live.new (λ x. among x (cells_in own.now.known left.now) || f x)) }
{
    let cells = cells_named(alloc, own.known, left)?;
    add_cells(cells.as_slice(), own, live)
}

// Puts in the cells that some loads may read.
fn add_reads(
    alloc: Global,
    loads: &[Load<'_>],
    own: &Own<'_>,
    live: &mut CellSet,
) -> Result<(), NoMemory>
    ensures { (only f : ℕ → Bool) → Keeps only own.now live.old f →
        OnOk result (Keeps only own.now live.new (λ x. list_any (λ l. among x (cells_in own.now.known l.left.now)) loads.now || f x)) }
{
    for load in loads {
        add_read(alloc, load.left, own, live)?;
    }
    Ok(())
}

// Takes out the cell that a whole write fills.
fn kill(alloc: Global, left: &CoreLeft, own: &Own<'_>, live: &mut CellSet) -> Result<(), NoMemory>
    ensures { (only f : ℕ → Bool) → Keeps only own.now live.old f →
        OnOk result (Keeps only own.now live.new (λ x. not (is_at x (filled_in own.now.known left.now)) && f x)) }
{
    match filled(alloc, own.known, left)? {
        Some(cell) => remove_cell(cell, own, live),
        None => Ok(()),
    }
}

fn remove_cell(cell: u32, own: &Own<'_>, live: &mut CellSet) -> Result<(), NoMemory>
    ensures { (only f : ℕ → Bool) → Keeps only own.now live.old f → OnOk result (Keeps only own.now live.new (λ x. not (nat_eq x cell) && f x)) }
{
    match slot_of(cell, own)? {
        Some(slot) => live.remove(slot),
        None => Ok(()),
    }
}

/// From what is live behind an assignment to what is live before it.
pub fn before_put(
    alloc: Global,
    left: &CoreLeft,
    value: &CoreExpr,
    own: &Own<'_>,
    live: &mut CellSet,
) -> Result<(), NoMemory>
    ensures { (cs : Cells) (only f : ℕ → Bool) → TellsPut own.now.known cs only left.now value.now → Keeps only own.now live.old f →
        OnOk result (Keeps only own.now live.new (λ x. reads_cell cs x (put_reads left.now value.now) || (not (among x (whole_writes cs (taken_of left.now).left (taken_of left.now).pick)) && f x))) }
{
    kill(alloc, left, own, live)?;
    let mut loads = Vec::new(alloc);
    left_loads(alloc, left, &mut loads)?;
    value_loads(alloc, value, &mut loads)?;
    add_reads(alloc, loads.as_slice(), own, live)
}

/// The same of a test.
pub fn before_test(
    alloc: Global,
    test: &CoreExpr,
    own: &Own<'_>,
    live: &mut CellSet,
) -> Result<(), NoMemory>
    ensures { (cs : Cells) (only f : ℕ → Bool) → TellsUses own.now.known cs only (loads (term_of test.now)) → Keeps only own.now live.old f →
        OnOk result (Keeps only own.now live.new (λ x. reads_cell cs x (loads (term_of test.now)) || f x)) }
{
    let loads = test_loads(alloc, test)?;
    add_reads(alloc, loads.as_slice(), own, live)
}
