//! The cells of a thread that may live across a wait: its locals, and the variables that it writes.
ghost use Rattle.std.specs.Prelude.{◌≡◌, ◌||◌, ◌&&◌, ◌∷◌, [], ℕ, Bool, true, false, nat_eq, IfOk, OnOk};
ghost use Rattle.std.specs.List.{list_any};
ghost use Rattle.scc_core_spec.specs.Uses.{among};
ghost use Rattle.scc_core_view.specs.Codes.{code_of};
ghost use Rattle.scc_core_view.specs.Programs.{sort_of};
ghost use Rattle.scc_states_kept.specs.Noted.{IsOwn, Notes, Spot, TellsHere, TellsOne, owned_sort, owns_any, owns_at, owns_one, put_of, test_of};
ghost use Rattle.scc_states_kept.specs.Rows.{cells_in};

use crate::rows::cells_named;
use indexmap::IndexSet;
use scc_base::{NoMemory, lost};
use scc_core::{CellSort, CoreExpr, CoreLeft, CoreNode, CoreStmt, Known};
use scc_rules_walks::{Load, left_loads, test_loads, value_loads};
use std::alloc::Global;

/// Those cells, ascending; each has its place among them as its slot in sets.
#[derive(Drop)]
pub struct Own<'a> {
    pub known: Known<'a>,
    pub cells: IndexSet<u32>,
}

/// The cells of the process of that number that its live part names.
pub fn own_cells<'a>(
    alloc: Global,
    known: Known<'a>,
    process: u32,
    live: &[CoreStmt],
) -> Result<Own<'a>, NoMemory>
    ensures { TellsHere known.entry process (code_of live.now) → IfOk result (λ own. IsOwn known.entry process (code_of live.now) own) }
{
    let mut cells = IndexSet::new(alloc);
    note_all(live, alloc, known, process, &mut cells)?;
    cells.sort()?;
    Ok(Own { known, cells })
}

#[cycle(note)]
fn note_all(
    body: &[CoreStmt],
    alloc: Global,
    known: Known<'_>,
    process: u32,
    cells: &mut IndexSet<u32>,
) -> Result<(), NoMemory>
    ensures { (f : ℕ → Bool) → TellsHere known.entry process (code_of body.now) → Notes cells.old.keys f → OnOk result (Notes cells.new.keys (λ x. f x || owns_any known.entry process (code_of body.now) x)) }
{
    for s in body {
        note(s, alloc, known, process, cells)?;
    }
    Ok(())
}

#[cycle(note)]
fn note(
    s: &CoreStmt,
    alloc: Global,
    known: Known<'_>,
    process: u32,
    cells: &mut IndexSet<u32>,
) -> Result<(), NoMemory>
    ensures { (f : ℕ → Bool) → TellsHere known.entry process (code_of (s.now ∷ [])) → Notes cells.old.keys f → OnOk result (Notes cells.new.keys (λ x. f x || owns_any known.entry process (code_of (s.now ∷ [])) x)) }
{
    match &s.node {
        CoreNode::Assign { left, value } => note_put(alloc, left, value, known, process, cells),
        CoreNode::If { test, yes, no } => {
            note_test(alloc, test, known, process, cells)?;
            note_all(yes.as_slice(), alloc, known, process, cells)?;
            note_all(no.as_slice(), alloc, known, process, cells)
        }
        CoreNode::Block(body) => note_all(body.as_slice(), alloc, known, process, cells),
        CoreNode::Loop { body, .. } => note_all(body.as_slice(), alloc, known, process, cells),
        CoreNode::Exit(_) => Ok(()),
        CoreNode::Wait { .. } => Ok(()),
        CoreNode::Alias { .. } => Err(lost()),
    }
}

fn note_put(
    alloc: Global,
    left: &CoreLeft,
    value: &CoreExpr,
    known: Known<'_>,
    process: u32,
    cells: &mut IndexSet<u32>,
) -> Result<(), NoMemory>
    ensures { (p : Spot) (f : ℕ → Bool) → TellsOne known.entry process (put_of p left.now value.now) → Notes cells.old.keys f → OnOk result (Notes cells.new.keys (λ x. f x || owns_one known.entry process (put_of p left.now value.now) x)) }
{
    let mut loads = Vec::new(alloc);
    left_loads(alloc, left, &mut loads)?;
    value_loads(alloc, value, &mut loads)?;
    note_reads(alloc, loads.as_slice(), known, process, cells)?;
    let written = cells_named(alloc, known, left)?;
    note_cells(written.as_slice(), true, known, process, cells)
}

fn note_test(
    alloc: Global,
    test: &CoreExpr,
    known: Known<'_>,
    process: u32,
    cells: &mut IndexSet<u32>,
) -> Result<(), NoMemory>
    ensures { (p : Spot) (f : ℕ → Bool) → TellsOne known.entry process (test_of p test.now) → Notes cells.old.keys f → OnOk result (Notes cells.new.keys (λ x. f x || owns_one known.entry process (test_of p test.now) x)) }
{
    let loads = test_loads(alloc, test)?;
    note_reads(alloc, loads.as_slice(), known, process, cells)
}

fn note_reads(
    alloc: Global,
    loads: &[Load<'_>],
    known: Known<'_>,
    process: u32,
    cells: &mut IndexSet<u32>,
) -> Result<(), NoMemory>
    ensures { (f : ℕ → Bool) → Notes cells.old.keys f → OnOk result (Notes cells.new.keys (λ x. f x || (owns_at known.entry process false x && list_any (λ l. among x (cells_in known.entry l.left.now)) loads.now))) }
{
    for load in loads {
        note_read(alloc, load.left, known, process, cells)?;
    }
    Ok(())
}

fn note_read(
    alloc: Global,
    left: &CoreLeft,
    known: Known<'_>,
    process: u32,
    cells: &mut IndexSet<u32>,
) -> Result<(), NoMemory>
    ensures { (f : ℕ → Bool) → Notes cells.old.keys f → OnOk result (Notes cells.new.keys (λ x. f x || (owns_at known.entry process false x && among x (cells_in known.entry left.now)))) }
{
    let read = cells_named(alloc, known, left)?;
    note_cells(read.as_slice(), false, known, process, cells)
}

// Notes those of some cells that are the process's own where they are read, or written.
fn note_cells(
    list: &[u32],
    is_write: bool,
    known: Known<'_>,
    process: u32,
    cells: &mut IndexSet<u32>,
) -> Result<(), NoMemory>
    ensures { (f : ℕ → Bool) → Notes cells.old.keys f → OnOk result (Notes cells.new.keys (λ x. f x || (owns_at known.entry process is_write x && among x list.now))) }
{
    for cell in list {
        note_cell(*cell, is_write, known, process, cells)?;
    }
    Ok(())
}

fn note_cell(
    cell: u32,
    is_write: bool,
    known: Known<'_>,
    process: u32,
    cells: &mut IndexSet<u32>,
) -> Result<(), NoMemory>
    ensures { (f : ℕ → Bool) → Notes cells.old.keys f → OnOk result (Notes cells.new.keys (λ x. f x || (owns_at known.entry process is_write x && nat_eq x cell))) }
{
    if is_own(cell, is_write, known, process)? {
        insert_cell(cell, cells)
    } else {
        Ok(())
    }
}

fn insert_cell(cell: u32, cells: &mut IndexSet<u32>) -> Result<(), NoMemory>
    ensures { (f : ℕ → Bool) → Notes cells.old.keys f → OnOk result (Notes cells.new.keys (λ x. f x || nat_eq x cell)) }
{
    cells.insert(cell)?;
    Ok(())
}

fn is_own(cell: u32, is_write: bool, known: Known<'_>, process: u32) -> Result<bool, NoMemory>
    ensures { IfOk result (λ b. b ≡ owns_at known.entry process is_write cell) }
{
    match known.cells().get(cell as usize) {
        Some(cell) => Ok(is_own_sort(&cell.sort, is_write, process)),
        None => Err(lost()),
    }
}

fn is_own_sort(sort: &CellSort, is_write: bool, process: u32) -> bool
    ensures { result ≡ owned_sort process is_write (sort_of sort.now) }
{
    match sort {
        CellSort::Local(number) => process == *number,
        CellSort::Variable { .. } => is_write,
        CellSort::Input => false,
        CellSort::Output => false,
        CellSort::Signal => false,
        CellSort::Pointer(_) => false,
        CellSort::Port(_) => false,
    }
}
