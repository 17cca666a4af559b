//! Clocks as data, and sensitivity lists.
ghost use Rattle.std.specs.Prelude.{◌≡◌, ℕ, not, ◌&&◌, ◌||◌, ◌++◌, if◌then◌else◌, map, Some, IfOk, OnOk};
ghost use Rattle.std.specs.List.{list_any};
ghost use Rattle.scc_base.specs.declared.code.Code.TheVariants as code;
ghost use Rattle.scc_core_spec.specs.First.{first_of, refused, when};
ghost use Rattle.scc_core_spec.specs.Program.{Program, is_root};
ghost use Rattle.scc_core_spec.specs.Rules as rule;
ghost use Rattle.scc_core_spec.specs.Rules.{edge_cells, reset_cells};
ghost use Rattle.scc_core_spec.specs.Uses.{among};
ghost use Rattle.scc_core_view.specs.Programs.{process_of, sort_of};
ghost use Rattle.scc_rules_laws.specs.Found.{clock_used, first_along, read_found};
ghost use Rattle.scc_rules_walks.specs.Cells.{has_flag};
ghost use Rattle.scc_rules.specs.Marks.{HasMarks, HasSame, clocks_in, root_cell, seen_all, seen_in, seen_of, unlisted_by};
ghost use Rattle.scc_rules.specs.Refusals.{Finds};

use crate::facts::{Facts, is_combinational};
use scc_base::{Code, NoMemory, Place, Refusal, lost, push};
use scc_core::{Cell, CellSort, CoreProcess};
use scc_core_flow::Mark;
use scc_rules_walks::{has, has_any, none_of, put, roots_of};
use std::alloc::Global;

fn refusal(code: Code, place: Place) -> Option<Refusal>
    ensures code { Finds code result }
    ensures found { result ≡ Some (refused code place) }
{
    Some(Refusal {
        code,
        place,
        other: None,
    })
}

/// A clock that is a reset or stands in a sensitivity list, at that process, or is read.
pub fn clock_as_data(alloc: Global, f: &Facts<'_>) -> Result<Option<Refusal>, NoMemory>
    ensures code { IfOk result (Finds code.ClockAsData) }
    ensures first { (p : Program) → HasMarks f.now p → IfOk result (λ found. found ≡ rule.clock_as_data p) }
{
    let mut clocks = none_of(alloc, f.core.cells.len())?;
    add_clocks(f.core.processes.as_slice(), &mut clocks)?;
    first_clock(alloc, f, f.core.processes.as_slice(), clocks.as_slice())
}

fn add_clocks(processes: &[CoreProcess], set: &mut Vec<bool>) -> Result<(), NoMemory>
    ensures { OnOk result ((n : ℕ) → has_flag set.new.items n ≡ (among n (clocks_in processes.now) || has_flag set.old.items n)) }
{
    for p in processes {
        add_clock(p, set)?;
    }
    Ok(())
}

fn add_clock(p: &CoreProcess, set: &mut Vec<bool>) -> Result<(), NoMemory>
    ensures { OnOk result ((n : ℕ) → has_flag set.new.items n ≡ (among n (edge_cells (process_of p.now).edge) || has_flag set.old.items n)) }
{
    match p.edge {
        Some(edge) => put(set, edge.cell, true),
        None => Ok(()),
    }
}

// Process by process.
fn first_clock(
    alloc: Global,
    f: &Facts<'_>,
    processes: &[CoreProcess],
    clocks: &[bool],
) -> Result<Option<Refusal>, NoMemory>
    ensures code { IfOk result (Finds code.ClockAsData) }
    ensures first { IfOk result (λ found. found ≡ first_along (λ q. clock_used (has_flag clocks.now) (process_of q)) processes.now (seen_all f.now)) }
{
    for (k, p) in processes.iter().enumerate() {
        let Some(marks) = f.marks.get(k) else {
            return Err(lost());
        };
        let found = clock_in(alloc, f, p, marks.as_slice(), clocks)?;
        match found {
            Some(found) => return Ok(Some(found)),
            None => {}
        }
    }
    Ok(None)
}

fn clock_in(
    alloc: Global,
    f: &Facts<'_>,
    p: &CoreProcess,
    marks: &[Mark],
    clocks: &[bool],
) -> Result<Option<Refusal>, NoMemory>
    ensures code { IfOk result (Finds code.ClockAsData) }
    ensures found { IfOk result (λ found. found ≡ clock_used (has_flag clocks.now) (process_of p.now) (seen_in f.now marks.now)) }
{
    if is_sensed(p, clocks) {
        // E408.
        Ok(refusal(Code::ClockAsData, p.place))
    } else {
        first_read(alloc, f, marks, clocks, Code::ClockAsData)
    }
}

// Whether a reset or a level of a sensitivity list is in a set.
fn is_sensed(p: &CoreProcess, set: &[bool]) -> bool
    ensures { result ≡ list_any (has_flag set.now) (reset_cells (process_of p.now).reset ++ p.now.senses) }
{
    match p.reset {
        Some(reset) => has(set, reset.cell) || has_any(set, p.senses.as_slice()),
        None => has_any(set, p.senses.as_slice()),
    }
}

// The first read of a cell that is in a set.
fn first_read(
    alloc: Global,
    f: &Facts<'_>,
    marks: &[Mark],
    set: &[bool],
    code: Code,
) -> Result<Option<Refusal>, NoMemory>
    ensures code { IfOk result (Finds code) }
    ensures first { IfOk result (λ found. found ≡ first_of (λ m. read_found code (has_flag set.now) (seen_of f.now m)) marks.now) }
{
    for mark in marks {
        match read_in(alloc, f, mark, set, code)? {
            Some(found) => return Ok(Some(found)),
            None => {}
        }
    }
    Ok(None)
}

fn read_in(
    alloc: Global,
    f: &Facts<'_>,
    mark: &Mark,
    set: &[bool],
    code: Code,
) -> Result<Option<Refusal>, NoMemory>
    ensures code { IfOk result (Finds code) }
    ensures found { IfOk result (λ found. found ≡ read_found code (has_flag set.now) (seen_of f.now mark.now)) }
{
    if mark.write {
        Ok(None)
    } else {
        let cells = roots_of(alloc, f.roots.as_slice(), &mark.named)?;
        let is = has_any(set, cells.as_slice());
        Ok(found_if(is, code, mark.place))
    }
}

fn found_if(is: bool, code: Code, place: Place) -> Option<Refusal>
    ensures code { Finds code result }
    ensures found { result ≡ when is (refused code place) }
{
    if is { refusal(code, place) } else { None }
}

/// A root that a combinational method reads and that isn't in its sensitivity list.
pub fn missing_sensitivity(alloc: Global, f: &Facts<'_>) -> Result<Option<Refusal>, NoMemory>
    ensures code { IfOk result (Finds code.MissingSensitivity) }
    ensures first { (p : Program) → HasMarks f.now p → IfOk result (λ found. found ≡ rule.missing_sensitivity p) }
{
    let roots = root_cells(alloc, f.core.cells.as_slice())?;
    let mut unlisted = root_cells(alloc, f.core.cells.as_slice())?;
    first_missing(
        alloc,
        f,
        f.core.processes.as_slice(),
        roots.as_slice(),
        &mut unlisted,
    )
}

// The set of signals and of ports of the top.
fn root_cells(alloc: Global, cells: &[Cell]) -> Result<Vec<bool>, NoMemory>
    ensures { IfOk result (λ v. v.items ≡ map root_cell cells.now) }
{
    let mut set = Vec::new(alloc);
    for cell in cells {
        push(&mut set, is_root(&cell.sort))?;
    }
    Ok(set)
}

fn is_root(sort: &CellSort) -> bool
    ensures { result ≡ is_root (sort_of sort.now) }
{
    match sort {
        CellSort::Input => true,
        CellSort::Output => true,
        CellSort::Signal => true,
        CellSort::Port(_) => false,
        CellSort::Variable { .. } => false,
        CellSort::Local(_) => false,
        CellSort::Pointer(_) => false,
    }
}

// Process by process. Between two of them `set` has all of `roots`.
fn first_missing(
    alloc: Global,
    f: &Facts<'_>,
    processes: &[CoreProcess],
    roots: &[bool],
    set: &mut Vec<bool>,
) -> Result<Option<Refusal>, NoMemory>
    ensures code { IfOk result (Finds code.MissingSensitivity) }
    ensures first { HasSame set.old.items roots.now → IfOk result (λ found. found ≡ first_along (λ q. unlisted_by (has_flag roots.now) (process_of q)) processes.now (seen_all f.now)) }
{
    for (k, p) in processes.iter().enumerate() {
        let Some(marks) = f.marks.get(k) else {
            return Err(lost());
        };
        let found = missing_in(alloc, f, p, marks.as_slice(), roots, set)?;
        match found {
            Some(found) => return Ok(Some(found)),
            None => {}
        }
    }
    Ok(None)
}

fn missing_in(
    alloc: Global,
    f: &Facts<'_>,
    p: &CoreProcess,
    marks: &[Mark],
    roots: &[bool],
    set: &mut Vec<bool>,
) -> Result<Option<Refusal>, NoMemory>
    ensures code { IfOk result (Finds code.MissingSensitivity) }
    ensures found { HasSame set.old.items roots.now → IfOk result (λ found. found ≡ unlisted_by (has_flag roots.now) (process_of p.now) (seen_in f.now marks.now)) }
    ensures same { HasSame set.old.items roots.now → IfOk result (λ found. HasSame set.new.items roots.now) }
{
    if is_combinational(p) {
        take_out(p.senses.as_slice(), set)?;
        // E503.
        let found = first_read(alloc, f, marks, set.as_slice(), Code::MissingSensitivity)?;
        put_back(p.senses.as_slice(), roots, set)?;
        Ok(found)
    } else {
        Ok(None)
    }
}

fn take_out(cells: &[u32], set: &mut Vec<bool>) -> Result<(), NoMemory>
    ensures { OnOk result ((n : ℕ) → has_flag set.new.items n ≡ (not (among n cells.now) && has_flag set.old.items n)) }
{
    for cell in cells {
        put(set, *cell, false)?;
    }
    Ok(())
}

// Each as it is in a first set.
fn put_back(cells: &[u32], first: &[bool], set: &mut Vec<bool>) -> Result<(), NoMemory>
    ensures { OnOk result ((n : ℕ) → has_flag set.new.items n ≡ (if among n cells.now then has_flag first.now n else has_flag set.old.items n)) }
{
    for cell in cells {
        put(set, *cell, has(first, *cell))?;
    }
    Ok(())
}
