//! The whole look.
ghost use Rattle.std.specs.Prelude.{◌≡◌, List, IfOk, map, true};
ghost use Rattle.std.specs.List.{list_all};
ghost use Rattle.scc_core.specs.Tables.{IsTable};
ghost use Rattle.scc_core.specs.declared.program.VectorSize2.{VectorSize2};
ghost use Rattle.scc_core_spec.specs.IsResolved.{IsResolved, cells_apart};
ghost use Rattle.scc_core_view.specs.Programs.{cell_of, process_of, program_of};
ghost use Rattle.scc_core_view.specs.Whole.{AreWholeCells};
ghost use Rattle.scc_core_whole.specs.Parts.{HaveNames};
ghost use Rattle.scc_core_look.specs.Fits.{body_fits};
ghost use Rattle.scc_core_look.specs.Rows.{cell_covered};

use crate::cells::names_differ;
use crate::code::code_fits;
use crate::exits::both;
use crate::locals::cells_fit;
use crate::names::processes_differ;
use crate::processes::are_clocked;
use crate::rows::{Rows, rows_of};
use crate::terms::Ground;
use crate::wholes::cells_are_whole;
use scc_base::{List, NoMemory};
use scc_core::{Cell, Core, CoreProcess, Places};
use std::alloc::Global;

// Whether the body of a process fits and writes no input.
fn body_fits(
    cells: &List<Cell>,
    places: &Places,
    rows: &Rows,
    process: &CoreProcess,
) -> Result<bool, NoMemory>
    ensures { (vectors : List VectorSize2) → IsTable places.now cells.now vectors → cells_apart (map cell_of cells.now) ≡ true → HaveNames cells.now → AreWholeCells cells.now → list_all (cell_covered rows.now cells.now) cells.now ≡ true → IfOk result (λ b. b ≡ true → body_fits (map cell_of cells.now) (process_of process.now) ≡ true) }
{
    let g = Ground {
        cells,
        places,
        rows,
        process,
    };
    code_fits(&g, process.body.as_slice())
}

fn bodies_fit(
    cells: &List<Cell>,
    places: &Places,
    rows: &Rows,
    processes: &[CoreProcess],
) -> Result<bool, NoMemory>
    ensures { (vectors : List VectorSize2) → IsTable places.now cells.now vectors → cells_apart (map cell_of cells.now) ≡ true → HaveNames cells.now → AreWholeCells cells.now → list_all (cell_covered rows.now cells.now) cells.now ≡ true → IfOk result (λ b. b ≡ true → list_all (body_fits (map cell_of cells.now)) (map process_of processes.now) ≡ true) }
{
    let mut fit = true;
    for process in processes {
        fit = both(fit, body_fits(cells, places, rows, process)?);
    }
    Ok(fit)
}

/// Whether a core is one of which the laws of cores without pointers speak: a yes means that the program it stands for is resolved, and
/// that its cells are whole.
pub fn is_resolved(alloc: Global, core: &Core) -> Result<bool, NoMemory>
    ensures resolved { IfOk result (λ b. b ≡ true → IsResolved (program_of core.now)) }
    ensures cells { IfOk result (λ b. b ≡ true → AreWholeCells core.now.cells) }
{
    let whole = cells_are_whole(&core.cells);
    let resolved = is_told(alloc, core)?;
    Ok(both(whole, resolved))
}

fn is_told(alloc: Global, core: &Core) -> Result<bool, NoMemory>
    ensures { IfOk result (λ b. b ≡ true → AreWholeCells core.now.cells → IsResolved (program_of core.now)) }
{
    let places = Places::of(alloc, &core.cells, &core.vectors)?;
    let rows = rows_of(alloc, &places, &core.cells)?;
    let processes = core.processes.as_slice();
    let differ = processes_differ(alloc, processes)?;
    let named = names_differ(&places, core.cells.as_slice());
    let covered = rows.covers_all(alloc, &places, &core.cells)?;
    let placed = cells_fit(&places, &core.processes, &core.cells);
    let clocked = are_clocked(&core.cells, processes);
    let fit = bodies_fit(&core.cells, &places, &rows, processes)?;
    Ok(all_of(differ, named, covered, placed, clocked, fit))
}

fn all_of(differ: bool, named: bool, covered: bool, placed: bool, clocked: bool, fit: bool) -> bool
    ensures { result ≡ true → (differ ≡ true) × (named ≡ true) × (covered ≡ true) × (placed ≡ true) × (clocked ≡ true) × (fit ≡ true) }
{
    differ && named && covered && placed && clocked && fit
}
