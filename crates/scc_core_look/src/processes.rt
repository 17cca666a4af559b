//! Clocks, resets and exits of processes.
ghost use Rattle.std.specs.Prelude.{◌≡◌, ◌&&◌, ◌||◌, map, not, option_map, is_some, true};
ghost use Rattle.std.specs.List.{list_all};
ghost use Rattle.scc_core_spec.specs.Exits.{exits_within};
ghost use Rattle.scc_core_spec.specs.IsResolved.{fit_edge, fit_reset};
ghost use Rattle.scc_core_spec.specs.Program.{is_root};
ghost use Rattle.scc_core_spec.specs.Uses.{has_sort};
ghost use Rattle.scc_core_view.specs.Codes.{code_of};
ghost use Rattle.scc_core_view.specs.Programs.{cell_of, edge_of, is_thread, process_of, reset_of, sort_of};
ghost use Rattle.scc_core_look.specs.Clocked.{IsClocked, is_clocked as clocked};

use crate::exits::{both, exits_stay};
use scc_base::List;
use scc_core::{Cell, CellSort, CoreProcess, Edge2, Reset2, Sort2};

// Whether a cell is a signal or port of the top.
pub fn is_root(cell: &Cell) -> bool
    ensures { result ≡ is_root (sort_of cell.now.sort) }
{
    matches!(
        cell.sort,
        CellSort::Input | CellSort::Output | CellSort::Signal
    )
}

// Whether the cell of that number is one.
fn has_root(cells: &List<Cell>, number: u32) -> bool
    ensures { result ≡ has_sort is_root (map cell_of cells.now) number }
{
    match cells.get(number as usize) {
        Some(cell) => is_root(cell),
        None => false,
    }
}

fn edge_fits(cells: &List<Cell>, edge: Option<Edge2>) -> bool
    ensures { result ≡ fit_edge (map cell_of cells.now) (option_map edge_of edge) }
{
    match edge {
        Some(edge) => has_root(cells, edge.cell),
        None => true,
    }
}

fn reset_fits(cells: &List<Cell>, thread: bool, reset: Option<Reset2>) -> bool
    ensures { result ≡ fit_reset (map cell_of cells.now) thread (option_map reset_of reset) }
{
    match reset {
        Some(reset) => thread && has_root(cells, reset.cell),
        None => true,
    }
}

/// Whether a thread has a clock, clock and reset are signals or ports of the top, a method has no reset, and each exit leaves a block around
/// it.
pub fn is_clocked(cells: &List<Cell>, process: &CoreProcess) -> bool
    ensures { result ≡ true → IsClocked (map cell_of cells.now) (process_of process.now) }
{
    let thread = matches!(process.sort, Sort2::Thread);
    (!thread || process.edge.is_some())
        && edge_fits(cells, process.edge)
        && reset_fits(cells, thread, process.reset)
        && exits_stay(0, process.body.as_slice())
}

/// Whether that is so of each process.
pub fn are_clocked(cells: &List<Cell>, processes: &[CoreProcess]) -> bool
    ensures { result ≡ true → list_all (clocked (map cell_of cells.now)) (map process_of processes.now) ≡ true }
{
    let mut all = true;
    for process in processes {
        all = both(all, is_clocked(cells, process));
    }
    all
}
