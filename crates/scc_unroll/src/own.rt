//! Which local a location is, as a whole.
ghost use Rattle.std.specs.Prelude.{◌≡◌, map, option_and_then, slice_get};
ghost use Rattle.scc_core_spec.specs.Counted as spec;
ghost use Rattle.scc_core_view.specs.Programs.{cell_of};
ghost use Rattle.scc_core_view.specs.Terms.{name_of, taken_of};

use scc_base::List;
use scc_core::{Cell, CellName, CoreBase, CoreLeft};

/// The number of the local that a name has as a whole.
pub fn own_of(name: &CellName) -> Option<u32>
    ensures { result ≡ spec.own_of (name_of name.now) }
{
    if !name.indices.is_empty() {
        return None;
    }
    match name.local {
        Some((number, _)) => Some(number),
        None => None,
    }
}

// That of the local that a cell is.
fn own_of_cell(cells: &List<Cell>, cell: u32) -> Option<u32>
    ensures { result ≡ option_and_then (λ c. spec.own_of (name_of c.name)) (slice_get cells.now cell) }
{
    match cells.get(cell as usize) {
        Some(cell) => own_of(&cell.name),
        None => None,
    }
}

/// That of the local that a location is as a whole.
#[tactic(auto, using(scc_unroll_laws::proofs::Lefts::no_own))]
pub fn own_at(cells: &List<Cell>, left: &CoreLeft) -> Option<u32>
    ensures { result ≡ spec.own_at (map cell_of cells.now) (taken_of left.now).left }
{
    if !left.parts.is_empty() {
        return None;
    }
    match &left.base {
        CoreBase::Cell(n) => own_of_cell(cells, *n),
        CoreBase::Prefix(name) => own_of(name),
        CoreBase::Follow { .. } => None,
        CoreBase::Null => None,
    }
}
