//! Cells that are told apart by their names.
ghost use Rattle.std.specs.Prelude.{◌≡◌, ◌&&◌, List, map, not, option_and_then, true};
ghost use Rattle.scc_core.specs.Names.{cell_at, is_pointer, name_spot, pointer_at};
ghost use Rattle.scc_core.specs.Tables.{IsTable};
ghost use Rattle.scc_core.specs.declared.program.VectorSize2.{VectorSize2};
ghost use Rattle.scc_core_spec.specs.IsResolved.{cells_apart};
ghost use Rattle.scc_core_view.specs.Programs.{cell_of};
ghost use Rattle.scc_core_whole.specs.Parts.{HaveNames};
ghost use Rattle.scc_core_look.specs.Own.{are_own, is_it, is_name, is_own, is_unnamed};

use crate::exits::both;
use scc_core::{Cell, CellName, CellSort, Places};

pub fn is_pointer(cell: &Cell) -> bool
    ensures { result ≡ is_pointer cell.now.sort }
{
    matches!(cell.sort, CellSort::Pointer(_))
}

// Whether indices stand behind a local alone.
pub fn is_name(name: &CellName) -> bool
    ensures { result ≡ is_name name.now }
{
    match name.local {
        Some(_) => true,
        None => name.indices.is_empty(),
    }
}

fn is_it(number: usize, found: Option<u32>) -> bool
    ensures { result ≡ is_it number found }
{
    match found {
        Some(cell) => cell as usize == number,
        None => false,
    }
}

fn named(places: &Places, name: &CellName) -> Option<u32>
    ensures { result ≡ option_and_then (cell_at places.now) (name_spot places.now name.now) }
{
    let at = places.name(name)?;
    places.cell(at)
}

fn named_pointer(places: &Places, name: &CellName) -> Option<u32>
    ensures { result ≡ option_and_then (pointer_at places.now) (name_spot places.now name.now) }
{
    let at = places.name(name)?;
    places.pointer(at)
}

// Whether neither a cell nor a pointer has a name.
pub fn is_unnamed(places: &Places, name: &CellName) -> bool
    ensures { result ≡ is_unnamed places.now name.now }
{
    named(places, name).is_none() && named_pointer(places, name).is_none()
}

fn is_own(places: &Places, number: usize, cell: &Cell) -> bool
    ensures { result ≡ is_own places.now number cell.now }
{
    !is_pointer(cell) && is_name(&cell.name) && is_it(number, named(places, &cell.name))
}

fn are_own(places: &Places, cells: &[Cell]) -> bool
    ensures { result ≡ true → are_own places.now 0 cells.now ≡ true }
{
    let mut own = true;
    let mut number = 0usize;
    for cell in cells {
        own = both(own, is_own(places, number, cell));
        number += 1;
    }
    own
}

/// Whether no cell is a pointer and no two cells have one name, by the table of their names.
pub fn names_differ(places: &Places, cells: &[Cell]) -> bool
    ensures apart { (vectors : List VectorSize2) → IsTable places.now cells.now vectors → result ≡ true → cells_apart (map cell_of cells.now) ≡ true }
    ensures names { (vectors : List VectorSize2) → IsTable places.now cells.now vectors → result ≡ true → HaveNames cells.now }
{
    are_own(places, cells)
}
