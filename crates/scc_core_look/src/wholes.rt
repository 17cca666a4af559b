//! Cells that are whole: locals alone have indices, and what stays as it is has a word of its kind.
ghost use Rattle.std.specs.Prelude.{◌≡◌, ◌≤◌, ◌^◌, length, true};
ghost use Rattle.scc_bits_kinds.specs.Kinds.{Fits, IsValid};
ghost use Rattle.scc_core_view.specs.Whole.{AreWholeCells, HoldsFixed};
ghost use Rattle.scc_core_look.specs.Wholes.{AreHeld, IsHeld};

use crate::cells::is_name;
use crate::exits::both;
use scc_base::List;
use scc_bits::{Kind, Word, fits, valid};
use scc_core::{Cell, CellSort};

fn is_word(kind: Kind, word: Word) -> bool
    ensures { result ≡ true → IsValid kind × Fits kind word.bits }
{
    valid(kind) && fits(kind, word)
}

fn holds_fixed(kind: Kind, sort: &CellSort) -> bool
    ensures { result ≡ true → HoldsFixed kind sort.now }
{
    match sort {
        CellSort::Variable { value, fixed } => { if *fixed { is_word(kind, *value) } else { true } }
        CellSort::Input
        | CellSort::Output
        | CellSort::Signal
        | CellSort::Local(_)
        | CellSort::Pointer(_)
        | CellSort::Port(_) => true,
    }
}

fn is_held(cell: &Cell) -> bool
    ensures { result ≡ true → IsHeld cell.now }
{
    both(is_name(&cell.name), holds_fixed(cell.kind, &cell.sort))
}

fn are_held(cells: &[Cell]) -> bool
    ensures { result ≡ true → AreHeld cells.now }
{
    let mut held = true;
    for cell in cells {
        held = both(held, is_held(cell));
    }
    held
}

fn are_few(cells: &[Cell]) -> bool
    ensures { result ≡ true → length cells.now ≤ 2 ^ 32 }
{
    cells.len() <= 4_294_967_296
}

/// Whether indices stand behind locals alone, what stays as it is has a word of its kind, and cells are not too many to be numbered.
pub fn cells_are_whole(cells: &List<Cell>) -> bool
    ensures { result ≡ true → AreWholeCells cells.now }
{
    both(are_few(cells.as_slice()), are_held(cells.as_slice()))
}
