//! What the tests of locations ask of a cell.
ghost use Rattle.std.specs.Prelude.{◌≡◌, List, map, true};
ghost use Rattle.scc_core.specs.Tables.{IsTable};
ghost use Rattle.scc_core.specs.declared.program.VectorSize2.{VectorSize2};
ghost use Rattle.scc_core_spec.specs.Fit.{same_kind};
ghost use Rattle.scc_core_view.specs.Programs.{cell_of};
ghost use Rattle.scc_core_look.specs.Seen.{asked, is_input_at, rooted_input, same_seen, seen_of, writes};

use crate::exits::both;
use crate::locals::{at_path, same_kind, same_sign};
use scc_base::List;
use scc_bits::{Kind, width};
use scc_core::{Cell, CellSort, Places};

/// A cell as the tests see it: its kind, whether it holds a number, whether it is a signal or port, and whether it stays as it is.
#[derive(Clone, Copy)]
pub struct Seen {
    pub kind: Kind,
    pub number: bool,
    pub read: bool,
    pub fixed: bool,
}

/// What is asked of each cell that a location names: a number or a signal of a kind, or one that takes a word of so many bits, whole or in
/// a part of it.
#[derive(Clone, Copy)]
pub enum Test {
    Load(Kind),
    Read(Kind),
    Whole(u32),
    One(u32),
    Bits { width: u32, h: u32, l: u32 },
}

pub fn seen_of(cell: &Cell) -> Seen
    ensures { result ≡ seen_of (cell_of cell.now) }
{
    let kind = cell.kind;
    match &cell.sort {
        CellSort::Input | CellSort::Output | CellSort::Signal => Seen {
            kind,
            number: false,
            read: true,
            fixed: false,
        },
        CellSort::Variable { fixed, .. } => Seen {
            kind,
            number: true,
            read: false,
            fixed: *fixed,
        },
        CellSort::Local(_) => Seen {
            kind,
            number: true,
            read: false,
            fixed: false,
        },
        CellSort::Pointer(_) => Seen {
            kind,
            number: false,
            read: false,
            fixed: false,
        },
        CellSort::Port(_) => Seen {
            kind,
            number: false,
            read: true,
            fixed: false,
        },
    }
}

pub fn same_seen(a: Seen, b: Seen) -> bool
    ensures { result ≡ same_seen a b }
{
    both(
        same_kind(a.kind, b.kind),
        both(
            same_sign(a.number, b.number),
            both(same_sign(a.read, b.read), same_sign(a.fixed, b.fixed)),
        ),
    )
}

pub fn asked(test: Test, seen: Seen) -> bool
    ensures { result ≡ asked test seen }
{
    match test {
        Test::Load(kind) => seen.number && same_kind(kind, seen.kind),
        Test::Read(kind) => seen.read && same_kind(kind, seen.kind),
        Test::Whole(bits) => !seen.fixed && bits == width(seen.kind),
        Test::One(bits) => !seen.fixed && seen.number && bits == 1,
        Test::Bits { width: bits, h, l } => !seen.fixed
            && seen.number
            && l <= h
            && h < width(seen.kind)
            && bits == h - l + 1,
    }
}

pub fn writes(test: Test) -> bool
    ensures { result ≡ writes test }
{
    match test {
        Test::Load(_) | Test::Read(_) => false,
        Test::Whole(_) | Test::One(_) | Test::Bits { .. } => true,
    }
}

fn is_input_at(cells: &List<Cell>, number: Option<u32>) -> bool
    ensures { result ≡ is_input_at (map cell_of cells.now) number }
{
    match number {
        Some(number) => match cells.get(number as usize) {
            Some(cell) => matches!(cell.sort, CellSort::Input),
            None => false,
        },
        None => false,
    }
}

/// Whether a cell is an input of the top, or a port that stands for one.
pub fn rooted_input(places: &Places, cells: &List<Cell>, cell: &Cell) -> bool
    ensures { (vectors : List VectorSize2) → IsTable places.now cells.now vectors → result ≡ rooted_input (map cell_of cells.now) (cell_of cell.now) }
{
    match &cell.sort {
        CellSort::Input => true,
        CellSort::Port(path) => is_input_at(cells, at_path(places, path.as_slice())),
        _ => false,
    }
}
