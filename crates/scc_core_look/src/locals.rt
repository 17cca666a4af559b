//! What stands under the names of cells: locals behind the names of their processes, and ports that stand for signals or ports of the top.
ghost use Rattle.std.specs.Prelude.{◌≡◌, ◌^◌, List, map, nat_lt, option_and_then, slice_get, true};
ghost use Rattle.std.specs.List.{list_all};
ghost use Rattle.scc_bits_kinds.specs.Kinds.{width_of};
ghost use Rattle.scc_core.specs.Names.{cell_at, of_path, walk};
ghost use Rattle.scc_core.specs.Tables.{IsTable};
ghost use Rattle.scc_core.specs.declared.program.VectorSize2.{VectorSize2};
ghost use Rattle.scc_core_spec.specs.Fit.{same_bool, same_kind};
ghost use Rattle.scc_core_spec.specs.IsResolved.{fit_cell, has_path, name_is, root_is, sort_is};
ghost use Rattle.scc_core_view.specs.Programs.{cell_of, path_of, process_of, sort_of};
ghost use Rattle.scc_core_view.specs.Terms.{name_of, part_of};
ghost use Rattle.scc_semantics.specs.Location.{same_part, same_path};

use crate::cells::is_pointer;
use crate::exits::both;
use crate::processes::is_root;
use scc_base::{List, PathPart};
use scc_bits::{Kind, Word, fits, valid};
use scc_core::{Cell, CellName, CellSort, CoreProcess, Places};

fn same_part(a: PathPart, b: PathPart) -> bool
    ensures { result ≡ same_part (part_of a) (part_of b) }
{
    match a {
        PathPart::Member(a) => match b {
            PathPart::Member(b) => a.0 == b.0,
            PathPart::Index(_) => false,
        },
        PathPart::Index(a) => match b {
            PathPart::Index(b) => a == b,
            PathPart::Member(_) => false,
        },
    }
}

pub fn same_path(a: &[PathPart], b: &[PathPart]) -> bool
    ensures { result ≡ true → same_path (path_of a.now) (path_of b.now) ≡ true }
{
    if a.len() != b.len() {
        return false;
    }
    let mut same = true;
    for i in 0..a.len() {
        same = both(same, same_part(a[i], b[i]));
    }
    same
}

pub fn same_sign(a: bool, b: bool) -> bool
    ensures { result ≡ same_bool a b }
{
    if a { b } else { !b }
}

pub fn same_kind(a: Kind, b: Kind) -> bool
    ensures { result ≡ same_kind a b }
{
    match a {
        Kind::Bool => match b {
            Kind::Bool => true,
            _ => false,
        },
        Kind::Native { bits: w, signed: s } => match b {
            Kind::Native { bits: v, signed: t } => w == v && same_sign(s, t),
            _ => false,
        },
        Kind::Int(w) => match b {
            Kind::Int(v) => w == v,
            _ => false,
        },
        Kind::Uint(w) => match b {
            Kind::Uint(v) => w == v,
            _ => false,
        },
        Kind::Big(w) => match b {
            Kind::Big(v) => w == v,
            _ => false,
        },
        Kind::BigInt(w) => match b {
            Kind::BigInt(v) => w == v,
            _ => false,
        },
        Kind::Bv(w) => match b {
            Kind::Bv(v) => w == v,
            _ => false,
        },
        Kind::Wide { bits: w, signed: s } => match b {
            Kind::Wide { bits: v, signed: t } => w == v && same_sign(s, t),
            _ => false,
        },
    }
}

// Whether a process of that number has the path.
fn has_path(processes: &List<CoreProcess>, number: u32, path: &[PathPart]) -> bool
    ensures { result ≡ true → has_path (path_of path.now) (slice_get (map process_of processes.now) number) ≡ true }
{
    match processes.get(number as usize) {
        Some(process) => same_path(path, process.name.path.as_slice()),
        None => false,
    }
}

fn name_fits(processes: &List<CoreProcess>, sort: &CellSort, name: &CellName) -> bool
    ensures { result ≡ true → name_is (map process_of processes.now) (sort_of sort.now) (name_of name.now) ≡ true }
{
    match name.local {
        None => name.indices.is_empty() && !matches!(sort, CellSort::Local(_)),
        Some(_) => match sort {
            CellSort::Local(number) => has_path(processes, *number, name.path.as_slice()),
            _ => false,
        },
    }
}

// The cell of that path that is no pointer, by the table of names.
pub fn at_path(places: &Places, path: &[PathPart]) -> Option<u32>
    ensures { result ≡ option_and_then (cell_at places.now) (walk places.now (record { 0 = 0 }) (of_path path.now)) }
{
    let at = places.path(path)?;
    places.cell(at)
}

// Whether the cell of that number is a signal or port of the top, and of the kind.
fn root_fits(cells: &List<Cell>, kind: Kind, number: Option<u32>) -> bool
    ensures { result ≡ root_is kind (option_and_then (λ n. slice_get (map cell_of cells.now) n) number) }
{
    match number {
        Some(number) => match cells.get(number as usize) {
            Some(cell) => is_root(cell) && same_kind(kind, cell.kind),
            None => false,
        },
        None => false,
    }
}

pub fn word_fits(kind: Kind, word: Word) -> bool
    ensures { result ≡ true → nat_lt word.bits (2 ^ width_of kind) ≡ true }
{
    valid(kind) && fits(kind, word)
}

fn sort_fits(places: &Places, cells: &List<Cell>, kind: Kind, sort: &CellSort) -> bool
    ensures { (vectors : List VectorSize2) → IsTable places.now cells.now vectors → result ≡ true → sort_is (map cell_of cells.now) kind (sort_of sort.now) ≡ true }
{
    match sort {
        CellSort::Port(path) => root_fits(cells, kind, at_path(places, path.as_slice())),
        CellSort::Variable { value, .. } => word_fits(kind, *value),
        _ => true,
    }
}

/// Whether a cell is no pointer, its name is one of an object or of a local of its process, a port below the top stands for a signal or port
/// of the top of its kind, and a variable begins with a word of its kind.
pub fn cell_fits(
    places: &Places,
    processes: &List<CoreProcess>,
    cells: &List<Cell>,
    cell: &Cell,
) -> bool
    ensures { (vectors : List VectorSize2) → IsTable places.now cells.now vectors → result ≡ true → fit_cell (map process_of processes.now) (map cell_of cells.now) (cell_of cell.now) ≡ true }
{
    let named = name_fits(processes, &cell.sort, &cell.name);
    let sorted = sort_fits(places, cells, cell.kind, &cell.sort);
    both(!is_pointer(cell), both(named, sorted))
}

fn all_fit(
    places: &Places,
    processes: &List<CoreProcess>,
    cells: &List<Cell>,
    some: &[Cell],
) -> bool
    ensures { (vectors : List VectorSize2) → IsTable places.now cells.now vectors → result ≡ true → list_all (fit_cell (map process_of processes.now) (map cell_of cells.now)) (map cell_of some.now) ≡ true }
{
    let mut fit = true;
    for cell in some {
        fit = both(fit, cell_fits(places, processes, cells, cell));
    }
    fit
}

/// Whether that is so of each cell.
pub fn cells_fit(places: &Places, processes: &List<CoreProcess>, cells: &List<Cell>) -> bool
    ensures { (vectors : List VectorSize2) → IsTable places.now cells.now vectors → result ≡ true → list_all (fit_cell (map process_of processes.now) (map cell_of cells.now)) (map cell_of cells.now) ≡ true }
{
    all_fit(places, processes, cells, cells.as_slice())
}
