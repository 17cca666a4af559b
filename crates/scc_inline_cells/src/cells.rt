//! The cells of a design's objects.
ghost use Rattle.std.specs.Prelude.{◌≡◌, ℕ, Some, option_map, IfOk, OnOk};
ghost use Rattle.scc_core_view.specs.Programs.{cell_of as core_cell, path_of as core_path, sort_of as core_sort};
ghost use Rattle.scc_elab_spec.specs.Cells.{cell_of as cell_in, is_top, object_cell as object_cell_in, parent, path_of as path_in, port_sort as port_sort_in, target_of as target_in};
ghost use Rattle.scc_plain_view.specs.Designs.{design_of, node_of, object_of, path_of};
ghost use Rattle.scc_plain_view.specs.Plains.{plain_of};
ghost use Rattle.scc_inline_cells.specs.Known.{IsKnown};
ghost use Rattle.scc_inline_cells.specs.Listed.{AreCells, IsAdded, IsEmpty};
ghost use Rattle.scc_elab_design.specs.declared.ObjectNode.TheVariants as node;

use crate::homes::named;
use crate::known::{Known, Source, is_below, is_fixed};
use scc_base::{List, NoMemory, Path, PathPart, lost};
use scc_bits::{Kind, Word};
use scc_core::{Cell, CellSort, numbered};
use scc_elab_design::{Design, Object, ObjectNode};
use scc_plain_tree::Plain;
use std::alloc::Global;

/// The cells of the objects in construction order, and each object's cell; objects of classes have none.
pub struct ObjectCells {
    pub cells: List<Cell>,
    pub of: List<Option<u32>>,
}

impl Drop for ObjectCells {
    fn drop(self) {
        let ObjectCells {
            cells: _cells,
            of: _of,
        } = self;
    }
}

// The path of the object of that number.
fn path_at(alloc: Global, d: &Design, object: u32) -> Result<Path, NoMemory>
    ensures { IfOk result (λ q. core_path q ≡ path_in (design_of d.now) object) }
{
    match d.objects.get(object as usize) {
        Some(object) => Path::of(alloc, object.path.as_slice()),
        None => Err(lost()),
    }
}

fn port_sort(s: &Source, path: &[PathPart], output: bool, root: u32) -> Result<CellSort, NoMemory>
    ensures { IsKnown s.now.known.now s.now.plain.now s.now.design.now → IfOk result (λ t. core_sort t ≡ port_sort_in (is_top (parent (design_of s.now.design.now) (path_of path.now))) output (path_in (design_of s.now.design.now) root)) }
{
    if is_below(s, path) {
        return Ok(CellSort::Port(path_at(s.alloc, s.design, root)?));
    }
    if output {
        return Ok(CellSort::Output);
    }
    Ok(CellSort::Input)
}

// Where a pointer leads: to a target of its own, or to an object.
fn pointed(s: &Source, number: u32, to: Option<u32>) -> Result<Option<Path>, NoMemory>
    ensures { IsKnown s.now.known.now s.now.plain.now s.now.design.now → IfOk result (λ t. option_map core_path t ≡ target_in (design_of s.now.design.now) number to) }
{
    match s.known.targets.get(&number) {
        Some(k) => match s.design.targets.get(*k as usize) {
            Some(target) => Ok(Some(Path::of(s.alloc, target.path.as_slice())?)),
            None => Err(lost()),
        },
        None => match to {
            Some(to) => Ok(Some(path_at(s.alloc, s.design, to)?)),
            None => Ok(None),
        },
    }
}

fn cell(alloc: Global, object: &Object, kind: Kind, sort: CellSort) -> Result<Cell, NoMemory>
    ensures { IfOk result (λ c. core_cell c ≡ cell_in (path_of object.now.path) kind (core_sort sort) (object_of object.now)) }
{
    let name = named(alloc, object.path.as_slice())?;
    Ok(Cell {
        name,
        kind,
        sort,
        place: object.place,
    })
}

fn port_cell(
    s: &Source,
    object: &Object,
    kind: Kind,
    output: bool,
    root: u32,
) -> Result<Cell, NoMemory>
    ensures { IsKnown s.now.known.now s.now.plain.now s.now.design.now → IfOk result (λ c. core_cell c ≡ cell_in (path_of object.now.path) kind (port_sort_in (is_top (parent (design_of s.now.design.now) (path_of object.now.path))) output (path_in (design_of s.now.design.now) root)) (object_of object.now)) }
{
    let sort = port_sort(s, object.path.as_slice(), output, root)?;
    cell(s.alloc, object, kind, sort)
}

fn pointer_cell(s: &Source, number: u32, object: &Object, to: Option<u32>) -> Result<Cell, NoMemory>
    ensures { IsKnown s.now.known.now s.now.plain.now s.now.design.now → IfOk result (λ c. Some (core_cell c) ≡ object_cell_in (plain_of s.now.plain.now) (design_of s.now.design.now) number (object_of object.now) (node_of (node.Pointer to))) }
{
    let target = pointed(s, number, to)?;
    cell(s.alloc, object, Kind::Bool, CellSort::Pointer(target))
}

fn variable_cell(s: &Source, object: &Object, kind: Kind, value: Word) -> Result<Cell, NoMemory>
    ensures { IsKnown s.now.known.now s.now.plain.now s.now.design.now → (n : ℕ) → IfOk result (λ c. Some (core_cell c) ≡ object_cell_in (plain_of s.now.plain.now) (design_of s.now.design.now) n (object_of object.now) (node_of (node.Variable kind value))) }
{
    let fixed = is_fixed(s, object.path.as_slice());
    cell(s.alloc, object, kind, CellSort::Variable { value, fixed })
}

// The cell of an object; one of a class has none.
fn object_cell(s: &Source, number: u32, object: &Object) -> Result<Option<Cell>, NoMemory>
    ensures { IsKnown s.now.known.now s.now.plain.now s.now.design.now → IfOk result (λ c. option_map core_cell c ≡ object_cell_in (plain_of s.now.plain.now) (design_of s.now.design.now) number (object_of object.now) (object_of object.now).node) }
{
    match object.node {
        ObjectNode::Module(_) => Ok(None),
        ObjectNode::Port { kind, output, root } => {
            Ok(Some(port_cell(s, object, kind, output, root)?))
        }
        ObjectNode::Signal(kind) => Ok(Some(cell(s.alloc, object, kind, CellSort::Signal)?)),
        ObjectNode::Variable { kind, value } => { Ok(Some(variable_cell(s, object, kind, value)?)) }
        ObjectNode::Pointer(to) => Ok(Some(pointer_cell(s, number, object, to)?)),
    }
}

impl ObjectCells {
    /// The cells, and the number of each object's cell.
    pub fn into_parts(self) -> (List<Cell>, List<Option<u32>>)
        ensures { result ≡ (self.cells, self.of) }
    {
        let ObjectCells { cells, of } = self;
        (cells, of)
    }

    // One more object, with its cell or without one.
    fn add(&mut self, cell: Option<Cell>) -> Result<(), NoMemory>
        ensures { OnOk result (IsAdded self.old self.new cell) }
    {
        match cell {
            Some(cell) => {
                self.of.push(Some(numbered(self.cells.len())?))?;
                self.cells.push(cell)
            }
            None => self.of.push(None),
        }
    }

    fn fill(&mut self, s: &Source) -> Result<(), NoMemory>
        ensures { IsKnown s.now.known.now s.now.plain.now s.now.design.now → IsEmpty self.old → OnOk result (AreCells (plain_of s.now.plain.now) (design_of s.now.design.now) self.new) }
    {
        for number in 0..s.design.objects.len() {
            let Some(object) = s.design.objects.get(number) else {
                return Err(lost());
            };
            let cell = object_cell(s, numbered(number)?, object)?;
            self.add(cell)?;
        }
        Ok(())
    }
}

fn cells_from(s: &Source) -> Result<ObjectCells, NoMemory>
    ensures { IsKnown s.now.known.now s.now.plain.now s.now.design.now → IfOk result (λ r. AreCells (plain_of s.now.plain.now) (design_of s.now.design.now) r) }
{
    let mut made = ObjectCells {
        cells: List::new(s.alloc),
        of: List::new(s.alloc),
    };
    made.fill(s)?;
    Ok(made)
}

/// The cells of a design's objects, and the number of each object's cell.
pub fn object_cells(alloc: Global, p: &Plain, d: &Design) -> Result<ObjectCells, NoMemory>
    ensures { IfOk result (λ r. AreCells (plain_of p.now) (design_of d.now) r) }
{
    let known = Known::of(alloc, p, d)?;
    let source = Source {
        alloc,
        plain: p,
        design: d,
        known: &known,
    };
    cells_from(&source)
}
