//! Cells under open indices: what those of an array have in common, so that a location is looked at once, however many cells it may name.
ghost use Rattle.std.specs.Prelude.{◌≡◌, ◌++◌, ◌||◌, List, IfOk, OnOk, map, true};
ghost use Rattle.std.specs.List.{list_all};
ghost use Rattle.std.specs.Option.{option_copied};
ghost use Rattle.scc_core.specs.Tables.{IsTable, own_steps, steps_of};
ghost use Rattle.scc_core.specs.Names.{step_of};
ghost use Rattle.scc_core.specs.declared.places.NameStep.TheVariants as step;
ghost use Rattle.scc_core.specs.declared.program.VectorSize2.{VectorSize2};
ghost use Rattle.scc_core_view.specs.Programs.{cell_of};
ghost use Rattle.scc_core_view.specs.Whole.{AreWholeCells};
ghost use Rattle.scc_core_whole.specs.Parts.{HaveNames};
ghost use Rattle.scc_core_look.specs.Rows.{bounded, cell_covered, covered, covers, goes_past, is_index, key_part, keyed, no_index, passes, row_at, row_covers, row_from, row_of, row_passes, within};

use crate::exits::both;
use crate::seen::{Seen, Test, asked, rooted_input, same_seen, seen_of, writes};
use scc_base::{List, Name, NoMemory, Path, PathPart, push};
use scc_core::{Cell, CellName, CorePart, NameStep, Places, Spot, numbered};
use scc_core_whole::is_past;
use std::alloc::Global;

/// The cells of one array: what the first of them is, whether some are otherwise, whether one is an input of the top or stands for one, and
/// for each open index one more than the greatest.
#[derive(Drop)]
pub struct Row {
    seen: Seen,
    mixed: bool,
    input: bool,
    bounds: List<u32>,
}

/// Arrays by the names of their cells, in which `u32::MAX` stands in place of each index from an open one on.
#[derive(Drop)]
pub struct Rows {
    names: Places,
    rows: List<Row>,
}

fn is_index(step: NameStep) -> bool
    ensures { result ≡ is_index step }
{
    match step {
        NameStep::Index(_) => true,
        NameStep::Member(_) | NameStep::Local(_) => false,
    }
}

fn no_index(steps: &[NameStep]) -> bool
    ensures { result ≡ no_index steps.now }
{
    match steps {
        [] => true,
        [s, rest @ ..] => { if is_index(*s) { false } else { no_index(rest) } }
    }
}

fn keyed(step: NameStep) -> NameStep
    ensures { result ≡ keyed step }
{
    match step {
        NameStep::Index(_) => NameStep::Index(u32::MAX),
        NameStep::Member(name) => NameStep::Member(name),
        NameStep::Local(number) => NameStep::Local(number),
    }
}

fn key_part(part: &CorePart) -> NameStep
    ensures { result ≡ key_part part.now }
{
    match part {
        CorePart::Member(name) => NameStep::Member(*name),
        CorePart::Index { .. } => NameStep::Index(u32::MAX),
    }
}

// Whether each index is below the bound of its place.
fn within(bounds: &[u32], steps: &[NameStep]) -> bool
    ensures { result ≡ within bounds.now steps.now }
{
    match steps {
        [] => true,
        [s, rest @ ..] => match s {
            NameStep::Index(i) => match bounds {
                [] => false,
                [b, more @ ..] => { if *i < *b { within(more, rest) } else { false } }
            },
            NameStep::Member(_) => within(bounds, rest),
            NameStep::Local(_) => within(bounds, rest),
        },
    }
}

// Whether each size of a location is no less than the bound of its place.
fn bounded(bounds: &[u32], parts: &[CorePart]) -> bool
    ensures { result ≡ bounded bounds.now parts.now }
{
    match parts {
        [] => true,
        [part, rest @ ..] => match part {
            CorePart::Index { size, .. } => match bounds {
                [] => false,
                [b, more @ ..] => {
                    if *b <= *size {
                        bounded(more, rest)
                    } else {
                        false
                    }
                }
            },
            CorePart::Member(_) => bounded(bounds, rest),
        },
    }
}

fn covers(row: &Row, steps: &[NameStep], seen: Seen, input: bool) -> bool
    ensures { result ≡ covers row.now steps.now seen input }
{
    let alike = row.mixed || same_seen(row.seen, seen);
    let told = !input || row.input;
    both(alike, both(told, within(row.bounds.as_slice(), steps)))
}

// Whether an index that is known is no less than the bound of its place.
fn goes_past(cells: &List<Cell>, bounds: &[u32], parts: &[CorePart]) -> Result<bool, NoMemory>
    ensures { HaveNames cells.now → AreWholeCells cells.now → IfOk result (λ b. b ≡ true → goes_past (map cell_of cells.now) bounds.now parts.now ≡ true) }
{
    match parts {
        [] => Ok(false),
        [part, rest @ ..] => match part {
            CorePart::Index { at, .. } => match bounds {
                [] => Ok(false),
                [b, more @ ..] => {
                    if is_past(cells, at, *b)? {
                        Ok(true)
                    } else {
                        goes_past(cells, more, rest)
                    }
                }
            },
            CorePart::Member(_) => goes_past(cells, bounds, rest),
        },
    }
}

// Whether no cell of an array is left out that parts may name: their sizes are no less than its bounds, or none is meant.
fn is_sized(cells: &List<Cell>, row: &Row, parts: &[CorePart]) -> Result<bool, NoMemory>
    ensures { HaveNames cells.now → AreWholeCells cells.now → IfOk result (λ b. b ≡ true → (bounded row.now.bounds parts.now || goes_past (map cell_of cells.now) row.now.bounds parts.now) ≡ true) }
{
    if bounded(row.bounds.as_slice(), parts) {
        Ok(true)
    } else {
        goes_past(cells, row.bounds.as_slice(), parts)
    }
}

// Whether each cell of an array passes.
fn row_passes(
    cells: &List<Cell>,
    row: &Row,
    parts: &[CorePart],
    test: Test,
) -> Result<bool, NoMemory>
    ensures { HaveNames cells.now → AreWholeCells cells.now → IfOk result (λ b. b ≡ true → row_passes (map cell_of cells.now) row.now parts.now test ≡ true) }
{
    let passes = asked(test, row.seen);
    let keeps = !writes(test) || !row.input;
    let sized = is_sized(cells, row, parts)?;
    Ok(both(!row.mixed, both(passes, both(keeps, sized))))
}

// ---- the steps of a name

fn path_steps(found: &mut Vec<NameStep>, path: &[PathPart]) -> Result<(), NoMemory>
    ensures { OnOk result (found.new.items ≡ found.old.items ++ map step_of path.now) }
{
    for part in path {
        push(found, NameStep::of(*part))?;
    }
    Ok(())
}

fn index_steps(found: &mut Vec<NameStep>, indices: &[u32]) -> Result<(), NoMemory>
    ensures { OnOk result (found.new.items ≡ found.old.items ++ map step.Index indices.now) }
{
    for i in indices {
        push(found, NameStep::Index(*i))?;
    }
    Ok(())
}

fn local_steps(
    found: &mut Vec<NameStep>,
    local: Option<(u32, Name)>,
    indices: &[u32],
) -> Result<(), NoMemory>
    ensures { OnOk result (found.new.items ≡ found.old.items ++ own_steps local indices.now) }
{
    match local {
        Some((number, _)) => {
            push(found, NameStep::Local(number))?;
            index_steps(found, indices)
        }
        None => Ok(()),
    }
}

fn steps_of(alloc: Global, name: &CellName) -> Result<Vec<NameStep>, NoMemory>
    ensures { IfOk result (λ v. v.items ≡ steps_of name.now) }
{
    let mut found = Vec::new(alloc);
    path_steps(&mut found, name.path.as_slice())?;
    local_steps(&mut found, name.local, name.indices.as_slice())?;
    Ok(found)
}

// ---- arrays by the names of their cells

impl Rows {
    fn row_at(&self, at: Spot) -> Option<&Row>
        ensures { option_copied result ≡ row_at self.now at }
    {
        let number = self.names.cell(at)?;
        self.rows.get(number as usize)
    }

    // The array whose cells have a name that goes on so from a front part on.
    fn row_behind(&self, at: Spot, steps: &[NameStep]) -> Option<&Row>
        ensures { option_copied result ≡ row_from self.now at (map keyed steps.now) }
    {
        match steps {
            [] => self.row_at(at),
            [s, rest @ ..] => {
                let to = self.names.step(at, keyed(*s))?;
                self.row_behind(to, rest)
            }
        }
    }

    // The array that parts behind a front part of a name tell.
    fn row_under(&self, at: Spot, parts: &[CorePart]) -> Option<&Row>
        ensures { option_copied result ≡ row_from self.now at (map key_part parts.now) }
    {
        match parts {
            [] => self.row_at(at),
            [part, rest @ ..] => {
                let to = self.names.step(at, key_part(part))?;
                self.row_under(to, rest)
            }
        }
    }

    fn row_of(&self, name: &CellName, parts: &[CorePart]) -> Option<&Row>
        ensures { option_copied result ≡ row_of self.now name.now parts.now }
    {
        let at = self.names.name(name)?;
        self.row_under(at, parts)
    }

    /// Whether each cell that a name and its parts may name passes. Of a name that no cell has each does.
    pub fn passes(
        &self,
        cells: &List<Cell>,
        name: &CellName,
        parts: &[CorePart],
        test: Test,
    ) -> Result<bool, NoMemory>
        ensures { HaveNames cells.now → AreWholeCells cells.now → IfOk result (λ b. b ≡ true → passes (map cell_of cells.now) self.now name.now parts.now test ≡ true) }
    {
        match self.row_of(name, parts) {
            Some(row) => row_passes(cells, row, parts, test),
            None => Ok(true),
        }
    }

    fn row_covers(&self, at: Spot, steps: &[NameStep], seen: Seen, input: bool) -> bool
        ensures { result ≡ row_covers self.now at steps.now seen input }
    {
        match self.row_behind(at, steps) {
            Some(row) => covers(row, steps, seen, input),
            None => false,
        }
    }

    // Whether arrays tell a cell of what goes on so from a front part of its name on.
    fn covered(&self, at: Spot, steps: &[NameStep], seen: Seen, input: bool) -> bool
        ensures { result ≡ covered self.now at steps.now seen input }
    {
        match steps {
            [] => true,
            [s, rest @ ..] => {
                let here = !is_index(*s) || self.row_covers(at, steps, seen, input);
                let beyond = match self.names.step(at, *s) {
                    Some(to) => self.covered(to, rest, seen, input),
                    None => no_index(rest),
                };
                both(here, beyond)
            }
        }
    }

    fn cell_covered(
        &self,
        alloc: Global,
        places: &Places,
        cells: &List<Cell>,
        cell: &Cell,
    ) -> Result<bool, NoMemory>
        ensures { (vectors : List VectorSize2) → IsTable places.now cells.now vectors → IfOk result (λ b. b ≡ cell_covered self.now cells.now cell.now) }
    {
        let steps = steps_of(alloc, &cell.name)?;
        let input = rooted_input(places, cells, cell);
        Ok(self.covered(self.names.top(), steps.as_slice(), seen_of(cell), input))
    }

    fn covers_some(
        &self,
        alloc: Global,
        places: &Places,
        cells: &List<Cell>,
        some: &[Cell],
    ) -> Result<bool, NoMemory>
        ensures { (vectors : List VectorSize2) → IsTable places.now cells.now vectors → IfOk result (λ b. b ≡ true → list_all (cell_covered self.now cells.now) some.now ≡ true) }
    {
        let mut all = true;
        for cell in some {
            all = both(all, self.cell_covered(alloc, places, cells, cell)?);
        }
        Ok(all)
    }

    /// Whether the arrays tell what each cell is. This is looked up, so nothing has to be shown of how they are made.
    pub fn covers_all(
        &self,
        alloc: Global,
        places: &Places,
        cells: &List<Cell>,
    ) -> Result<bool, NoMemory>
        ensures { (vectors : List VectorSize2) → IsTable places.now cells.now vectors → IfOk result (λ b. b ≡ true → list_all (cell_covered self.now cells.now) cells.now ≡ true) }
    {
        self.covers_some(alloc, places, cells, cells.as_slice())
    }
}

// ---- how they are made

fn keyed_path(alloc: Global, path: &[PathPart], from: usize) -> Result<Path, NoMemory> {
    let mut made = Path::new(alloc);
    for i in 0..path.len() {
        let part = match path[i] {
            PathPart::Index(_) if from <= i => PathPart::Index(u32::MAX),
            part => part,
        };
        made.push(part)?;
    }
    Ok(made)
}

fn keyed_indices(alloc: Global, indices: &[u32], from: usize) -> Result<List<u32>, NoMemory> {
    let mut made = List::new(alloc);
    for i in 0..indices.len() {
        made.push(if from <= i { u32::MAX } else { indices[i] })?;
    }
    Ok(made)
}

// One more than each index from a place on.
fn path_bounds(alloc: Global, path: &[PathPart], from: usize) -> Result<List<u32>, NoMemory> {
    let mut made = List::new(alloc);
    for i in 0..path.len() {
        if from <= i
            && let PathPart::Index(index) = path[i]
        {
            made.push(index.saturating_add(1))?;
        }
    }
    Ok(made)
}

fn index_bounds(alloc: Global, indices: &[u32], from: usize) -> Result<List<u32>, NoMemory> {
    let mut made = List::new(alloc);
    for i in 0..indices.len() {
        if from <= i {
            made.push(indices[i].saturating_add(1))?;
        }
    }
    Ok(made)
}

fn greater(alloc: Global, a: &[u32], b: &[u32]) -> Result<List<u32>, NoMemory> {
    let mut made = List::new(alloc);
    for i in 0..a.len() {
        let other = if i < b.len() { b[i] } else { 0 };
        made.push(if a[i] < other { other } else { a[i] })?;
    }
    Ok(made)
}

fn widened(
    alloc: Global,
    row: &Row,
    seen: Seen,
    input: bool,
    bounds: &[u32],
) -> Result<Row, NoMemory> {
    Ok(Row {
        seen: row.seen,
        mixed: row.mixed || !same_seen(row.seen, seen),
        input: row.input || input,
        bounds: greater(alloc, row.bounds.as_slice(), bounds)?,
    })
}

/// The arrays of a list of cells.
pub fn rows_of(alloc: Global, places: &Places, cells: &List<Cell>) -> Result<Rows, NoMemory> {
    let mut names = Places::new(alloc)?;
    let mut rows = Vec::new(alloc);
    for cell in cells.as_slice() {
        let input = rooted_input(places, cells, cell);
        note(
            alloc,
            &mut names,
            &mut rows,
            &cell.name,
            seen_of(cell),
            input,
        )?;
    }
    Ok(Rows {
        names,
        rows: List::from_vec(rows),
    })
}

fn note(
    alloc: Global,
    names: &mut Places,
    rows: &mut Vec<Row>,
    name: &CellName,
    seen: Seen,
    input: bool,
) -> Result<(), NoMemory> {
    match name.local {
        None => note_path(alloc, names, rows, name.path.as_slice(), seen, input),
        Some(_) => note_local(alloc, names, rows, name, seen, input),
    }
}

fn note_path(
    alloc: Global,
    names: &mut Places,
    rows: &mut Vec<Row>,
    path: &[PathPart],
    seen: Seen,
    input: bool,
) -> Result<(), NoMemory> {
    for i in 0..path.len() {
        if let PathPart::Index(_) = path[i] {
            let key = CellName {
                path: keyed_path(alloc, path, i)?,
                local: None,
                indices: List::new(alloc),
            };
            let bounds = path_bounds(alloc, path, i)?;
            put(alloc, names, rows, &key, bounds, seen, input)?;
        }
    }
    Ok(())
}

fn note_local(
    alloc: Global,
    names: &mut Places,
    rows: &mut Vec<Row>,
    name: &CellName,
    seen: Seen,
    input: bool,
) -> Result<(), NoMemory> {
    let path = name.path.as_slice();
    let indices = name.indices.as_slice();
    for i in 0..path.len() {
        if let PathPart::Index(_) = path[i] {
            let key = CellName {
                path: keyed_path(alloc, path, i)?,
                local: name.local,
                indices: keyed_indices(alloc, indices, 0)?,
            };
            let mut bounds = path_bounds(alloc, path, i)?;
            bounds.append(index_bounds(alloc, indices, 0)?)?;
            put(alloc, names, rows, &key, bounds, seen, input)?;
        }
    }
    for i in 0..indices.len() {
        let key = CellName {
            path: keyed_path(alloc, path, path.len())?,
            local: name.local,
            indices: keyed_indices(alloc, indices, i)?,
        };
        let bounds = index_bounds(alloc, indices, i)?;
        put(alloc, names, rows, &key, bounds, seen, input)?;
    }
    Ok(())
}

fn number_of(names: &Places, key: &CellName) -> Option<u32> {
    let at = names.name(key)?;
    names.cell(at)
}

fn put(
    alloc: Global,
    names: &mut Places,
    rows: &mut Vec<Row>,
    key: &CellName,
    bounds: List<u32>,
    seen: Seen,
    input: bool,
) -> Result<(), NoMemory> {
    match number_of(names, key) {
        Some(number) => {
            let number = number as usize;
            if number < rows.len() {
                rows[number] = widened(alloc, &rows[number], seen, input, bounds.as_slice())?;
            }
            Ok(())
        }
        None => {
            let number = numbered(rows.len())?;
            names.add(key, number, false)?;
            push(
                rows,
                Row {
                    seen,
                    mixed: false,
                    input,
                    bounds,
                },
            )
        }
    }
}
