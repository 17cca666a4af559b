//! Cells by their names: a tree of the names' parts, in which a front part of a name is a number.
ghost use Rattle.std.specs.Prelude.{◌≡◌, ◌<◌, ◌++◌, List, [], ◌∷◌, None, IfOk, OnOk, length, map, option_and_then};
ghost use Rattle.scc_core.specs.declared.places.NameStep.{NameStep};
ghost use Rattle.scc_core.specs.declared.places.NameStep.TheVariants as step;
ghost use Rattle.scc_core.specs.Names.{cell_at, is_pointer, leads, name_spot, of_indices, of_path, pointer_at, root_at, size_at, step_of, walk};
ghost use Rattle.scc_core.specs.Tables.{Adds, AddsVector, Changes, Entered, Grows, IsTable, IsTree, Reaches, nothing, own_steps, steps_of, with_cell, with_size};

use crate::{Cell, CellName, CellSort, VectorSize2};
use indexmap::IndexMap;
use scc_base::{List, Name, NoMemory, PathPart, lost, push};
use std::alloc::Global;

/// A step of a cell's name.
#[derive(Clone, Copy, PartialEq, Eq, Hash)]
pub enum NameStep {
    /// The member of that name.
    Member(Name),
    /// The element of that number, counted from 0.
    Index(u32),
    /// The local of that number of the process whose name stands before.
    Local(u32),
}

/// A front part of the names of some cells.
#[derive(Clone, Copy, PartialEq, Eq, Hash)]
pub struct Spot(u32);

#[derive(Clone, Copy, PartialEq, Eq, Hash)]
struct Branch {
    from: u32,
    step: NameStep,
}

// What has a name.
#[derive(Clone, Copy, Drop)]
struct Named {
    cell: Option<u32>,
    pointer: Option<u32>,
    vector: Option<u32>,
}

/// The names of a core's cells and vectors.
pub struct Places {
    branches: IndexMap<Branch, u32>,
    named: Vec<Named>,
}

impl Drop for Places {
    fn drop(self) {
        let Places {
            branches: _branches,
            named: _named,
        } = self;
    }
}

impl Places {
    /// The empty table, with the top alone.
    pub fn new(alloc: Global) -> Result<Places, NoMemory>
        ensures { IfOk result (λ p. IsTable p [] []) }
    {
        let mut places = Places {
            branches: IndexMap::new(alloc),
            named: Vec::new(alloc),
        };
        places.grow()?;
        Ok(places)
    }

    /// The names of some cells, each by its number in the list, and of vectors.
    pub fn of(
        alloc: Global,
        cells: &List<Cell>,
        vectors: &List<VectorSize2>,
    ) -> Result<Places, NoMemory>
        ensures { IfOk result (λ p. IsTable p cells.now vectors.now) }
    {
        let mut places = Places::new(alloc)?;
        places.fill(cells.as_slice())?;
        places.fill_vectors(vectors.as_slice())?;
        Ok(places)
    }

    fn fill(&mut self, cells: &[Cell]) -> Result<(), NoMemory>
        ensures { IsTable self.old [] [] → OnOk result (IsTable self.new cells.now []) }
    {
        let mut number = 0usize;
        for cell in cells {
            self.add_cell(cell, number)?;
            number += 1;
        }
        Ok(())
    }

    fn add_cell(&mut self, cell: &Cell, number: usize) -> Result<(), NoMemory>
        ensures { IsTree self.old → OnOk result (Adds self.old self.new (steps_of cell.now.name) number (is_pointer cell.now.sort)) }
    {
        let number = numbered(number)?;
        self.add(&cell.name, number, is_pointer(cell))
    }

    fn fill_vectors(&mut self, vectors: &[VectorSize2]) -> Result<(), NoMemory>
        ensures { (cells : List Cell) → IsTable self.old cells [] → OnOk result (IsTable self.new cells vectors.now) }
    {
        for v in vectors {
            self.add_vector(v.path.as_slice(), v.size)?;
        }
        Ok(())
    }

    // One more front part, of nothing yet; its number.
    fn grow(&mut self) -> Result<u32, NoMemory>
        ensures number { IfOk result (λ n. n ≡ length self.old.named.items) }
        ensures named { OnOk result (self.new.named.items ≡ self.old.named.items ++ nothing ∷ []) }
        ensures branches { self.new.branches ≡ self.old.branches }
    {
        let number = numbered(self.named.len())?;
        let nothing = Named {
            cell: None,
            pointer: None,
            vector: None,
        };
        push(&mut self.named, nothing)?;
        Ok(number)
    }

    // A new front part behind another, where no step led.
    fn branch(&mut self, branch: Branch) -> Result<u32, NoMemory>
        ensures number { IfOk result (λ n. n ≡ length self.old.named.items) }
        ensures grows { leads self.old (record { 0 = branch.from }) branch.step ≡ None → OnOk result (Grows self.old self.new branch.from branch.step) }
    {
        let number = self.grow()?;
        self.branches.insert(branch, number)?;
        Ok(number)
    }

    // The front part that a step leads to, made where there is none.
    fn enter(&mut self, from: u32, step: NameStep) -> Result<u32, NoMemory>
        ensures { (ss : List NameStep) → IsTree self.old → Reaches self.old ss from → IfOk result (λ n. Entered self.old self.new (ss ++ step ∷ []) n) }
    {
        if let Some(found) = self.step(Spot(from), step) {
            return Ok(found.0);
        }
        let number = self.branch(Branch { from, step })?;
        Ok(number)
    }

    fn enter_part(&mut self, from: u32, part: &PathPart) -> Result<u32, NoMemory>
        ensures { (ss : List NameStep) → IsTree self.old → Reaches self.old ss from → IfOk result (λ n. Entered self.old self.new (ss ++ step_of part.now ∷ []) n) }
    {
        let at = self.enter(from, NameStep::of(*part))?;
        Ok(at)
    }

    fn enter_index(&mut self, from: u32, index: &u32) -> Result<u32, NoMemory>
        ensures { (ss : List NameStep) → IsTree self.old → Reaches self.old ss from → IfOk result (λ n. Entered self.old self.new (ss ++ step.Index index.now ∷ []) n) }
    {
        let at = self.enter(from, NameStep::Index(*index))?;
        Ok(at)
    }

    fn enter_path(&mut self, path: &[PathPart]) -> Result<u32, NoMemory>
        ensures { IsTree self.old → IfOk result (λ n. Entered self.old self.new (map step_of path.now) n) }
    {
        let mut at = 0;
        for part in path {
            at = self.enter_part(at, part)?;
        }
        Ok(at)
    }

    fn enter_indices(&mut self, from: u32, indices: &[u32]) -> Result<u32, NoMemory>
        ensures { (ss : List NameStep) → IsTree self.old → Reaches self.old ss from → IfOk result (λ n. Entered self.old self.new (ss ++ map step.Index indices.now) n) }
    {
        let mut at = from;
        for i in indices {
            at = self.enter_index(at, i)?;
        }
        Ok(at)
    }

    // Indices stand behind a local alone.
    fn enter_own(
        &mut self,
        from: u32,
        local: Option<(u32, Name)>,
        indices: &[u32],
    ) -> Result<u32, NoMemory>
        ensures { (ss : List NameStep) → IsTree self.old → Reaches self.old ss from → IfOk result (λ n. Entered self.old self.new (ss ++ own_steps local indices.now) n) }
    {
        match local {
            Some((local, _)) => {
                let mine = self.enter(from, NameStep::Local(local))?;
                let at = self.enter_indices(mine, indices)?;
                Ok(at)
            }
            None => Ok(from),
        }
    }

    fn enter_name(&mut self, name: &CellName) -> Result<u32, NoMemory>
        ensures { IsTree self.old → IfOk result (λ n. Entered self.old self.new (steps_of name.now) n) }
    {
        let front = self.enter_path(name.path.as_slice())?;
        let at = self.enter_own(front, name.local, name.indices.as_slice())?;
        Ok(at)
    }

    fn note(&mut self, at: u32, number: u32, pointer: bool)
        ensures { Changes self.old self.new at (λ n. with_cell n number pointer) }
    {
        let at = at as usize;
        if at < self.named.len() {
            let old = self.named[at];
            self.named[at] = with_cell(old, number, pointer);
        }
    }

    fn note_size(&mut self, at: u32, size: u32)
        ensures { Changes self.old self.new at (λ n. with_size n size) }
    {
        let at = at as usize;
        if at < self.named.len() {
            let old = self.named[at];
            self.named[at] = with_size(old, size);
        }
    }

    /// Adds the name of the cell of that number; the first that has a name keeps it. A pointer may share its name with what it made.
    pub fn add(&mut self, name: &CellName, number: u32, pointer: bool) -> Result<(), NoMemory>
        ensures { IsTree self.old → OnOk result (Adds self.old self.new (steps_of name.now) number pointer) }
    {
        let at = self.enter_name(name)?;
        self.note(at, number, pointer);
        Ok(())
    }

    /// Adds the number of elements of the vector at a path; the first that is added stays.
    pub fn add_vector(&mut self, path: &[PathPart], size: u32) -> Result<(), NoMemory>
        ensures { IsTree self.old → OnOk result (AddsVector self.old self.new (map step_of path.now) size) }
    {
        let at = self.enter_path(path)?;
        self.note_size(at, size);
        Ok(())
    }

    /// The front part of every name: that of the top.
    pub fn top(&self) -> Spot
        ensures { result ≡ record { 0 = 0 } }
    {
        Spot(0)
    }

    /// What a step leads to; None where no name goes on so.
    #[tactic(auto, unfolding(crate::specs::Names::leads), using(crate::proofs::Names::same_leads))]
    pub fn step(&self, at: Spot, step: NameStep) -> Option<Spot>
        ensures { result ≡ leads self.now at step }
    {
        let branch = Branch { from: at.0, step };
        let found = self.branches.get(&branch)?;
        Some(Spot(*found))
    }

    /// What a path leads to from the top.
    pub fn path(&self, path: &[PathPart]) -> Option<Spot>
        ensures { result ≡ walk self.now (record { 0 = 0 }) (of_path path.now) }
    {
        let mut at = self.top();
        for part in path {
            at = self.step(at, NameStep::of(*part))?;
        }
        Some(at)
    }

    /// What a cell's name, or a front part of one, leads to.
    pub fn name(&self, name: &CellName) -> Option<Spot>
        ensures { result ≡ name_spot self.now name.now }
    {
        let at = self.path(name.path.as_slice())?;
        let at = match name.local {
            Some((local, _)) => self.step(at, NameStep::Local(local))?,
            None => at,
        };
        self.indexed(at, name.indices.as_slice())
    }

    // What indices lead to.
    fn indexed(&self, at: Spot, indices: &[u32]) -> Option<Spot>
        ensures { result ≡ walk self.now at (of_indices indices.now) }
    {
        let mut at = at;
        for i in indices {
            at = self.step(at, NameStep::Index(*i))?;
        }
        Some(at)
    }

    /// The cell of that whole name that is no pointer.
    pub fn cell(&self, at: Spot) -> Option<u32>
        ensures { result ≡ cell_at self.now at }
    {
        self.named.get(at.0 as usize).and_then(|n| n.cell)
    }

    /// The pointer or reference of that whole name.
    pub fn pointer(&self, at: Spot) -> Option<u32>
        ensures { result ≡ pointer_at self.now at }
    {
        self.named.get(at.0 as usize).and_then(|n| n.pointer)
    }

    /// How many elements the vector of that name has; None where no vector has the name.
    pub fn vector(&self, at: Spot) -> Option<u32>
        ensures { result ≡ size_at self.now at }
    {
        self.named.get(at.0 as usize).and_then(|n| n.vector)
    }

    /// The root of a port's cell; each other cell is its own.
    pub fn root(&self, cells: &List<Cell>, cell: u32) -> u32
        ensures { result ≡ root_at self.now cells.now cell }
    {
        let Some(
            Cell {
                sort: CellSort::Port(path),
                ..
            },
        ) = cells.get(cell as usize)
        else {
            return cell;
        };
        match self.path(path.as_slice()) {
            Some(at) => self.cell(at).unwrap_or(cell),
            None => cell,
        }
    }

    /// The root of each cell.
    pub fn roots(&self, alloc: Global, cells: &List<Cell>) -> Result<Vec<u32>, NoMemory> {
        let mut roots = Vec::new(alloc);
        for number in 0..cells.len() {
            push(&mut roots, self.root(cells, numbered(number)?))?;
        }
        Ok(roots)
    }
}

fn is_pointer(cell: &Cell) -> bool
    ensures { result ≡ is_pointer cell.now.sort }
{
    matches!(cell.sort, CellSort::Pointer(_))
}

fn with_cell(old: Named, number: u32, pointer: bool) -> Named
    ensures { result ≡ with_cell old number pointer }
{
    if pointer {
        Named {
            cell: old.cell,
            pointer: old.pointer.or(Some(number)),
            vector: old.vector,
        }
    } else {
        Named {
            cell: old.cell.or(Some(number)),
            pointer: old.pointer,
            vector: old.vector,
        }
    }
}

fn with_size(old: Named, size: u32) -> Named
    ensures { result ≡ with_size old size }
{
    Named {
        cell: old.cell,
        pointer: old.pointer,
        vector: old.vector.or(Some(size)),
    }
}

/// A number of a cell, or of another thing of which there are fewer than 2^32.
pub fn numbered(n: usize) -> Result<u32, NoMemory>
    ensures { IfOk result (λ k. k ≡ n) }
{
    u32::try_from(n).map_err(|_| lost())
}

impl NameStep {
    /// The step of a part of a path.
    pub fn of(part: PathPart) -> NameStep
        ensures { result ≡ step_of part }
    {
        match part {
            PathPart::Member(name) => NameStep::Member(name),
            PathPart::Index(i) => NameStep::Index(i),
        }
    }
}
