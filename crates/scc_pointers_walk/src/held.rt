//! Where pointers lead.
ghost use Rattle.std.specs.Prelude.{◌≡◌, ◌++◌, ◌∷◌, [], ℕ, IfOk, OnOk, None, length, option_map, take};
ghost use Rattle.std.specs.Option.{option_copied};
ghost use Rattle.scc_core_spec.specs.Unpointed.{declares, is_local_pointer, leading};
ghost use Rattle.scc_core_view.specs.Programs.{cell_of};
ghost use Rattle.scc_pointers_walk.specs.Led as trees;
ghost use Rattle.scc_pointers_walk.specs.Led.{at_place, leads_of, led_in, local_of, of_path, target_of};

use indexmap::IndexMap;
use scc_base::{List, NoMemory, Path, Place};
use scc_core::{Cell, CellName, CellSort, Copies, CoreBase, CoreLeft, Known, Places, VectorSize2};
use std::alloc::Global;

/// What resolving is given, and the targets of the local pointers that are declared so far; None for null.
pub struct Resolver<'a> {
    pub alloc: Global,
    pub known: Known<'a>,
    pub places: &'a Places,
    pub vectors: &'a List<VectorSize2>,
    held: IndexMap<u32, Option<CoreLeft>>,
}

// One call at each exit of what owns it.
impl Drop for Resolver<'_> {
    fn drop(self) {
        let Resolver {
            alloc: _,
            known: _,
            places: _,
            vectors: _,
            held: _held,
        } = self;
    }
}

impl<'a> Resolver<'a> {
    /// At the beginning of a process.
    pub fn new(
        alloc: Global,
        known: Known<'a>,
        places: &'a Places,
        vectors: &'a List<VectorSize2>,
    ) -> Resolver<'a>
        ensures local { (n : ℕ) → local_of result n ≡ None }
        ensures known { result.known ≡ known.entry }
        ensures places { result.places ≡ places.entry }
        ensures vectors { result.vectors ≡ vectors.entry }
    {
        Resolver {
            alloc,
            known,
            places,
            vectors,
            held: IndexMap::new(alloc),
        }
    }

    /// Whether a declaration is the first of its pointer, which is a local.
    pub fn declares(&self, cell: u32) -> bool
        ensures { result ≡ declares (leads_of self.now) cell }
    {
        is_local_pointer(self.known.cells().get(cell as usize)) && self.held.get(&cell).is_none()
    }

    /// A local pointer leads to a location from its declaration on.
    pub fn hold(&mut self, cell: u32, target: Option<CoreLeft>) -> Result<(), NoMemory>
        ensures leads { OnOk result (leads_of self.new ≡ leading (leads_of self.old) cell (target_of target)) }
        ensures held { local_of self.old cell ≡ None → OnOk result (self.new.held.entries ≡ self.old.held.entries ++ (cell, target) ∷ []) }
        ensures known { self.new.known ≡ self.old.known }
        ensures places { self.new.places ≡ self.old.places }
        ensures vectors { self.new.vectors ≡ self.old.vectors }
    {
        let _old = self.held.insert(cell, target)?;
        Ok(())
    }

    /// How many local pointers are declared.
    pub fn mark(&self) -> usize
        ensures { result ≡ length self.now.held.entries }
    {
        self.held.len()
    }

    /// Only so many pointers are declared behind the end of a list.
    pub fn leave(&mut self, mark: usize)
        ensures held { self.new.held.entries ≡ take mark self.old.held.entries }
        ensures known { self.new.known ≡ self.old.known }
        ensures places { self.new.places ≡ self.old.places }
        ensures vectors { self.new.vectors ≡ self.old.vectors }
    {
        self.held.truncate(mark);
    }

    /// Where the pointer of a cell leads, for a use at a place; None for null, which a local one is before its declaration.
    pub fn target(&self, cell: u32, place: Place) -> Result<Option<CoreLeft>, NoMemory>
        ensures { IfOk result (λ o. o ≡ led_in self.now place cell) }
    {
        match self.held.get(&cell) {
            Some(held) => copied_to(self.alloc, held, place),
            None => left_at(self.alloc, self.known.cells().get(cell as usize), place),
        }
    }
}

fn is_local_pointer(cell: Option<&Cell>) -> bool
    ensures { result ≡ is_local_pointer (option_map cell_of (option_copied cell.entry)) }
{
    match cell {
        Some(cell) => cell.name.local.is_some() && matches!(cell.sort, CellSort::Pointer(_)),
        None => false,
    }
}

// A target at the place where it is used.
fn copied_to(
    alloc: Global,
    held: &Option<CoreLeft>,
    place: Place,
) -> Result<Option<CoreLeft>, NoMemory>
    ensures { IfOk result (λ o. o ≡ option_map (at_place place) held.now) }
{
    match held {
        Some(left) => Ok(Some(placed(alloc, left, place)?)),
        None => Ok(None),
    }
}

fn placed(alloc: Global, left: &CoreLeft, place: Place) -> Result<CoreLeft, NoMemory>
    ensures { IfOk result (λ l. l ≡ at_place place left.now) }
{
    let mut made = Copies::plain(alloc).left(left)?;
    made.place = place;
    Ok(made)
}

// Where construction left a pointer.
fn left_at(alloc: Global, cell: Option<&Cell>, place: Place) -> Result<Option<CoreLeft>, NoMemory>
    ensures { IfOk result (λ o. o ≡ trees.left_at place (option_copied cell.entry)) }
{
    let Some(of) = cell else {
        return Ok(None);
    };
    match &of.sort {
        CellSort::Pointer(Some(path)) => Ok(Some(at_path(alloc, path, place)?)),
        _ => Ok(None),
    }
}

// The location of a path.
fn at_path(alloc: Global, path: &Path, place: Place) -> Result<CoreLeft, NoMemory>
    ensures { IfOk result (λ l. l ≡ of_path place path.now) }
{
    let name = CellName {
        path: Path::of(alloc, path.as_slice())?,
        local: None,
        indices: List::new(alloc),
    };
    Ok(CoreLeft {
        place,
        base: CoreBase::Prefix(name),
        parts: List::new(alloc),
        pick: None,
    })
}
