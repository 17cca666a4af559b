//! The cells that a location may name.
ghost use Rattle.std.specs.Prelude.{◌≡◌, IfOk, Some, [], length, map, nat_eq};
ghost use Rattle.scc_core.specs.Known.{facts_in};
ghost use Rattle.scc_core.specs.Located.{alone, array_from, array_in, between, named_in, row_from, single};
ghost use Rattle.scc_core.specs.Statics.{part_in};

use crate::statics::small;
use crate::{CellName, CoreBase, CoreLeft, CorePart, CorePick, Known, NameStep, Places, Spot};
use scc_base::{List, NoMemory};
use scc_bits::{Kind, width};
use std::alloc::Global;

/// An index that isn't static.
#[derive(Clone, Copy, PartialEq, Eq)]
pub struct Dim {
    /// How many elements it ranges over.
    pub size: u32,
    /// How many cells lie from one to the next.
    pub stride: u32,
    /// Which part of the location it is.
    pub part: u32,
}

/// The cells that a location may name: one, or under open indices some of an array, whose cells stand one after the
/// other, the last index running fastest.
#[derive(Drop)]
pub struct Named {
    /// The first of them.
    pub base: u32,
    /// The open indices from left to right.
    pub dims: List<Dim>,
}

impl Named {
    /// How many there are.
    pub fn count(&self) -> u64 {
        let mut count = 1u64;
        for dim in self.dims.as_slice() {
            count = count.saturating_mul(u64::from(dim.size));
        }
        count
    }

    /// Whether no open index chooses among several.
    pub fn is_single(&self) -> bool
        ensures { result ≡ nat_eq (length self.now.dims) 0 }
    {
        self.dims.is_empty()
    }

    /// The cell of that number among them, counted from 0 row by row.
    pub fn cell(&self, number: u64) -> u32 {
        let mut rest = number;
        let mut cell = self.base;
        for dim in self.dims.as_slice().iter().rev() {
            let size = u64::from(dim.size.max(1));
            let i = (rest % size) as u32;
            rest /= size;
            cell = cell.saturating_add(i.saturating_mul(dim.stride));
        }
        cell
    }
}

impl Known<'_> {
    /// The cells that a location without pointers may name; None where it names none, as past the end of an array. Bits of
    /// it aren't looked at.
    #[tactic(auto, unfolding(crate::specs::Located::named_in))]
    pub fn named(&self, alloc: Global, left: &CoreLeft) -> Result<Option<Named>, NoMemory>
        ensures { IfOk result (λ o. o ≡ named_in self.now left.now) }
    {
        let parts = left.parts.as_slice();
        match &left.base {
            CoreBase::Cell(cell) => Ok(alone(alloc, *cell, parts)),
            CoreBase::Prefix(name) => match self.array(parts, name) {
                Some((first, count)) => self.row(alloc, parts, first, count),
                None => Ok(single(alloc, self.find(parts, name, false))),
            },
            CoreBase::Follow { .. } => Ok(None),
            CoreBase::Null => Ok(None),
        }
    }

    // The first cell of an array of numbers, signals or ports, and how many there are.
    fn array(&self, parts: &[CorePart], name: &CellName) -> Option<(u32, u32)>
        ensures { result ≡ array_in self.now.places (map (part_in (facts_in self.now)) parts.now) name.now }
    {
        let places = self.places()?;
        let at = places.name(name)?;
        self.array_at(parts, places, at)
    }

    // The same behind a front part of names.
    fn array_at(&self, parts: &[CorePart], places: &Places, at: Spot) -> Option<(u32, u32)>
        ensures { result ≡ array_from places.now (map (part_in (facts_in self.now)) parts.now) at at 1 }
    {
        let mut first = at;
        let mut last = at;
        let mut count = 1u32;
        for part in parts {
            let CorePart::Index { size, .. } = part else {
                return None;
            };
            count = count.checked_mul(*size)?;
            first = places.step(first, NameStep::Index(0))?;
            last = places.step(last, NameStep::Index(size.checked_sub(1)?))?;
        }
        between(places.cell(first)?, places.cell(last)?, count)
    }

    // The cells of an array under some indices.
    fn row(
        &self,
        alloc: Global,
        parts: &[CorePart],
        first: u32,
        count: u32,
    ) -> Result<Option<Named>, NoMemory>
        ensures { IfOk result (λ o. o ≡ row_from (map (part_in (facts_in self.now)) parts.now) first count 0 []) }
    {
        let mut base = first;
        let mut stride = count;
        let mut dims = List::new(alloc);
        let mut number = 0u32;
        for part in parts {
            let CorePart::Index { size, at } = part else {
                return Ok(None);
            };
            stride /= (*size).max(1);
            match self.value(at) {
                Some(v) => match small(v) {
                    Some(i) if i < *size => base = base.saturating_add(i.saturating_mul(stride)),
                    _ => return Ok(None),
                },
                None => dims.push(Dim {
                    size: *size,
                    stride,
                    part: number,
                })?,
            }
            number = number.saturating_add(1);
        }
        Ok(Some(Named { base, dims }))
    }

    /// Whether what a location's pick takes is all of a cell of that kind.
    pub fn is_whole(&self, pick: Option<&CorePick>, kind: Kind) -> bool {
        match pick {
            None => true,
            Some(CorePick::Range { h, l, .. }) => *l == 0 && h.saturating_add(1) == width(kind),
            Some(CorePick::Bit { at, .. }) => {
                width(kind) == 1 && self.value(at).is_some_and(|i| !i.is_true())
            }
        }
    }
}

fn single(alloc: Global, cell: Option<u32>) -> Option<Named>
    ensures { result ≡ single cell }
{
    match cell {
        Some(base) => Some(Named {
            base,
            dims: List::new(alloc),
        }),
        None => None,
    }
}

// A cell by its number has no parts.
fn alone(alloc: Global, cell: u32, parts: &[CorePart]) -> Option<Named>
    ensures { result ≡ alone cell parts.now }
{
    match parts {
        [] => single(alloc, Some(cell)),
        [_, ..] => None,
    }
}

// The first of so many cells, where they stand one after the other.
fn between(first: u32, last: u32, count: u32) -> Option<(u32, u32)>
    ensures { result ≡ between count (Some first) (Some last) }
{
    if last < first {
        None
    } else if u64::from(last - first) + 1 == u64::from(count) {
        Some((first, count))
    } else {
        None
    }
}
