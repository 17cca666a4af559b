//! What locations name: a cell, or the cells of an array under indices that aren't static.
ghost use Rattle.std.specs.Prelude.{◌≡◌, IfOk, map};
ghost use Rattle.scc_lower_tree_laws.specs.Finding.{AreChosen, IsChosen};
ghost use Rattle.scc_lower_expressions.specs.Becoming.{IsLocated, chosen_of, given_of};

use crate::lowering::Cells;
use scc_base::{NoMemory, lost, push};
use scc_core::{CoreExpr, CoreLeft, CorePart, Dim, Named};
use std::alloc::Global;

/// A dimension under an index that isn't static.
#[derive(Clone, Copy)]
pub struct Chosen<'a> {
    pub at: &'a CoreExpr,
    pub size: u32,
    pub stride: u32,
}

/// The cells first + sum of index * stride.
#[derive(Drop)]
pub struct Found<'a> {
    pub first: u32,
    pub dims: Vec<Chosen<'a>>,
}

/// What a location names; None where it names no cell, as past the end of an array.
pub fn locate<'a>(
    alloc: Global,
    cells: Cells<'_>,
    left: &'a CoreLeft,
) -> Result<Option<Found<'a>>, NoMemory>
    ensures { IfOk result (λ o. IsLocated (given_of cells.entry) left.now o) }
{
    match cells.known.named(alloc, left)? {
        Some(named) => Ok(Some(placed(alloc, left, &named)?)),
        None => Ok(None),
    }
}

// The cells that are named, with the indices that stand in the location.
fn placed<'a>(alloc: Global, left: &'a CoreLeft, named: &Named) -> Result<Found<'a>, NoMemory>
    ensures first { IfOk result (λ f. f.first ≡ named.now.base) }
    ensures dims { IfOk result (λ f. AreChosen left.now.parts named.now.dims (map chosen_of f.dims.items)) }
{
    Ok(Found {
        first: named.base,
        dims: dimensions(alloc, left, named.dims.as_slice())?,
    })
}

fn dimensions<'a>(
    alloc: Global,
    left: &'a CoreLeft,
    dims: &[Dim],
) -> Result<Vec<Chosen<'a>>, NoMemory>
    ensures { IfOk result (λ cs. AreChosen left.now.parts dims.now (map chosen_of cs.items)) }
{
    let mut found = Vec::new(alloc);
    for dim in dims {
        push(&mut found, chosen_in(left, *dim)?)?;
    }
    Ok(found)
}

// A dimension of an array, with the index that stands in a part of the location.
fn chosen_in<'a>(left: &'a CoreLeft, dim: Dim) -> Result<Chosen<'a>, NoMemory>
    ensures { IfOk result (λ c. IsChosen left.now.parts dim (chosen_of c)) }
{
    match left.parts.get(dim.part as usize) {
        Some(CorePart::Index { at, .. }) => Ok(Chosen {
            at,
            size: dim.size,
            stride: dim.stride,
        }),
        Some(CorePart::Member(_)) | None => Err(lost()),
    }
}
