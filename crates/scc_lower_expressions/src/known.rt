//! What is known of locations and values without a run.
use crate::lowering::Cells;
use crate::place::{Found, locate};
use scc_base::{NoMemory, push};
use scc_core::{CoreExpr, CoreLeft};
use std::alloc::Global;

/// The one cell that a location names, if it names just one.
pub fn cell_of(alloc: Global, cells: Cells<'_>, left: &CoreLeft) -> Result<Option<u32>, NoMemory> {
    Ok(match locate(alloc, cells, left)? {
        Some(Found { first, dims }) if dims.is_empty() => Some(first),
        Some(_) | None => None,
    })
}

/// The word of a static expression.
pub fn known_word(cells: Cells<'_>, e: &CoreExpr) -> Option<u128> {
    cells.known.value(e).map(|v| v.word().bits)
}

/// All cells that a location may name.
pub fn cells_of(alloc: Global, cells: Cells<'_>, left: &CoreLeft) -> Result<Vec<u32>, NoMemory> {
    let mut all = Vec::new(alloc);
    if let Some(named) = cells.known.named(alloc, left)? {
        for number in 0..named.count() {
            push(&mut all, named.cell(number))?;
        }
    }
    Ok(all)
}
