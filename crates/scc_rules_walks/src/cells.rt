//! The cells that a found location names, and sets of cells.
ghost use Rattle.std.specs.Prelude.{◌≡◌, ℕ, false, ◌+◌, ◌*◌, [], ◌∷◌, ◌++◌, nat_eq, map, if◌then◌else◌, IfOk, OnOk};
ghost use Rattle.std.specs.List.{list_any};
ghost use Rattle.scc_rules_walks.specs.Cells as spec;

use scc_base::{NoMemory, lost, push};
use scc_core::{Dim, Named};
use std::alloc::Global;

/// The cells that a location names, row by row, ports by their roots.
pub fn roots_of(alloc: Global, roots: &[u32], named: &Named) -> Result<Vec<u32>, NoMemory>
    ensures { IfOk result (λ v. v.items ≡ spec.roots_in roots.now named.now) }
{
    let cells = spread(alloc, named.base, named.dims.as_slice())?;
    each_root(alloc, roots, cells.as_slice())
}

fn each_root(alloc: Global, roots: &[u32], cells: &[u32]) -> Result<Vec<u32>, NoMemory>
    ensures { IfOk result (λ v. v.items ≡ map (spec.root_at roots.now) cells.now) }
{
    let mut out = Vec::new(alloc);
    for cell in cells {
        let root = root_at(roots, *cell)?;
        push(&mut out, root)?;
    }
    Ok(out)
}

fn root_at(roots: &[u32], cell: u32) -> Result<u32, NoMemory>
    ensures { IfOk result (λ n. n ≡ spec.root_at roots.now cell) }
{
    match roots.get(cell as usize) {
        Some(root) => Ok(*root),
        None => Err(lost()),
    }
}

// The cells from one on under open indices.
fn spread(alloc: Global, base: u32, dims: &[Dim]) -> Result<Vec<u32>, NoMemory>
    ensures { IfOk result (λ v. v.items ≡ spec.spread (base ∷ []) dims.now) }
{
    let mut cells = Vec::new(alloc);
    push(&mut cells, base)?;
    for k in 0..dims.len() {
        let dim = dims[k];
        cells = stretched(alloc, cells.as_slice(), dim.size, dim.stride)?;
    }
    Ok(cells)
}

fn stretched(alloc: Global, cells: &[u32], size: u32, stride: u32) -> Result<Vec<u32>, NoMemory>
    ensures { IfOk result (λ v. v.items ≡ spec.stretched size stride cells.now) }
{
    let mut out = Vec::new(alloc);
    for cell in cells {
        row(*cell, size, stride, &mut out)?;
    }
    Ok(out)
}

fn row(cell: u32, size: u32, stride: u32, out: &mut Vec<u32>) -> Result<(), NoMemory>
    ensures { OnOk result (out.new.items ≡ out.old.items ++ spec.row size stride cell) }
{
    for i in 0..size {
        let at = behind(cell, i, stride)?;
        push(out, at)?;
    }
    Ok(())
}

// So many rows behind a cell. A core has fewer than 2^32 cells.
fn behind(cell: u32, rows: u32, stride: u32) -> Result<u32, NoMemory>
    ensures { IfOk result (λ n. n ≡ cell + rows * stride) }
{
    let Some(more) = rows.checked_mul(stride) else {
        return Err(lost());
    };
    match cell.checked_add(more) {
        Some(at) => Ok(at),
        None => Err(lost()),
    }
}

/// The empty set, for cells below a number.
pub fn none_of(alloc: Global, cells: usize) -> Result<Vec<bool>, NoMemory>
    ensures { IfOk result (λ v. (n : ℕ) → spec.has_flag v.items n ≡ false) }
{
    let mut set = Vec::new(alloc);
    for _ in 0..cells {
        push(&mut set, false)?;
    }
    Ok(set)
}

/// Whether a cell is in a set.
pub fn has(set: &[bool], cell: u32) -> bool
    ensures { result ≡ spec.has_flag set.now cell }
{
    match set.get(cell as usize) {
        Some(is) => *is,
        None => false,
    }
}

/// Whether one of some cells is in a set.
pub fn has_any(set: &[bool], cells: &[u32]) -> bool
    ensures { result ≡ list_any (spec.has_flag set.now) cells.now }
{
    for cell in cells {
        if has(set, *cell) {
            return true;
        }
    }
    false
}

/// Puts a cell into a set, or takes it out.
pub fn put(set: &mut Vec<bool>, cell: u32, is: bool) -> Result<(), NoMemory>
    ensures { OnOk result ((n : ℕ) → spec.has_flag set.new.items n ≡ (if nat_eq n cell then is else spec.has_flag set.old.items n)) }
{
    let at = cell as usize;
    if at < set.len() {
        set[at] = is;
        Ok(())
    } else {
        Err(lost())
    }
}
