//! The cells that a location may name.
ghost use Rattle.std.specs.Prelude.{◌≡◌, ◌++◌, IfOk, OnOk};
ghost use Rattle.scc_states_kept.specs.Rows.{cells_in, row_cells};

use scc_base::{NoMemory, push};
use scc_core::{CoreLeft, Dim, Known, Named};
use std::alloc::Global;

/// The cells that a location may name, one after the other.
#[tactic(auto, unfolding(crate::specs::Rows::cells_in))]
pub fn cells_named(alloc: Global, known: Known<'_>, left: &CoreLeft) -> Result<Vec<u32>, NoMemory>
    ensures { IfOk result (λ v. v.items ≡ cells_in known.entry left.now) }
{
    match known.named(alloc, left)? {
        Some(named) => cells_of(alloc, &named),
        None => Ok(Vec::new(alloc)),
    }
}

fn cells_of(alloc: Global, named: &Named) -> Result<Vec<u32>, NoMemory>
    ensures { IfOk result (λ v. v.items ≡ row_cells named.now.dims named.now.base) }
{
    let mut cells = Vec::new(alloc);
    add_row(named.dims.as_slice(), named.base, &mut cells)?;
    Ok(cells)
}

#[cycle(add_row)]
fn add_row(dims: &[Dim], cell: u32, cells: &mut Vec<u32>) -> Result<(), NoMemory>
    ensures { OnOk result (cells.new.items ≡ cells.old.items ++ row_cells dims.now cell) }
{
    match dims {
        [] => push(cells, cell),
        [dim, inner @ ..] => {
            let mut here = cell;
            for _ in 0..dim.size {
                add_row(inner, here, cells)?;
                here = here.saturating_add(dim.stride);
            }
            Ok(())
        }
    }
}
