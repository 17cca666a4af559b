//! Combinational blocks that read in a cycle what others assign.
ghost use Rattle.std.specs.Prelude.{◌≡◌, ℕ, Ok, Some, None, IfOk};
ghost use Rattle.scc_svtree.specs.Settled.{Order, combs_of};
ghost use Rattle.scc_svtree_order.specs.Cycles.{FirstCycle, Said};

use crate::feeds::graph_of;
use crate::groups::group_blocks;
use crate::ranks::is_ranked;
use crate::reached::first_row;
use scc_base::NoMemory;
use scc_svtree::{SvBlock, SvModule};
use std::alloc::Global;

/// An order of combinational blocks, or the first on a cycle.
pub fn first_of(alloc: Global, blocks: &[SvBlock]) -> Result<Option<usize>, NoMemory>
    ensures { IfOk result (λ o. Said (combs_of blocks.now) o) }
{
    let g = graph_of(alloc, blocks)?;
    let rank = group_blocks(alloc, &g)?;
    if is_ranked(&g, rank.as_slice()) {
        return Ok(None);
    }
    first_row(alloc, &g, rank.as_slice())
}

/// The first combinational block, by its number among the combinational blocks, that lies on a cycle of two or more of which each
/// reads what the one before it assigns, and doesn't assign it itself; None where the blocks have an order in which each comes
/// behind those that assign what it reads (IEEE 1800-2017, 9.2.2.2).
pub fn first_cycle(alloc: Global, m: &SvModule) -> Result<Option<usize>, NoMemory>
    ensures order { result ≡ Ok None → Order (combs_of m.now.blocks) }
    ensures cycle { (k : ℕ) → result ≡ Ok (Some k) → FirstCycle (combs_of m.now.blocks) k }
{
    first_of(alloc, m.blocks.as_slice())
}
