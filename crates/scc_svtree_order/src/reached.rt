//! The first combinational block on a cycle.
ghost use Rattle.std.specs.Prelude.{◌≡◌, ◌<◌, true, length, IfOk, OnOk};
ghost use Rattle.scc_svtree_order.specs.Cycles.{Path};
ghost use Rattle.scc_svtree_order.specs.Search.{Step, Decides, Found, seen_after, stack_after, Sorted};

use crate::ranks::{all_below, is_sorted, rank_of};
use crate::rows::Rows;
use scc_base::NoMemory;
use std::alloc::Global;

// Sees a block: those that feed it wait.
fn see(g: &Rows, seen: &mut Vec<bool>, stack: &mut Vec<usize>, j: usize) -> Result<(), NoMemory>
    requires { length seen.old.items ≡ length g.now }
    ensures seen { OnOk result (seen.new.items ≡ seen_after g.now j seen.old.items) }
    ensures stack { OnOk result (stack.new.items ≡ stack_after g.now j seen.old.items stack.old.items) }
{
    if j < g.len() && !seen[j] {
        seen[j] = true;
        stack.extend_from_slice(g.row(j))?;
    }
    Ok(())
}

// Whether block k reaches itself: the blocks that reach it are seen, one by one.
fn is_on_cycle(alloc: Global, g: &Rows, k: usize) -> Result<bool, NoMemory>
    requires { k < length g.now }
    ensures { IfOk result (λ b. Decides b (Path (Step g.now) k k)) }
{
    let mut seen = vec![in alloc; false; g.len()]?;
    let mut stack = Vec::from_slice(alloc, g.row(k))?;
    while let Some(j) = stack.pop() {
        see(g, &mut seen, &mut stack, j)?;
    }
    Ok(seen[k])
}

// The same, where no search is needed for a block whose rank is above those of what feeds it.
fn is_looped(
    alloc: Global,
    g: &Rows,
    rank: &[usize],
    sorted: bool,
    k: usize,
) -> Result<bool, NoMemory>
    requires within { k < length g.now }
    requires sorted { sorted ≡ true → Sorted g.now rank.now }
    ensures { IfOk result (λ b. Decides b (Path (Step g.now) k k)) }
{
    if sorted && all_below(rank, g.row(k), rank_of(rank, k)) {
        return Ok(false);
    }
    is_on_cycle(alloc, g, k)
}

/// The first block that reaches itself. Where the ranks are those of groups of blocks that reach each other, it takes one search.
pub fn first_row(alloc: Global, g: &Rows, rank: &[usize]) -> Result<Option<usize>, NoMemory>
    ensures { IfOk result (λ o. Found g.now o) }
{
    let sorted = is_sorted(g, rank);
    for k in 0..g.len() {
        if is_looped(alloc, g, rank, sorted, k)? {
            return Ok(Some(k));
        }
    }
    Ok(None)
}
