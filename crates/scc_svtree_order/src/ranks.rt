//! Whether ranks of combinational blocks go up from what feeds a block to the block.
ghost use Rattle.std.specs.Prelude.{◌≡◌, ℕ, ◌<◌, ◌≤◌, true, slice_index};
ghost use Rattle.scc_svtree_order.specs.Fed.{has};
ghost use Rattle.scc_svtree_order.specs.Search.{Ranked, IsAbove, Sorted};

use crate::rows::Rows;

/// The rank of a block; 0 where it has none.
pub fn rank_of(rank: &[usize], k: usize) -> usize
    ensures { result ≡ slice_index rank.now k }
{
    match rank.get(k) {
        Some(r) => *r,
        None => 0,
    }
}

/// Whether each block of a list has a rank below this one.
pub fn all_below(rank: &[usize], list: &[usize], top: usize) -> bool
    ensures { result ≡ true → (j : ℕ) → has list.now j ≡ true → slice_index rank.now j < top }
{
    for j in list {
        if rank_of(rank, *j) >= top {
            return false;
        }
    }
    true
}

// Whether each has no higher rank.
fn all_up_to(rank: &[usize], list: &[usize], top: usize) -> bool
    ensures { result ≡ true → (j : ℕ) → has list.now j ≡ true → slice_index rank.now j ≤ top }
{
    for j in list {
        if rank_of(rank, *j) > top {
            return false;
        }
    }
    true
}

fn is_above(g: &Rows, rank: &[usize], k: usize) -> bool
    ensures { result ≡ true → IsAbove g.now rank.now k }
{
    let top = rank_of(rank, k);
    top < g.len() && all_below(rank, g.row(k), top)
}

/// Whether each block has a rank above those that feed it.
pub fn is_ranked(g: &Rows, rank: &[usize]) -> bool
    ensures { result ≡ true → Ranked g.now rank.now }
{
    for k in 0..g.len() {
        if !is_above(g, rank, k) {
            return false;
        }
    }
    true
}

/// Whether no block has a rank below one that feeds it.
pub fn is_sorted(g: &Rows, rank: &[usize]) -> bool
    ensures { result ≡ true → Sorted g.now rank.now }
{
    for k in 0..g.len() {
        if !all_up_to(rank, g.row(k), rank_of(rank, k)) {
            return false;
        }
    }
    true
}
