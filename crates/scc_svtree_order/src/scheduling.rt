//! An order in which combinational blocks run.
ghost use Rattle.std.specs.Prelude.{◌≡◌, ℕ, ◌<◌, Bool, true, false, List, length, IfOk, OnOk};
ghost use Rattle.std.specs.List.{list_all};
ghost use Rattle.scc_svtree.specs.Settled.{Order, combs_of};
ghost use Rattle.scc_svtree_order.specs.Schedule as schedules;
ghost use Rattle.scc_svtree_order.specs.Schedule.{IsSchedule, Swept, done_after, list_after};
ghost use Rattle.scc_svtree_order.specs.Search.{is_seen};

use crate::feeds::graph_of;
use crate::groups::group_blocks;
use crate::ranks::rank_of;
use crate::rows::Rows;
use scc_base::NoMemory;
use scc_svtree::SvBlock;
use std::alloc::Global;

fn is_done(done: &[bool], j: usize) -> bool
    ensures { result ≡ is_seen done.now j }
{
    match done.get(j) {
        Some(b) => *b,
        None => false,
    }
}

fn all_done(done: &[bool], list: &[usize]) -> bool
    ensures { result ≡ list_all (λ j. is_seen done.now j) list.now }
{
    list.iter().all(|j| is_done(done, *j))
}

// None of n blocks is done.
#[tactic(auto, using(crate::proofs::Placing::none_seen, crate::proofs::Placing::as_long))]
fn none_done(alloc: Global, n: usize) -> Result<Vec<bool>, NoMemory>
    ensures long { IfOk result (λ l. length l.items ≡ n) }
    ensures none { IfOk result (λ l. (i : ℕ) → is_seen l.items i ≡ false) }
{
    let done = vec![in alloc; false; n]?;
    Ok(done)
}

// Whether all n are done.
fn none_left(done: &[bool], n: usize) -> bool
    ensures { result ≡ true → (k : ℕ) → k < n → is_seen done.now k ≡ true }
{
    for k in 0..n {
        if !is_done(done, k) {
            return false;
        }
    }
    true
}

// Whether a block is not done, while those that feed it are.
fn is_ready(g: &Rows, done: &[bool], k: usize) -> bool
    ensures { result ≡ schedules.is_ready g.now done.now k }
{
    !is_done(done, k) && all_done(done, g.row(k))
}

fn place(g: &Rows, done: &mut Vec<bool>, list: &mut Vec<usize>, k: usize) -> Result<(), NoMemory>
    requires { k < length done.old.items }
    ensures done { OnOk result (done.new.items ≡ done_after g.now k done.old.items) }
    ensures list { OnOk result (list.new.items ≡ list_after g.now k done.old.items list.old.items) }
{
    if is_ready(g, done.as_slice(), k) {
        done[k] = true;
        list.push(k)?;
    }
    Ok(())
}

// Appends each block that is not done, and whose feeding blocks are.
#[tactic(auto, using(crate::proofs::Placing::sweep_starts, crate::proofs::Placing::sweep_turns))]
fn sweep(g: &Rows, done: &mut Vec<bool>, list: &mut Vec<usize>) -> Result<(), NoMemory>
    requires { length done.old.items ≡ length g.now }
    ensures { OnOk result (Swept g.now (length g.now) done.old.items list.old.items done.new.items list.new.items) }
{
    for k in 0..g.len() {
        place(g, done, list, k)?;
    }
    Ok(())
}

// The blocks by their groups: each behind those that feed it, if the groups are right.
fn by_group(alloc: Global, rank: &[usize]) -> Result<Vec<usize>, NoMemory> {
    let mut blocks = vec![in alloc; 0; rank.len()]?;
    for k in 0..rank.len() {
        let place = rank_of(rank, k);
        if place < blocks.len() {
            blocks[place] = k;
        }
    }
    Ok(blocks)
}

// Appends a block if it is one, and those that feed it are done.
fn try_place(
    g: &Rows,
    done: &mut Vec<bool>,
    list: &mut Vec<usize>,
    k: usize,
) -> Result<(), NoMemory>
    requires { length done.old.items ≡ length g.now }
    ensures { OnOk result ((old : List Bool) (before : List ℕ) → length old ≡ length g.now → Swept g.now 0 old before done.old.items list.old.items → Swept g.now 0 old before done.new.items list.new.items) }
{
    if k >= g.len() {
        return Ok(());
    }
    place(g, done, list, k)?;
    Ok(())
}

// Appends those of some blocks whose feeding blocks are done, in this order.
#[tactic(auto, using(crate::proofs::Placing::sweep_starts))]
fn place_each(
    g: &Rows,
    blocks: &[usize],
    done: &mut Vec<bool>,
    list: &mut Vec<usize>,
) -> Result<(), NoMemory>
    requires { length done.old.items ≡ length g.now }
    ensures { OnOk result (Swept g.now 0 done.old.items list.old.items done.new.items list.new.items) }
{
    for k in blocks {
        try_place(g, done, list, *k)?;
    }
    Ok(())
}

/// The combinational blocks by number, each behind those that feed it.
pub fn schedule(alloc: Global, blocks: &[SvBlock]) -> Result<Vec<usize>, NoMemory>
    requires { Order (combs_of blocks.now) }
    ensures { IfOk result (λ l. IsSchedule (combs_of blocks.now) l.items) }
{
    let g = graph_of(alloc, blocks)?;
    let mut done = none_done(alloc, g.len())?;
    let mut list = Vec::new(alloc);
    let rank = group_blocks(alloc, &g)?;
    let guess = by_group(alloc, rank.as_slice())?;
    place_each(&g, guess.as_slice(), &mut done, &mut list)?;
    for _ in 0..g.len() {
        if none_left(done.as_slice(), g.len()) {
            return Ok(list);
        }
        sweep(&g, &mut done, &mut list)?;
    }
    Ok(list)
}
