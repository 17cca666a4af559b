//! Groups of combinational blocks that reach each other, by a walk against the feeding (Tarjan): a group comes behind those that
//! feed it. No contract says so: `is_ranked` and `is_sorted` look, and the answer is right whatever the groups are.
use crate::ranks::rank_of;
use crate::rows::Rows;
use scc_base::NoMemory;
use std::alloc::Global;

// What is to be done with a block: what feeds it is entered before it is left.
#[derive(Clone, Copy)]
enum Task {
    Enter(usize),
    Leave(usize),
}

// No number yet.
const NONE: usize = usize::MAX;

#[derive(Drop)]
struct Groups {
    /// The first block, by when it was entered, that a block is known to be fed by.
    low: Vec<usize>,
    group: Vec<usize>,
    /// Blocks without a group.
    open: Vec<usize>,
    tasks: Vec<Task>,
    entered: usize,
    closed: usize,
}

fn put(list: &mut Vec<usize>, k: usize, x: usize) {
    if k < list.len() {
        list[k] = x;
    }
}

fn enter(g: &Rows, s: &mut Groups, k: usize) -> Result<(), NoMemory> {
    if rank_of(s.low.as_slice(), k) != NONE {
        return Ok(());
    }
    put(&mut s.low, k, s.entered);
    s.entered = s.entered.saturating_add(1);
    s.open.push(k)?;
    s.tasks.push(Task::Leave(k))?;
    for j in g.row(k) {
        s.tasks.push(Task::Enter(*j))?;
    }
    Ok(())
}

// The lowest of a block and of those without a group that feed it.
fn lowest(g: &Rows, s: &Groups, k: usize) -> usize {
    let mut low = rank_of(s.low.as_slice(), k);
    for j in g.row(k) {
        let other = rank_of(s.low.as_slice(), *j);
        if rank_of(s.group.as_slice(), *j) == NONE && other < low {
            low = other;
        }
    }
    low
}

// A block that none entered before it feeds closes a group.
fn leave(g: &Rows, s: &mut Groups, k: usize) {
    let low = lowest(g, s, k);
    if low < rank_of(s.low.as_slice(), k) {
        put(&mut s.low, k, low);
        return;
    }
    for _ in 0..s.open.len() {
        if let Some(j) = s.open.pop() {
            put(&mut s.group, j, s.closed);
            if j == k {
                break;
            }
        }
    }
    s.closed = s.closed.saturating_add(1);
}

/// The group of each block, by number.
pub fn group_blocks(alloc: Global, g: &Rows) -> Result<Vec<usize>, NoMemory> {
    let mut s = Groups {
        low: vec![in alloc; NONE; g.len()]?,
        group: vec![in alloc; NONE; g.len()]?,
        open: Vec::new(alloc),
        tasks: Vec::new(alloc),
        entered: 0,
        closed: 0,
    };
    for k in 0..g.len() {
        s.tasks.push(Task::Enter(k))?;
    }
    for _ in 0..usize::MAX {
        match s.tasks.pop() {
            None => break,
            Some(Task::Enter(k)) => enter(g, &mut s, k)?,
            Some(Task::Leave(k)) => leave(g, &mut s, k),
        }
    }
    let Groups { group, .. } = s;
    Ok(group)
}
