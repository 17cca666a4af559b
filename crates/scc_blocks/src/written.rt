//! Which cells a process writes.
use crate::stamps::Stamps;
use scc_base::{List, NoMemory, lost};
use scc_core::{CoreNode, CoreStmt};
use scc_lower::{Cells, cells_of};
use std::alloc::Global;

/// The cells that the statements of a live part may write, each once. `stamps` has for each cell the last turn in which it was
/// met, and `turn` is a number that none has yet.
pub fn written(
    alloc: Global,
    live: &[CoreStmt],
    cells: Cells<'_>,
    turn: u32,
    stamps: &mut Stamps,
) -> Result<List<u32>, NoMemory> {
    let mut out = List::new(alloc);
    each(live, alloc, cells, turn, stamps, &mut out)?;
    Ok(out)
}

#[cycle(written)]
fn each(
    body: &[CoreStmt],
    alloc: Global,
    cells: Cells<'_>,
    turn: u32,
    stamps: &mut Stamps,
    out: &mut List<u32>,
) -> Result<(), NoMemory> {
    for s in body {
        one(s, alloc, cells, turn, stamps, out)?;
    }
    Ok(())
}

#[cycle(written)]
fn one(
    s: &CoreStmt,
    alloc: Global,
    cells: Cells<'_>,
    turn: u32,
    stamps: &mut Stamps,
    out: &mut List<u32>,
) -> Result<(), NoMemory> {
    match &s.node {
        CoreNode::Assign { left, .. } => {
            for cell in cells_of(alloc, cells, left)?.iter() {
                note(*cell, turn, stamps, out)?;
            }
            Ok(())
        }
        CoreNode::If { yes, no, .. } => {
            each(yes.as_slice(), alloc, cells, turn, stamps, out)?;
            each(no.as_slice(), alloc, cells, turn, stamps, out)
        }
        CoreNode::Block(body) | CoreNode::Loop { body, .. } => {
            each(body.as_slice(), alloc, cells, turn, stamps, out)
        }
        CoreNode::Exit(_) | CoreNode::Wait { .. } | CoreNode::Alias { .. } => Ok(()),
    }
}

fn note(cell: u32, turn: u32, stamps: &mut Stamps, out: &mut List<u32>) -> Result<(), NoMemory> {
    match stamps.by.get_mut(cell as usize) {
        Some(stamp) => {
            if *stamp != turn {
                *stamp = turn;
                out.push(cell)?;
            }
            Ok(())
        }
        None => Err(lost()),
    }
}
