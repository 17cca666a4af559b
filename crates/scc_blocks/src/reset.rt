//! What an asynchronous reset loads: the literals that the reset segment leaves in the registers. The segment has one path, along
//! which each assignment gives a whole cell a static value.
use crate::first::Register;
use crate::thread::{COUNTER, STATE};
use indexmap::IndexMap;
use scc_base::{List, NoMemory, lost};
use scc_bits::Word;
use scc_core::{CoreNode, CoreStmt};
use scc_lower::{Cells, cell_of, known_word};
use scc_states::Split;
use scc_states_cut::SegNode;
use scc_svtree::{SvLoad, VarId};
use std::alloc::Global;

/// How a list of statements ends.
#[derive(Clone, Copy, PartialEq, Eq)]
enum End {
    Through,
    /// So many more blocks are left.
    Leaves(u32),
}

/// The registers that the reset segment assigns, in declaration order.
pub fn loads_of(
    alloc: Global,
    split: &Split,
    registers: &[Register],
    cells: Cells<'_>,
) -> Result<List<SvLoad>, NoMemory> {
    let mut words = IndexMap::new(alloc);
    words_of(alloc, split, cells, &mut words)?;
    loads_in(alloc, registers, &words)
}

// The words that the reset segment assigns, by what is assigned.
fn words_of(
    alloc: Global,
    split: &Split,
    cells: Cells<'_>,
    words: &mut IndexMap<u32, u128>,
) -> Result<(), NoMemory> {
    for s in split.reset.as_slice() {
        match &s.node {
            SegNode::Plain(stmt) => {
                if one(stmt, alloc, cells, words)? != End::Through {
                    return Err(lost());
                }
            }
            SegNode::Wait(k) => {
                let Some(count) = split.waits.get(*k as usize) else {
                    return Err(lost());
                };
                let Some(left) = count.checked_sub(1) else {
                    return Err(lost());
                };
                put(words, STATE, u128::from(*k))?;
                put(words, COUNTER, u128::from(left))?;
            }
            SegNode::If { .. } => return Err(lost()),
        }
    }
    Ok(())
}

fn loads_in(
    alloc: Global,
    registers: &[Register],
    words: &IndexMap<u32, u128>,
) -> Result<List<SvLoad>, NoMemory> {
    let mut loads = List::new(alloc);
    for r in registers {
        if let Some(bits) = words.get(&r.lowered) {
            loads.push(SvLoad {
                target: VarId(r.now),
                value: Word { bits: *bits },
            })?;
        }
    }
    Ok(loads)
}

fn put(words: &mut IndexMap<u32, u128>, key: u32, bits: u128) -> Result<(), NoMemory> {
    let _old = words.insert(key, bits)?;
    Ok(())
}

#[cycle(reset_path)]
fn list(
    body: &[CoreStmt],
    alloc: Global,
    cells: Cells<'_>,
    words: &mut IndexMap<u32, u128>,
) -> Result<End, NoMemory> {
    for s in body {
        let end = one(s, alloc, cells, words)?;
        if end != End::Through {
            return Ok(end);
        }
    }
    Ok(End::Through)
}

#[cycle(reset_path)]
fn one(
    s: &CoreStmt,
    alloc: Global,
    cells: Cells<'_>,
    words: &mut IndexMap<u32, u128>,
) -> Result<End, NoMemory> {
    match &s.node {
        CoreNode::Assign { left, value } => {
            let (Some(cell), Some(word)) = (cell_of(alloc, cells, left)?, known_word(cells, value))
            else {
                return Err(lost());
            };
            match cell.checked_mul(2) {
                Some(lowered) => put(words, lowered, word)?,
                None => return Err(lost()),
            }
            Ok(End::Through)
        }
        CoreNode::Block(body) => match list(body.as_slice(), alloc, cells, words)? {
            End::Leaves(0) | End::Through => Ok(End::Through),
            End::Leaves(n) => Ok(End::Leaves(n - 1)),
        },
        CoreNode::Exit(n) => Ok(End::Leaves(*n)),
        CoreNode::If { .. }
        | CoreNode::Loop { .. }
        | CoreNode::Wait { .. }
        | CoreNode::Alias { .. } => Err(lost()),
    }
}
