//! Blocks with other numbers of variables.
use scc_base::{List, NoMemory};
use scc_svtree::{SvBlock, SvLoad, SvReset, SvSet};
use scc_svtree_renumber::{Ids, renumbered, renumbered_expr};
use std::alloc::Global;

/// How deep expressions nest beside their first operands.
const LEVELS: u32 = 8_193;

fn sets(alloc: Global, list: &[SvSet], ids: Ids<'_>) -> Result<List<SvSet>, NoMemory> {
    let mut out = List::new(alloc);
    for s in list {
        out.push(SvSet {
            target: ids.of(s.target)?,
            value: renumbered_expr(alloc, &s.value, ids, LEVELS)?,
        })?;
    }
    Ok(out)
}

fn loads(alloc: Global, list: &[SvLoad], ids: Ids<'_>) -> Result<List<SvLoad>, NoMemory> {
    let mut out = List::new(alloc);
    for l in list {
        out.push(SvLoad {
            target: ids.of(l.target)?,
            value: l.value,
        })?;
    }
    Ok(out)
}

fn reset_of(alloc: Global, r: &Option<SvReset>, ids: Ids<'_>) -> Result<Option<SvReset>, NoMemory> {
    match r {
        Some(r) => Ok(Some(SvReset {
            signal: ids.of(r.signal)?,
            rising: r.rising,
            values: loads(alloc, r.values.as_slice(), ids)?,
        })),
        None => Ok(None),
    }
}

/// A block with other numbers of variables.
pub fn renumbered_block(alloc: Global, b: &SvBlock, ids: Ids<'_>) -> Result<SvBlock, NoMemory> {
    match b {
        SvBlock::Comb(list) => Ok(SvBlock::Comb(renumbered(list.as_slice(), alloc, ids, LEVELS)?)),
        SvBlock::Edge {
            rising,
            clock,
            reset,
            sets: list,
        } => Ok(SvBlock::Edge {
            rising: *rising,
            clock: ids.of(*clock)?,
            reset: reset_of(alloc, reset, ids)?,
            sets: sets(alloc, list.as_slice(), ids)?,
        }),
    }
}

/// The numbers of a list.
pub fn ids_in(first: &[u32]) -> Ids<'_> {
    Ids {
        same: false,
        first,
        next: &[],
        last: &[],
    }
}
