//! The module of a core with several clocks, by the modules of its parts.
use crate::cutting::domains;
use crate::homes::{Homes, homes_of};
use crate::merging::merge;
use crate::parts::Domains;
use scc_base::{List, Names, NoMemory, lost};
use scc_blocks::blocks;
use scc_core::{Core, Sort2};
use scc_states::Split;
use scc_svtree::SvModule;
use std::alloc::Global;

/// The module of a checked core whose processes may name edges of several clocks: `order` is the order of its combinational
/// methods, `splits` has one split for each thread, in process order.
pub fn clocked_module(
    alloc: Global,
    names: &Names,
    c: &Core,
    order: &List<u32>,
    splits: List<Split>,
) -> Result<SvModule, NoMemory> {
    let homes = homes_of(alloc, c)?;
    let shares = shares_of(alloc, c, &homes, splits)?;
    let none = List::new(alloc);
    let combs = order_in(alloc, &homes, order.as_slice())?;
    let Domains { parts, .. } = domains(alloc, c)?;
    let last = parts.len().saturating_sub(1);
    let mut modules = List::new(alloc);
    for ((number, part), share) in parts.as_slice().iter().enumerate().zip(shares.iter()) {
        let order = if number == last { &combs } else { &none };
        modules.push(blocks(alloc, names, part, order, share.as_slice())?)?;
    }
    merge(alloc, names, c, modules.as_slice())
}

// The order of the combinational methods, which are all in the last part, by their numbers there.
fn order_in(alloc: Global, homes: &Homes, order: &[u32]) -> Result<List<u32>, NoMemory> {
    let mut list = List::new(alloc);
    for p in order {
        list.push(homes.number(*p as usize)?)?;
    }
    Ok(list)
}

// The splits of the threads of each part.
fn shares_of(
    alloc: Global,
    c: &Core,
    homes: &Homes,
    splits: List<Split>,
) -> Result<Vec<List<Split>>, NoMemory> {
    let mut shares = homes.lists(alloc)?;
    let mut rest = splits.into_vec().into_iter();
    for (p, process) in c.processes.as_slice().iter().enumerate() {
        if process.sort == Sort2::Thread {
            let (Some(split), Some(list)) = (rest.next(), shares.get_mut(homes.part(p)? as usize))
            else {
                return Err(lost());
            };
            list.push(split)?;
        }
    }
    Ok(shares)
}
