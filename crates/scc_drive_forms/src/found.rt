//! A module that is found again in modules with instances.
use crate::variables::Variables;
use scc_base::{List, NoMemory, lost, push};
use scc_hier::{HierPlan, renumbered_block, walk};
use scc_svtext::print;
use scc_svtree::{SvBlock, SvModule, SvVar};
use scc_svtree_renumber::Ids;
use std::alloc::Global;

/// Whether the one module that modules with instances are together is this one, but for the order of variables and blocks: it has
/// the same name, the same variables by name, and the blocks of each module object, in a walk from the top, are the module's blocks that
/// belong to it.
pub fn is_found(
    alloc: Global,
    m: &SvModule,
    plans: &[HierPlan],
    homes: &[u32],
    flat: SvModule,
) -> Result<bool, NoMemory> {
    let text = print(alloc, m)?;
    let again = as_in(alloc, m, plans, homes, flat)?;
    let text_again = print(alloc, &again)?;
    Ok(text.bytes() == text_again.bytes())
}

// The one module, with its variables and blocks in the order of the first.
fn as_in(
    alloc: Global,
    m: &SvModule,
    plans: &[HierPlan],
    homes: &[u32],
    flat: SvModule,
) -> Result<SvModule, NoMemory> {
    let SvModule { name, vars, blocks } = flat;
    let variables = Variables::of(alloc, m.vars.as_slice())?;
    let ids = numbers_in(alloc, &variables, vars.as_slice())?;
    let renumbered = renumbered_blocks(alloc, blocks.as_slice(), ids.as_slice())?;
    let places = block_places(alloc, plans, homes)?;
    Ok(SvModule {
        name,
        vars: ordered(alloc, vars, ids.as_slice())?,
        blocks: ordered(alloc, renumbered, places.as_slice())?,
    })
}

// The number in the module of each variable.
fn numbers_in(alloc: Global, variables: &Variables, vars: &[SvVar]) -> Result<Vec<u32>, NoMemory> {
    let mut ids = Vec::new(alloc);
    for v in vars {
        match variables.find(v.name.bytes()) {
            Some(id) => push(&mut ids, id.0)?,
            None => return Err(lost()),
        }
    }
    Ok(ids)
}

fn renumbered_blocks(
    alloc: Global,
    blocks: &[SvBlock],
    ids: &[u32],
) -> Result<List<SvBlock>, NoMemory> {
    let ids = Ids {
        same: false,
        first: ids,
        next: &[],
        last: &[],
    };
    let mut out = List::new(alloc);
    for b in blocks {
        out.push(renumbered_block(alloc, b, ids)?)?;
    }
    Ok(out)
}

// The numbers of the module's blocks, module object by module object in a walk from the top.
fn block_places(alloc: Global, plans: &[HierPlan], homes: &[u32]) -> Result<Vec<u32>, NoMemory> {
    let mut of_plan = Vec::new(alloc);
    for _plan in plans {
        push(&mut of_plan, Vec::new(alloc))?;
    }
    let mut number = 0u32;
    for home in homes {
        match of_plan.get_mut(*home as usize) {
            Some(list) => push(list, number)?,
            None => return Err(lost()),
        }
        number = number.saturating_add(1);
    }
    let mut places = Vec::new(alloc);
    for k in walk(alloc, plans)?.iter() {
        let Some(list) = of_plan.get_mut(*k) else {
            return Err(lost());
        };
        places.append(list)?;
    }
    Ok(places)
}

// Each element at its place; each place is that of one.
fn ordered<T: Drop>(alloc: Global, list: List<T>, places: &[u32]) -> Result<List<T>, NoMemory> {
    if list.len() != places.len() {
        return Err(lost());
    }
    let mut slots = Vec::new(alloc);
    for _place in places {
        push(&mut slots, None)?;
    }
    for (x, place) in list.into_vec().into_iter().zip(places.iter()) {
        match slots.get_mut(*place as usize) {
            Some(slot) => *slot = Some(x),
            None => return Err(lost()),
        }
    }
    let mut out = List::new(alloc);
    for slot in slots {
        match slot {
            Some(x) => out.push(x)?,
            None => return Err(lost()),
        }
    }
    Ok(out)
}
