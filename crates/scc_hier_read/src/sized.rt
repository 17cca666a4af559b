//! How large modules are when their instances are put in their places.
use crate::connected::from_leaves;
use scc_base::{NoMemory, lost};
use scc_hier_text::{Hier, HierModule};
use scc_svtree::Dir;
use std::alloc::Global;

/// The most instances of a flattening.
const MOST_INSTANCES: u64 = 65_536;

/// The most variables and blocks of a flattening together.
const MOST_THINGS: u64 = 1_048_576;

/// What a module has with all its instances put in their places; both numbers stand still at the greatest.
#[derive(Clone, Copy)]
struct Size {
    instances: u64,
    /// Variables but ports, and blocks.
    things: u64,
}

// What stands in a module itself.
fn own(m: &HierModule) -> Size {
    let mut things = m.blocks.len() as u64;
    for v in m.vars.as_slice() {
        if v.dir == Dir::Inner {
            things = things.saturating_add(1);
        }
    }
    Size {
        instances: 0,
        things,
    }
}

fn size_of(m: &HierModule, sizes: &[Size]) -> Result<Size, NoMemory> {
    let mut size = own(m);
    for i in m.instances.as_slice() {
        let Some(inner) = sizes.get(i.module as usize) else {
            return Err(lost());
        };
        size = Size {
            instances: size
                .instances
                .saturating_add(inner.instances)
                .saturating_add(1),
            things: size.things.saturating_add(inner.things),
        };
    }
    Ok(size)
}

fn ports(m: &HierModule) -> u64 {
    let mut count = 0u64;
    for v in m.vars.as_slice() {
        if v.dir != Dir::Inner {
            count = count.saturating_add(1);
        }
    }
    count
}

fn sizes_of(alloc: Global, h: &Hier, groups: &[usize]) -> Result<Vec<Size>, NoMemory> {
    let none = Size {
        instances: 0,
        things: 0,
    };
    let mut sizes = vec![in alloc; none; h.modules.len()]?;
    let order = from_leaves(alloc, groups)?;
    for k in order.iter() {
        let Some(m) = h.modules.get(*k) else {
            return Err(lost());
        };
        let size = size_of(m, sizes.as_slice())?;
        match sizes.get_mut(*k) {
            Some(slot) => *slot = size,
            None => return Err(lost()),
        }
    }
    Ok(sizes)
}

/// Whether the flattening has more than 65,536 instances, or more than 1,048,576 variables and blocks. No module leads to itself.
pub fn is_too_large(alloc: Global, h: &Hier, groups: &[usize]) -> Result<bool, NoMemory> {
    let sizes = sizes_of(alloc, h, groups)?;
    let (Some(top), Some(size)) = (h.modules.get(0), sizes.get(0)) else {
        return Err(lost());
    };
    let things = size.things.saturating_add(ports(top));
    Ok(size.instances > MOST_INSTANCES || things > MOST_THINGS)
}
