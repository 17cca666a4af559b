//! Instances: their modules, ports and widths, and modules that lead to themselves.
use crate::raw::{RawHier, RawInstance};
use scc_base::{List, NoMemory, lost, push};
use scc_hier_text::{Hier, HierModule, Instance};
use scc_svtree::{Dir, SvVar};
use scc_svtree_order::{Rows, group_blocks};
use std::alloc::Global;

/// The groups of modules that lead to one another by their instances: a module that leads to others alone has a group after theirs.
pub fn groups(alloc: Global, h: &Hier) -> Result<Vec<usize>, NoMemory> {
    let modules = h.modules.as_slice();
    let mut rows = Rows::new(alloc);
    for m in modules {
        let mut row = List::new(alloc);
        for i in m.instances.as_slice() {
            if (i.module as usize) < modules.len() {
                row.push(i.module as usize)?;
            }
        }
        rows.push(row)?;
    }
    group_blocks(alloc, &rows)
}

fn width(vars: &[SvVar], var: u32) -> u32 {
    match vars.get(var as usize) {
        Some(v) => v.width,
        None => 0,
    }
}

// Whether the wires are the ports of the module, by name, order and width. Its ports stand before its other variables.
fn is_connected(vars: &[SvVar], inner: &[SvVar], i: &Instance, raw: &RawInstance) -> bool {
    let mut next = 0usize;
    for v in inner {
        if v.dir == Dir::Inner {
            break;
        }
        let (Some(wire), Some(written)) = (i.wires.get(next), raw.wires.get(next)) else {
            return false;
        };
        if v.name.bytes() != written.port.bytes() || v.width != width(vars, wire.0) {
            return false;
        }
        next = next.saturating_add(1);
    }
    next == i.wires.len()
}

// Whether two modules lead to each other.
fn is_same_group(groups: &[usize], a: usize, b: usize) -> bool {
    match (groups.get(a), groups.get(b)) {
        (Some(x), Some(y)) => *x == *y,
        _ => false,
    }
}

// The first wrong instance of a module.
fn first_in(
    modules: &[HierModule],
    groups: &[usize],
    k: usize,
    m: &HierModule,
    raw: &RawHier,
) -> Option<usize> {
    for (i, written) in m
        .instances
        .as_slice()
        .iter()
        .zip(raw.instances.as_slice().iter())
    {
        let right = match modules.get(i.module as usize) {
            Some(inner) => {
                !is_same_group(groups, k, i.module as usize)
                    && is_connected(m.vars.as_slice(), inner.vars.as_slice(), i, written)
            }
            None => false,
        };
        if !right {
            return Some(written.module.at);
        }
    }
    None
}

/// The place of the first instance of no module of the text, or of one that leads back to the module that holds it; or whose wires
/// aren't the ports of its module by name, order and width.
pub fn first_unconnected(h: &Hier, list: &[RawHier], groups: &[usize]) -> Option<usize> {
    let modules = h.modules.as_slice();
    for (k, (m, raw)) in modules.iter().zip(list.iter()).enumerate() {
        if let Some(at) = first_in(modules, groups, k, m, raw) {
            return Some(at);
        }
    }
    None
}

/// The modules, each after those whose instances it holds, where none leads to itself.
pub fn from_leaves(alloc: Global, groups: &[usize]) -> Result<Vec<usize>, NoMemory> {
    let mut order = Vec::new(alloc);
    for _ in groups {
        push(&mut order, usize::MAX)?;
    }
    for (k, place) in groups.iter().enumerate() {
        match order.get_mut(*place) {
            Some(slot) => *slot = k,
            None => return Err(lost()),
        }
    }
    Ok(order)
}
