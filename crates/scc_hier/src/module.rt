//! A module as modules that hold instances of one another.
use crate::bodies::{Bodies, Given, bodies_of};
use crate::plan::HierPlan;
use crate::ports::parts_of;
use crate::tree::{at, put, put_in, rows, tree_of};
use scc_base::{List, NoMemory, Text, lost, push};
use scc_hier_text::{Hier, HierModule, Instance};
use scc_svtree::SvModule;
use std::alloc::Global;

// No number yet.
const NONE: usize = usize::MAX;

fn homed(alloc: Global, plans: usize, homes: &[u32]) -> Result<Vec<Vec<usize>>, NoMemory> {
    let mut blocks = rows(alloc, plans)?;
    for (b, home) in homes.iter().enumerate() {
        put_in(&mut blocks, *home as usize, b)?;
    }
    Ok(blocks)
}

/// In which order modules stand.
#[derive(Drop)]
struct Numbers {
    /// The place of each of them, or `NONE`.
    of: Vec<usize>,
    /// The first module object of each, by its place.
    first: Vec<usize>,
}

// Each module stands where the walk meets it first.
fn numbered(alloc: Global, bodies: &Bodies, walk: &[usize]) -> Result<Numbers, NoMemory> {
    let mut numbers = Numbers {
        of: vec![in alloc; NONE; bodies.made.len()]?,
        first: Vec::new(alloc),
    };
    for k in walk {
        let class = at(bodies.class.as_slice(), *k)?;
        if at(numbers.of.as_slice(), class)? == NONE {
            let next = numbers.first.len();
            put(&mut numbers.of, class, next)?;
            push(&mut numbers.first, *k)?;
        }
    }
    Ok(numbers)
}

fn instances_with(
    alloc: Global,
    list: List<Instance>,
    of: &[usize],
) -> Result<List<Instance>, NoMemory> {
    let mut out = List::new(alloc);
    for i in list.into_vec() {
        let Instance {
            module,
            name,
            wires,
        } = i;
        let Ok(module) = u32::try_from(at(of, module as usize)?) else {
            return Err(lost());
        };
        out.push(Instance {
            module,
            name,
            wires,
        })?;
    }
    Ok(out)
}

// That of the module; at another than the top with `$` and its path.
fn name_of(alloc: Global, m: &SvModule, k: usize, plans: &[HierPlan]) -> Result<Text, NoMemory> {
    let mut name = Text::from_bytes(alloc, m.name.bytes())?;
    if k > 0 {
        let Some(plan) = plans.get(k) else {
            return Err(lost());
        };
        name.push_bytes(b"$")?;
        name.push_bytes(plan.path.bytes())?;
    }
    Ok(name)
}

fn taken(made: &mut Vec<Option<HierModule>>, class: usize) -> Result<HierModule, NoMemory> {
    match made.get_mut(class) {
        Some(slot) => match slot.take() {
            Some(m) => Ok(m),
            None => Err(lost()),
        },
        None => Err(lost()),
    }
}

fn modules(
    alloc: Global,
    m: &SvModule,
    plans: &[HierPlan],
    bodies: Bodies,
    numbers: &Numbers,
) -> Result<List<HierModule>, NoMemory> {
    let Bodies { class, mut made } = bodies;
    let mut out = List::new(alloc);
    for k in numbers.first.iter() {
        let HierModule {
            vars,
            instances,
            blocks,
            ..
        } = taken(&mut made, at(class.as_slice(), *k)?)?;
        out.push(HierModule {
            name: name_of(alloc, m, *k, plans)?,
            vars,
            instances: instances_with(alloc, instances, numbers.of.as_slice())?,
            blocks,
        })?;
    }
    Ok(out)
}

/// A module as one module for each module object, with instances (this project's own): `homes` has the number of a plan for each
/// block. Module objects whose modules are equal apart from their names share the first one's. The top stands first, and each other
/// at its first use in a walk of the instances in their order, each followed at once by those in it.
///
/// A variable belongs to the module object with the longest path such that its name begins with that path and `$`, else to the top.
/// It is declared in the lowest module object around the one that it belongs to and the homes of all blocks that mention it, a port
/// of the module in the top; and is a port of each below that on the way to one of them: an output where a block of that module object
/// or of one in it assigns it, else an input. Where it is declared, its name stands without the path and the `$` after it. As a port
/// it has the name that the plan gives; else its name without the path; else `outer$$K`, counted from 0.
///
/// The only error is want of memory. The plans are as `HierPlan` says, each number is in range, and the module is one that the reader of
/// emitted texts accepts.
pub fn hier(
    alloc: Global,
    m: &SvModule,
    plans: &[HierPlan],
    homes: &[u32],
) -> Result<Hier, NoMemory> {
    if plans.is_empty() || homes.len() != m.blocks.len() {
        return Err(lost());
    }
    let tree = tree_of(alloc, plans)?;
    let parts = parts_of(alloc, m, plans, homes, &tree)?;
    let blocks = homed(alloc, plans.len(), homes)?;
    let given = Given {
        m,
        plans,
        tree: &tree,
        parts: &parts,
        blocks: blocks.as_slice(),
    };
    let bodies = bodies_of(alloc, given)?;
    let numbers = numbered(alloc, &bodies, tree.walk.as_slice())?;
    let modules = modules(alloc, m, plans, bodies, &numbers)?;
    Ok(Hier { modules })
}
