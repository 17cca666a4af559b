//! Where variables are declared, and of which module objects they are ports.
use crate::mention::vars_of;
use crate::paths::Paths;
use crate::plan::HierPlan;
use crate::tree::{Tree, at, put, put_in, row, rows};
use scc_base::{NoMemory, lost, push};
use scc_svtree::{Dir, SvModule, SvVar};
use std::alloc::Global;

/// What module objects have of the variables of a module.
#[derive(Drop)]
pub struct Parts {
    /// The variables that each declares.
    pub declared: Vec<Vec<usize>>,
    /// The ports of each.
    pub ports: Vec<Vec<Port>>,
}

/// A port: the variable that it is, and whether a block of the module object or of those in it assigns it.
#[derive(Clone, Copy)]
pub struct Port {
    pub var: usize,
    pub output: bool,
}

// For each variable, the homes of the blocks that mention and that assign it, as often as they do.
#[derive(Drop)]
struct Uses {
    mentioned: Vec<Vec<usize>>,
    assigned: Vec<Vec<usize>>,
}

fn uses_of(alloc: Global, m: &SvModule, homes: &[u32]) -> Result<Uses, NoMemory> {
    let mut uses = Uses {
        mentioned: rows(alloc, m.vars.len())?,
        assigned: rows(alloc, m.vars.len())?,
    };
    for (b, home) in m.blocks.as_slice().iter().zip(homes.iter()) {
        let found = vars_of(alloc, b)?;
        for v in found.all.iter() {
            put_in(&mut uses.mentioned, *v, *home as usize)?;
        }
        for v in found.assigned.iter() {
            put_in(&mut uses.assigned, *v, *home as usize)?;
        }
    }
    Ok(uses)
}

fn paths_of(alloc: Global, plans: &[HierPlan]) -> Result<Paths, NoMemory> {
    let mut paths = Paths::new(alloc);
    for (k, plan) in plans.iter().enumerate() {
        if k > 0 {
            paths.add(plan.path.bytes())?;
        }
    }
    Ok(paths)
}

// The lowest module object around the one that a variable belongs to and the homes of what mentions it; a port of the module stands
// at the top.
fn lowest(tree: &Tree, owner: usize, mentioned: &[usize], dir: Dir) -> Result<usize, NoMemory> {
    let mut span = tree.alone(owner)?;
    for home in mentioned {
        span = tree.with(span, *home)?;
    }
    if dir != Dir::Inner {
        span = tree.with(span, 0)?;
    }
    tree.lowest(span)
}

/// What is known while the ports are found.
#[derive(Drop)]
struct Finding {
    parts: Parts,
    /// For each module object 1 + the last variable that was found to be a port of it.
    stamps: Vec<usize>,
}

impl Finding {
    // A variable as a port of the module objects from one up to one that has it, or below which it is declared.
    fn climb(&mut self, tree: &Tree, from: usize, low: usize, port: Port) -> Result<(), NoMemory> {
        let mut here = from;
        for _ in 0..usize::MAX {
            if here == low || at(self.stamps.as_slice(), here)? == port.var.saturating_add(1) {
                return Ok(());
            }
            put(&mut self.stamps, here, port.var.saturating_add(1))?;
            match self.parts.ports.get_mut(here) {
                Some(row) => push(row, port)?,
                None => return Err(lost()),
            }
            here = at(tree.parent.as_slice(), here)?;
        }
        Err(lost())
    }

    // One variable.
    fn add(
        &mut self,
        tree: &Tree,
        var: usize,
        low: usize,
        owner: usize,
        uses: &Uses,
    ) -> Result<(), NoMemory> {
        put_in(&mut self.parts.declared, low, var)?;
        for home in row(uses.assigned.as_slice(), var)? {
            self.climb(tree, *home, low, Port { var, output: true })?;
        }
        let port = Port { var, output: false };
        for home in row(uses.mentioned.as_slice(), var)? {
            self.climb(tree, *home, low, port)?;
        }
        self.climb(tree, owner, low, port)
    }
}

fn found(
    alloc: Global,
    vars: &[SvVar],
    plans: &[HierPlan],
    tree: &Tree,
    uses: &Uses,
) -> Result<Parts, NoMemory> {
    let paths = paths_of(alloc, plans)?;
    let mut ports = Vec::new(alloc);
    for _ in plans {
        push(&mut ports, Vec::new(alloc))?;
    }
    let mut finding = Finding {
        parts: Parts {
            declared: rows(alloc, plans.len())?,
            ports,
        },
        stamps: vec![in alloc; 0; plans.len()]?,
    };
    for (var, v) in vars.iter().enumerate() {
        let owner = paths.owner(v.name.bytes());
        let low = lowest(tree, owner, row(uses.mentioned.as_slice(), var)?, v.dir)?;
        finding.add(tree, var, low, owner, uses)?;
    }
    let Finding { parts, .. } = finding;
    Ok(parts)
}

/// Where the variables of a module are declared, and of which module objects they are ports; each list is in the module's order.
pub fn parts_of(
    alloc: Global,
    m: &SvModule,
    plans: &[HierPlan],
    homes: &[u32],
    tree: &Tree,
) -> Result<Parts, NoMemory> {
    let uses = uses_of(alloc, m, homes)?;
    found(alloc, m.vars.as_slice(), plans, tree, &uses)
}
