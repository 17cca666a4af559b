//! The modules of module objects apart from their names; those that are equal are made once.
use crate::block::{ids_in, renumbered_block};
use crate::names::{Named, behind, names_at_top, names_in};
use crate::plan::HierPlan;
use crate::ports::Parts;
use crate::tree::{Tree, put, put_in, row, rows};
use indexmap::IndexSet;
use scc_base::{List, NoMemory, Text, lost, push};
use scc_hier_text::{HierModule, Instance};
use scc_svtext::print;
use scc_svtree::{Dir, SvBlock, SvModule, SvVar, VarId};
use scc_svtree_renumber::UNDECLARED;
use std::alloc::Global;

/// Modules apart from their names, none of them twice.
#[derive(Drop)]
pub struct Bodies {
    /// The number of each module object's module.
    pub class: Vec<usize>,
    /// The modules by number. Their names are empty, and their instances name them by these numbers.
    pub made: Vec<Option<HierModule>>,
}

/// All that they are made from.
#[derive(Clone, Copy)]
pub struct Given<'a> {
    pub m: &'a SvModule,
    pub plans: &'a [HierPlan],
    pub tree: &'a Tree,
    pub parts: &'a Parts,
    /// The numbers of the blocks of each module object.
    pub blocks: &'a [Vec<usize>],
}

// What grows while they are made.
struct Making {
    keys: IndexSet<Vec<u8>>,
    bodies: Bodies,
    /// The variables of the ports of each module object, in the order of the ports.
    wires: Vec<Vec<usize>>,
    /// For each variable 0, but while ports are named.
    places: Vec<usize>,
    /// For each variable its number in the module that is being made, where it has one.
    ids: Vec<u32>,
}

// One call at each exit of what owns it.
impl Drop for Making {
    fn drop(self) {
        let Making {
            keys: _keys,
            bodies: _bodies,
            wires: _wires,
            places: _places,
            ids: _ids,
        } = self;
    }
}

impl Making {
    // Nothing is made yet.
    fn new(alloc: Global, given: Given<'_>) -> Result<Making, NoMemory> {
        let class = vec![in alloc; 0; given.plans.len()]?;
        let places = vec![in alloc; 0; given.m.vars.len()]?;
        let ids = vec![in alloc; UNDECLARED; given.m.vars.len()]?;
        let wires = rows(alloc, given.plans.len())?;
        Ok(Making {
            keys: IndexSet::new(alloc),
            bodies: Bodies {
                class,
                made: Vec::new(alloc),
            },
            wires,
            places,
            ids,
        })
    }

    fn into_bodies(self) -> Bodies {
        let Making {
            keys: _keys,
            bodies,
            wires: _wires,
            places: _places,
            ids: _ids,
        } = self;
        bodies
    }
}

fn set(ids: &mut Vec<u32>, at: usize, id: u32) -> Result<(), NoMemory> {
    match ids.get_mut(at) {
        Some(old) => {
            *old = id;
            Ok(())
        }
        None => Err(lost()),
    }
}

fn get(ids: &[u32], at: usize) -> Result<u32, NoMemory> {
    match ids.get(at) {
        Some(id) if *id != UNDECLARED => Ok(*id),
        Some(_) | None => Err(lost()),
    }
}

fn number(named: &[Named], ids: &mut Vec<u32>) -> Result<(), NoMemory> {
    for (i, n) in named.iter().enumerate() {
        let Ok(id) = u32::try_from(i) else {
            return Err(lost());
        };
        set(ids, n.var, id)?;
    }
    Ok(())
}

fn forget(named: &[Named], ids: &mut Vec<u32>) -> Result<(), NoMemory> {
    for n in named {
        set(ids, n.var, UNDECLARED)?;
    }
    Ok(())
}

fn names_of(
    alloc: Global,
    k: usize,
    given: Given<'_>,
    places: &mut Vec<usize>,
) -> Result<Vec<Named>, NoMemory> {
    let declared = row(given.parts.declared.as_slice(), k)?;
    if k == 0 {
        return names_at_top(alloc, given.m, declared);
    }
    let (Some(plan), Some(ports)) = (given.plans.get(k), given.parts.ports.get(k)) else {
        return Err(lost());
    };
    names_in(alloc, given.m, plan, ports.as_slice(), declared, places)
}

// The variables of the ports go into the row of the module object.
fn note_wires(named: &[Named], k: usize, wires: &mut Vec<Vec<usize>>) -> Result<(), NoMemory> {
    for n in named {
        if n.dir != Dir::Inner {
            put_in(wires, k, n.var)?;
        }
    }
    Ok(())
}

fn blocks_of(
    alloc: Global,
    k: usize,
    given: Given<'_>,
    ids: &[u32],
) -> Result<List<SvBlock>, NoMemory> {
    let mut out = List::new(alloc);
    for b in row(given.blocks, k)? {
        let Some(block) = given.m.blocks.get(*b) else {
            return Err(lost());
        };
        out.push(renumbered_block(alloc, block, ids_in(ids))?)?;
    }
    Ok(out)
}

// The path without that of the module object around it.
fn instance_name(alloc: Global, c: usize, plans: &[HierPlan]) -> Result<Text, NoMemory> {
    let Some(plan) = plans.get(c) else {
        return Err(lost());
    };
    let Some(parent) = plans.get(plan.parent as usize) else {
        return Err(lost());
    };
    if plan.parent == 0 {
        return Text::from_bytes(alloc, plan.path.bytes());
    }
    match behind(parent.path.bytes(), plan.path.bytes()) {
        Some(name) => Text::from_bytes(alloc, name),
        None => Err(lost()),
    }
}

fn wires_of(alloc: Global, vars: &[usize], ids: &[u32]) -> Result<List<VarId>, NoMemory> {
    let mut out = List::new(alloc);
    for v in vars {
        out.push(VarId(get(ids, *v)?))?;
    }
    Ok(out)
}

fn instances_of(
    alloc: Global,
    k: usize,
    given: Given<'_>,
    making: &Making,
) -> Result<List<Instance>, NoMemory> {
    let mut out = List::new(alloc);
    for c in row(given.tree.children.as_slice(), k)? {
        let Some(class) = making.bodies.class.get(*c) else {
            return Err(lost());
        };
        let Ok(module) = u32::try_from(*class) else {
            return Err(lost());
        };
        let vars = row(making.wires.as_slice(), *c)?;
        out.push(Instance {
            module,
            name: instance_name(alloc, *c, given.plans)?,
            wires: wires_of(alloc, vars, making.ids.as_slice())?,
        })?;
    }
    Ok(out)
}

fn vars_of(alloc: Global, named: Vec<Named>, m: &SvModule) -> Result<List<SvVar>, NoMemory> {
    let mut out = List::new(alloc);
    for n in named {
        let Some(v) = m.vars.get(n.var) else {
            return Err(lost());
        };
        let Named { name, dir, .. } = n;
        out.push(SvVar {
            name,
            width: v.width,
            dir,
        })?;
    }
    Ok(out)
}

fn put_instance(key: &mut Text, i: &Instance) -> Result<(), NoMemory> {
    key.push_bytes(&i.module.to_be_bytes())?;
    key.push_bytes(i.name.bytes())?;
    key.push_bytes(b" ")?;
    for wire in i.wires.as_slice() {
        key.push_bytes(&wire.0.to_be_bytes())?;
    }
    Ok(())
}

// The text without a name, then the instances: a module's number says how many wires there are. Equal modules alone have equal
// keys.
fn key_of(alloc: Global, m: &SvModule, instances: &[Instance]) -> Result<Vec<u8>, NoMemory> {
    let mut key = print(alloc, m)?;
    for i in instances {
        put_instance(&mut key, i)?;
    }
    Ok(Vec::from_slice(alloc, key.bytes())?)
}

// The number of a module, which is kept if it is new.
fn class_of(
    alloc: Global,
    making: &mut Making,
    m: SvModule,
    instances: List<Instance>,
) -> Result<usize, NoMemory> {
    let key = key_of(alloc, &m, instances.as_slice())?;
    let (class, new) = making.keys.insert_full(key)?;
    if new {
        let SvModule { name, vars, blocks } = m;
        push(
            &mut making.bodies.made,
            Some(HierModule {
                name,
                vars,
                instances,
                blocks,
            }),
        )?;
    }
    Ok(class)
}

// The module of a module object, after those of the ones in it.
fn make(alloc: Global, k: usize, given: Given<'_>, making: &mut Making) -> Result<(), NoMemory> {
    let named = names_of(alloc, k, given, &mut making.places)?;
    note_wires(named.as_slice(), k, &mut making.wires)?;
    number(named.as_slice(), &mut making.ids)?;
    let blocks = blocks_of(alloc, k, given, making.ids.as_slice())?;
    let instances = instances_of(alloc, k, given, making)?;
    forget(named.as_slice(), &mut making.ids)?;
    let m = SvModule {
        name: Text::new(alloc),
        vars: vars_of(alloc, named, given.m)?,
        blocks,
    };
    let class = class_of(alloc, making, m, instances)?;
    put(&mut making.bodies.class, k, class)
}

/// The modules of module objects.
pub fn bodies_of(alloc: Global, given: Given<'_>) -> Result<Bodies, NoMemory> {
    let mut making = Making::new(alloc, given)?;
    for k in (0..given.plans.len()).rev() {
        make(alloc, k, given, &mut making)?;
    }
    Ok(making.into_bodies())
}
