//! Modules with instances as trees without names.
use crate::checked::names_of_vars;
use crate::raw::{RawHier, RawInstance};
use scc_base::{List, NoMemory, Text, lost};
use scc_hier_text::{Hier, HierModule, Instance};
use scc_svread::module_of;
use scc_svread_check::TextSet;
use scc_svtree::{SvModule, VarId};
use std::alloc::Global;

// The number of no module.
const NOWHERE: u32 = u32::MAX;

// The names of modules, in order.
fn names_of(alloc: Global, list: &[RawHier]) -> Result<TextSet, NoMemory> {
    let mut names = TextSet::new(alloc);
    for m in list {
        names.add(m.module.name.bytes())?;
    }
    Ok(names)
}

fn number(names: &TextSet, name: &[u8]) -> Result<Option<u32>, NoMemory> {
    match names.index(name) {
        Some(i) => match u32::try_from(i) {
            Ok(i) => Ok(Some(i)),
            Err(_) => Err(lost()),
        },
        None => Ok(None),
    }
}

fn instance(
    alloc: Global,
    names: &TextSet,
    vars: &TextSet,
    i: &RawInstance,
) -> Result<Instance, NoMemory> {
    let mut wires = List::new(alloc);
    for w in i.wires.as_slice() {
        match number(vars, w.var.text.bytes())? {
            Some(v) => wires.push(VarId(v))?,
            None => return Err(lost()),
        }
    }
    let module = match number(names, i.module.text.bytes())? {
        Some(module) => module,
        None => NOWHERE,
    };
    Ok(Instance {
        module,
        name: Text::from_bytes(alloc, i.name.text.bytes())?,
        wires,
    })
}

fn module(alloc: Global, names: &TextSet, m: &RawHier) -> Result<HierModule, NoMemory> {
    let SvModule { name, vars, blocks } = module_of(alloc, &m.module)?;
    let known = names_of_vars(alloc, &m.module)?;
    let mut instances = List::new(alloc);
    for i in m.instances.as_slice() {
        instances.push(instance(alloc, names, &known, i)?)?;
    }
    Ok(HierModule {
        name,
        vars,
        instances,
        blocks,
    })
}

/// The modules that are written so, in which each name is declared once. An instance of a module that isn't in the text has the
/// number of none.
pub fn made(alloc: Global, list: &[RawHier]) -> Result<Hier, NoMemory> {
    let names = names_of(alloc, list)?;
    let mut modules = List::new(alloc);
    for m in list {
        modules.push(module(alloc, &names, m)?)?;
    }
    Ok(Hier { modules })
}
