//! Sizes and names of modules with instances.
use crate::raw::{RawHier, RawInstance, RawWire, name_place};
use scc_base::NoMemory;
use scc_svread_check::{TextSet, Wrong, first_wrong};
use scc_svread_grammar::{RawItem, RawModule};
use std::alloc::Global;

/// The first wrong size and the first wrong name, by their places in the text.
#[derive(Clone, Copy)]
pub struct Firsts {
    pub size: Option<usize>,
    pub name: Option<usize>,
}

fn least(found: Option<usize>, at: usize) -> Option<usize> {
    match found {
        Some(first) => Some(first.min(at)),
        None => Some(at),
    }
}

impl Firsts {
    fn size_at(self, at: usize) -> Firsts {
        Firsts {
            size: least(self.size, at),
            name: self.name,
        }
    }

    fn name_at(self, at: usize) -> Firsts {
        Firsts {
            size: self.size,
            name: least(self.name, at),
        }
    }
}

/// The names of a module's variables, in order.
pub fn names_of_vars(alloc: Global, m: &RawModule) -> Result<TextSet, NoMemory> {
    let mut vars = TextSet::new(alloc);
    for v in m.ports.as_slice() {
        vars.add(v.name.bytes())?;
    }
    for i in m.items.as_slice() {
        match i {
            RawItem::Var(v) => vars.add(v.name.bytes())?,
            RawItem::Block(_) => {}
        }
    }
    Ok(vars)
}

// The variables that the wires of an instance name.
fn wires(vars: &TextSet, list: &[RawWire], found: Firsts) -> Firsts {
    let mut firsts = found;
    for w in list {
        if !vars.has(w.var.text.bytes()) {
            firsts = firsts.name_at(w.var.at);
        }
    }
    firsts
}

// The names of instances, which are neither variables' nor those of instances before them.
fn instances(
    alloc: Global,
    vars: &TextSet,
    list: &[RawInstance],
    found: Firsts,
) -> Result<Firsts, NoMemory> {
    let mut firsts = found;
    let mut names = TextSet::new(alloc);
    for i in list {
        let name = i.name.text.bytes();
        if vars.has(name) || names.has(name) {
            firsts = firsts.name_at(i.name.at);
        }
        names.add(name)?;
        firsts = wires(vars, i.wires.as_slice(), firsts);
    }
    Ok(firsts)
}

// What is wrong in a module apart from its instances; which drivers are wrong is asked of the flattening.
fn without_instances(alloc: Global, m: &RawHier, found: Firsts) -> Result<Firsts, NoMemory> {
    Ok(match first_wrong(alloc, false, &m.module)? {
        Some(Wrong::Size(at)) => found.size_at(m.place_of(at)),
        Some(Wrong::Name(at)) => found.name_at(m.place_of(at)),
        Some(Wrong::Driver(_)) | None => found,
    })
}

/// The first wrong size of modules, and the first name that isn't declared or that stood before. A wrong name is found only where no
/// size of its module is wrong.
pub fn first_wrong_of(alloc: Global, list: &[RawHier]) -> Result<Firsts, NoMemory> {
    let mut found = Firsts {
        size: None,
        name: None,
    };
    let mut names = TextSet::new(alloc);
    for m in list {
        let name = m.module.name.bytes();
        if names.has(name) {
            found = found.name_at(name_place(m));
        }
        names.add(name)?;
        found = without_instances(alloc, m, found)?;
        let vars = names_of_vars(alloc, &m.module)?;
        found = instances(alloc, &vars, m.instances.as_slice(), found)?;
    }
    Ok(found)
}
