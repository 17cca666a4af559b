//! Prints modules with instances.
use crate::tree::{Hier, HierModule, Instance};
use scc_base::{NoMemory, Text, lost};
use scc_svtext::pieces::{Fixed, blocks, decls, ports, spell, spellings};
use scc_svtree::{Dir, SvVar, VarId};
use std::alloc::Global;

/// The text of modules, one after the other as they stand in the list. An instance names a module of the list, and has as many wires
/// as that has ports, each a variable of the module around it. It refuses nothing; the only error is want of memory.
pub fn print_hier(alloc: Global, h: &Hier) -> Result<Text, NoMemory> {
    let mut out = Text::new(alloc);
    let modules = h.modules.as_slice();
    for m in modules {
        module(alloc, &mut out, modules, m)?;
    }
    Ok(out)
}

fn module(
    alloc: Global,
    out: &mut Text,
    modules: &[HierModule],
    m: &HierModule,
) -> Result<(), NoMemory> {
    let vars = m.vars.as_slice();
    let names = spellings(alloc, vars)?;
    head(out, &m.name, vars)?;
    for i in m.instances.as_slice() {
        instance(out, modules, names.as_slice(), i)?;
    }
    blocks(alloc, out, vars, names.as_slice(), m.blocks.as_slice())?;
    out.push_bytes(Fixed::ModuleEnd.bytes())
}

// A module up to its declarations' end.
fn head(out: &mut Text, name: &Text, vars: &[SvVar]) -> Result<(), NoMemory> {
    out.push_bytes(Fixed::Module.bytes())?;
    spell(out, name)?;
    out.push_bytes(Fixed::PortsOpen.bytes())?;
    ports(out, vars)?;
    out.push_bytes(Fixed::PortsClose.bytes())?;
    decls(out, vars)
}

fn instance(
    out: &mut Text,
    modules: &[HierModule],
    names: &[Text],
    i: &Instance,
) -> Result<(), NoMemory> {
    let Some(inner) = modules.get(i.module as usize) else {
        return Err(lost());
    };
    out.push_bytes(b"  ")?;
    spell(out, &inner.name)?;
    out.push_bytes(b" ")?;
    spell(out, &i.name)?;
    out.push_bytes(b" (")?;
    wires(out, names, inner.vars.as_slice(), i.wires.as_slice())?;
    out.push_bytes(b");\n")
}

fn wires(out: &mut Text, names: &[Text], inner: &[SvVar], wires: &[VarId]) -> Result<(), NoMemory> {
    let mut next = 0usize;
    for v in inner {
        if v.dir != Dir::Inner {
            let Some(wire) = wires.get(next) else {
                return Err(lost());
            };
            if next > 0 {
                out.push_bytes(b", ")?;
            }
            connection(out, names, v, *wire)?;
            next = next.saturating_add(1);
        }
    }
    if next == wires.len() {
        Ok(())
    } else {
        Err(lost())
    }
}

fn connection(out: &mut Text, names: &[Text], port: &SvVar, wire: VarId) -> Result<(), NoMemory> {
    let Some(name) = names.get(wire.0 as usize) else {
        return Err(lost());
    };
    out.push_bytes(b".")?;
    spell(out, &port.name)?;
    out.push_bytes(b"(")?;
    out.push_bytes(name.bytes())?;
    out.push_bytes(b")")
}
