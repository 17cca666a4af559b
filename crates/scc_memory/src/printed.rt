//! The text of a module with memories.
use crate::module::{MemModule, Memory};
use crate::printing::Spelled;
use crate::written::block;
use scc_base::{List, NoMemory, Text, lost, push};
use scc_svtext::pieces::{Fixed, decl, fixed, number, ports, spell, spellings};
use std::alloc::Global;

/// The text of a module with memories (IEEE 1800-2017, 7.4.2): that of `print` of `scc_svtext`, with declarations, elements and writes
/// of memories. It refuses nothing; the only error is want of memory.
pub fn print_memory(alloc: Global, m: &MemModule) -> Result<Text, NoMemory> {
    let vars = m.vars.as_slice();
    let vars_spelled = spellings(alloc, vars)?;
    let memories = memories_spelled(alloc, m)?;
    let names = Spelled {
        vars: vars_spelled.as_slice(),
        memories: memories.as_slice(),
    };
    let mut out = Text::new(alloc);
    fixed(&mut out, Fixed::Module)?;
    spell(&mut out, &m.name)?;
    fixed(&mut out, Fixed::PortsOpen)?;
    ports(&mut out, vars)?;
    fixed(&mut out, Fixed::PortsClose)?;
    decls(alloc, &mut out, m, names)?;
    for b in m.blocks.as_slice() {
        block(alloc, &mut out, m, names, b)?;
    }
    fixed(&mut out, Fixed::ModuleEnd)?;
    Ok(out)
}

fn memories_spelled(alloc: Global, m: &MemModule) -> Result<List<Text>, NoMemory> {
    let mut list = List::new(alloc);
    for memory in m.memories.as_slice() {
        let mut name = Text::new(alloc);
        spell(&mut name, &memory.name)?;
        list.push(name)?;
    }
    Ok(list)
}

// For each variable the memory that is declared before it.
fn places(alloc: Global, m: &MemModule) -> Result<Vec<Option<usize>>, NoMemory> {
    let mut places = Vec::new(alloc);
    for _v in m.vars.as_slice() {
        push(&mut places, None)?;
    }
    for (number, memory) in m.memories.as_slice().iter().enumerate() {
        match places.get_mut(memory.write.0 as usize) {
            Some(place) => *place = Some(number),
            None => return Err(lost()),
        }
    }
    Ok(places)
}

// The variables that are no ports, and each memory before the variable that tells whether it is written.
fn decls(alloc: Global, out: &mut Text, m: &MemModule, names: Spelled<'_>) -> Result<(), NoMemory> {
    let places = places(alloc, m)?;
    for (v, place) in m.vars.as_slice().iter().zip(places.iter()) {
        if let Some(number) = place {
            let (Some(memory), Some(name)) = (m.memories.get(*number), names.memories.get(*number))
            else {
                return Err(lost());
            };
            memory_decl(out, memory, name)?;
        }
        decl(out, v)?;
    }
    Ok(())
}

fn memory_decl(out: &mut Text, memory: &Memory, name: &Text) -> Result<(), NoMemory> {
    fixed(out, Fixed::Decl)?;
    fixed(out, Fixed::SelectOpen)?;
    number(out, memory.width.saturating_sub(1))?;
    fixed(out, Fixed::RangeClose)?;
    out.push_bytes(name.bytes())?;
    out.push_bytes(b" [0:")?;
    number(out, memory.size.saturating_sub(1))?;
    out.push_bytes(b"];\n")
}
