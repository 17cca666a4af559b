//! The variables of a module whose memories are arrays again.
use crate::module::{MemModule, Memory};
use itoa::Buffer;
use scc_base::{List, NoMemory, Text, lost, push};
use scc_svtree::{Dir, SvVar, VarId};
use std::alloc::Global;

/// Variables, and the numbers that a module's variables and memories have among them.
#[derive(Drop)]
pub struct Opened {
    pub vars: List<SvVar>,
    /// For each variable its number; none for those of memories.
    ids: Vec<Option<u32>>,
    /// For each memory the number of its first element. After each element stands its next value.
    firsts: Vec<u32>,
    /// For each variable the memory to which it belongs.
    pub of: Vec<Option<u32>>,
}

/// Those of a module.
pub fn open_all(alloc: Global, m: &MemModule) -> Result<Opened, NoMemory> {
    let mut out = Opened {
        vars: List::new(alloc),
        ids: Vec::new(alloc),
        firsts: Vec::new(alloc),
        of: memories_of(alloc, m)?,
    };
    for _memory in m.memories.as_slice() {
        push(&mut out.firsts, 0)?;
    }
    for (number, v) in m.vars.as_slice().iter().enumerate() {
        match out.of.get(number).copied().flatten() {
            Some(memory) => {
                push(&mut out.ids, None)?;
                let Some(known) = m.memories.get(memory as usize) else {
                    return Err(lost());
                };
                if known.write.0 as usize == number {
                    out.memory(alloc, memory, known)?;
                }
            }
            None => {
                let name = Text::from_bytes(alloc, v.name.bytes())?;
                let id = out.put(name, v.width, v.dir)?;
                push(&mut out.ids, Some(id))?;
            }
        }
    }
    Ok(out)
}

// For each variable the memory to which it belongs.
fn memories_of(alloc: Global, m: &MemModule) -> Result<Vec<Option<u32>>, NoMemory> {
    let mut of = Vec::new(alloc);
    for _v in m.vars.as_slice() {
        push(&mut of, None)?;
    }
    let mut number = 0u32;
    for memory in m.memories.as_slice() {
        for v in [memory.write, memory.address, memory.value] {
            match of.get_mut(v.0 as usize) {
                Some(old) => *old = Some(number),
                None => return Err(lost()),
            }
        }
        number = number.saturating_add(1);
    }
    Ok(of)
}

impl Opened {
    fn put(&mut self, name: Text, width: u32, dir: Dir) -> Result<u32, NoMemory> {
        let Ok(number) = u32::try_from(self.vars.len()) else {
            return Err(lost());
        };
        self.vars.push(SvVar { name, width, dir })?;
        Ok(number)
    }

    fn memory(&mut self, alloc: Global, number: u32, memory: &Memory) -> Result<(), NoMemory> {
        let Ok(first) = u32::try_from(self.vars.len()) else {
            return Err(lost());
        };
        match self.firsts.get_mut(number as usize) {
            Some(old) => *old = first,
            None => return Err(lost()),
        }
        for at in 0..memory.size {
            let mut name = Text::from_bytes(alloc, memory.name.bytes())?;
            name.push_bytes(b"$")?;
            let mut buffer = Buffer::new();
            name.push_bytes(buffer.format(at).as_bytes())?;
            let mut next = Text::from_bytes(alloc, name.bytes())?;
            next.push_bytes(b"$$n")?;
            let _element = self.put(name, memory.width, Dir::Inner)?;
            let _next = self.put(next, memory.width, Dir::Inner)?;
        }
        Ok(())
    }

    /// The number of a variable that belongs to no memory.
    pub fn id(&self, v: VarId) -> Option<VarId> {
        self.ids.get(v.0 as usize).copied().flatten().map(VarId)
    }

    /// The number of an element of a memory.
    pub fn element(&self, memory: u32, at: u32) -> Result<VarId, NoMemory> {
        let Some(first) = self.firsts.get(memory as usize) else {
            return Err(lost());
        };
        match at.checked_mul(2).and_then(|n| n.checked_add(*first)) {
            Some(id) => Ok(VarId(id)),
            None => Err(lost()),
        }
    }

    /// The number of an element's next value.
    pub fn next(&self, memory: u32, at: u32) -> Result<VarId, NoMemory> {
        let VarId(element) = self.element(memory, at)?;
        match element.checked_add(1) {
            Some(id) => Ok(VarId(id)),
            None => Err(lost()),
        }
    }

    /// The width of a variable.
    pub fn width(&self, v: VarId) -> Result<u32, NoMemory> {
        match self.vars.get(v.0 as usize) {
            Some(var) => Ok(var.width),
            None => Err(lost()),
        }
    }
}
