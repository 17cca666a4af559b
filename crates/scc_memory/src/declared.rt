//! The variables of a module with memories.
use crate::module::Memory;
use scc_base::{List, NoMemory, Text, lost, push};
use scc_memory_arrays::{Array, Arrays};
use scc_svtree::{Dir, SvVar, VarId};
use std::alloc::Global;

/// The number of a variable that gave way to a memory.
const GONE: u32 = u32::MAX;

/// Variables and memories, and the numbers that a module's variables and arrays have among them.
#[derive(Drop)]
pub struct Declared {
    pub vars: List<SvVar>,
    pub memories: List<Memory>,
    /// For each variable of the module its number.
    pub ids: Vec<u32>,
    /// For each array the number of its memory.
    pub numbers: Vec<u32>,
}

/// Those of a module with arrays that become memories.
pub fn declare(alloc: Global, vars: &[SvVar], arrays: &Arrays) -> Result<Declared, NoMemory> {
    let mut out = Declared {
        vars: List::new(alloc),
        memories: List::new(alloc),
        ids: Vec::new(alloc),
        numbers: Vec::new(alloc),
    };
    for _array in arrays.list.iter() {
        push(&mut out.numbers, GONE)?;
    }
    let mut number = 0u32;
    for v in vars {
        let id = VarId(number);
        let spot = match arrays.element(id) {
            Some(spot) => Some(spot),
            None => arrays.next(id),
        };
        match spot {
            Some(spot) => out.part(alloc, arrays, spot.array)?,
            None => out.other(alloc, v)?,
        }
        number = number.saturating_add(1);
    }
    Ok(out)
}

impl Declared {
    fn put(&mut self, name: Text, width: u32, dir: Dir) -> Result<u32, NoMemory> {
        let Ok(number) = u32::try_from(self.vars.len()) else {
            return Err(lost());
        };
        self.vars.push(SvVar { name, width, dir })?;
        Ok(number)
    }

    fn other(&mut self, alloc: Global, v: &SvVar) -> Result<(), NoMemory> {
        let name = Text::from_bytes(alloc, v.name.bytes())?;
        let id = self.put(name, v.width, v.dir)?;
        push(&mut self.ids, id)
    }

    // A variable of an array; the memory stands in place of its first one.
    fn part(&mut self, alloc: Global, arrays: &Arrays, number: u32) -> Result<(), NoMemory> {
        push(&mut self.ids, GONE)?;
        let (Some(array), Some(known)) = (arrays.get(number), self.numbers.get(number as usize))
        else {
            return Err(lost());
        };
        if *known != GONE {
            return Ok(());
        }
        let Ok(memory) = u32::try_from(self.memories.len()) else {
            return Err(lost());
        };
        self.memory(alloc, array)?;
        match self.numbers.get_mut(number as usize) {
            Some(old) => {
                *old = memory;
                Ok(())
            }
            None => Err(lost()),
        }
    }

    fn memory(&mut self, alloc: Global, array: &Array) -> Result<(), NoMemory> {
        let name = array.name.bytes();
        let Ok(size) = u32::try_from(array.size()) else {
            return Err(lost());
        };
        let write = self.put(ended(alloc, name, b"$$w")?, 1, Dir::Inner)?;
        let address = self.put(ended(alloc, name, b"$$a")?, array.address, Dir::Inner)?;
        let value = self.put(ended(alloc, name, b"$$d")?, array.width, Dir::Inner)?;
        self.memories.push(Memory {
            name: Text::from_bytes(alloc, name)?,
            width: array.width,
            size,
            write: VarId(write),
            address: VarId(address),
            value: VarId(value),
        })
    }

    /// The number of a variable.
    pub fn id(&self, v: VarId) -> Result<VarId, NoMemory> {
        match self.ids.get(v.0 as usize) {
            Some(id) if *id != GONE => Ok(VarId(*id)),
            Some(_) | None => Err(lost()),
        }
    }

    /// The number of an array's memory.
    pub fn number(&self, array: u32) -> Result<u32, NoMemory> {
        match self.numbers.get(array as usize) {
            Some(number) if *number != GONE => Ok(*number),
            Some(_) | None => Err(lost()),
        }
    }

    /// An array's memory.
    pub fn memory_of(&self, array: u32) -> Result<&Memory, NoMemory> {
        let number = self.number(array)?;
        match self.memories.get(number as usize) {
            Some(memory) => Ok(memory),
            None => Err(lost()),
        }
    }
}

fn ended(alloc: Global, name: &[u8], end: &[u8]) -> Result<Text, NoMemory> {
    let mut text = Text::from_bytes(alloc, name)?;
    text.push_bytes(end)?;
    Ok(text)
}
