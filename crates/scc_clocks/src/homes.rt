//! The part to which each process belongs.
use scc_base::{List, NoMemory, lost, push};
use scc_core::Core;
use std::alloc::Global;

/// The part of a cell that is no clock, and of one that no process writes.
pub const NOWHERE: u32 = u32::MAX;

/// Where each process of a core stands among the parts: a part for each clock, and a last one for the combinational methods.
pub struct Homes {
    /// The clocks' cells, ascending.
    clocks: List<u32>,
    /// For each process its part.
    parts: Vec<u32>,
    /// For each process its number in its part.
    numbers: Vec<u32>,
    /// How many processes each part has.
    pub sizes: Vec<u32>,
}

// One call at each exit of what owns them.
impl Drop for Homes {
    fn drop(self) {
        let Homes {
            clocks: _clocks,
            parts: _parts,
            numbers: _numbers,
            sizes: _sizes,
        } = self;
    }
}

/// Those of a core.
pub fn homes_of(alloc: Global, c: &Core) -> Result<Homes, NoMemory> {
    let clocks = clocks_of(alloc, c)?;
    let parts = parts_of(alloc, c.cells.len(), clocks.as_slice())?;
    let mut homes = Homes {
        clocks,
        parts: Vec::new(alloc),
        numbers: Vec::new(alloc),
        sizes: Vec::new(alloc),
    };
    let mut last = 0u32;
    for _ in 0..homes.clocks.len() {
        push(&mut homes.sizes, 0)?;
        last = last.saturating_add(1);
    }
    push(&mut homes.sizes, 0)?;
    for process in c.processes.as_slice() {
        let part = match process.edge {
            Some(edge) => at(&parts, edge.cell as usize)?,
            None => last,
        };
        homes.add(part)?;
    }
    Ok(homes)
}

// The cells that processes have as clocks, in the order in which they are declared.
fn clocks_of(alloc: Global, c: &Core) -> Result<List<u32>, NoMemory> {
    let mut marks = vec![in alloc; false; c.cells.len()]?;
    for process in c.processes.as_slice() {
        if let Some(edge) = process.edge {
            match marks.get_mut(edge.cell as usize) {
                Some(mark) => *mark = true,
                None => return Err(lost()),
            }
        }
    }
    let mut clocks = List::new(alloc);
    let mut cell = 0u32;
    for mark in marks.iter() {
        if *mark {
            clocks.push(cell)?;
        }
        cell = cell.saturating_add(1);
    }
    Ok(clocks)
}

// For each of so many cells the part of its clock.
fn parts_of(alloc: Global, cells: usize, clocks: &[u32]) -> Result<Vec<u32>, NoMemory> {
    let mut parts = vec![in alloc; NOWHERE; cells]?;
    let mut number = 0u32;
    for clock in clocks {
        match parts.get_mut(*clock as usize) {
            Some(part) => *part = number,
            None => return Err(lost()),
        }
        number = number.saturating_add(1);
    }
    Ok(parts)
}

fn at(numbers: &[u32], i: usize) -> Result<u32, NoMemory> {
    match numbers.get(i) {
        Some(number) => Ok(*number),
        None => Err(lost()),
    }
}

impl Homes {
    /// The clocks' cells, ascending.
    pub fn into_clocks(self) -> List<u32> {
        let Homes {
            clocks,
            parts: _parts,
            numbers: _numbers,
            sizes: _sizes,
        } = self;
        clocks
    }

    fn add(&mut self, part: u32) -> Result<(), NoMemory> {
        let Some(size) = self.sizes.get_mut(part as usize) else {
            return Err(lost());
        };
        let number = *size;
        *size = number.saturating_add(1);
        push(&mut self.parts, part)?;
        push(&mut self.numbers, number)
    }

    /// The part of a process.
    pub fn part(&self, process: usize) -> Result<u32, NoMemory> {
        at(&self.parts, process)
    }

    /// The number of a process in its part.
    pub fn number(&self, process: usize) -> Result<u32, NoMemory> {
        at(&self.numbers, process)
    }

    /// A list for each part, without elements.
    pub fn lists<T: Drop>(&self, alloc: Global) -> Result<Vec<List<T>>, NoMemory> {
        let mut lists = Vec::new(alloc);
        for _size in self.sizes.iter() {
            push(&mut lists, List::new(alloc))?;
        }
        Ok(lists)
    }
}
