//! The parts of a core: what happens at the edges of one clock, and what happens at none.
use crate::homes::{Homes, NOWHERE, homes_of};
use crate::parts::Domains;
use scc_base::{List, NoMemory, Path, lost};
use scc_blocks::ELSEWHERE;
use scc_core::{Cell, CellSort, Copies, Core, CoreProcess, Known, Places, VectorSize2};
use scc_core_flow::{Mark, live, marked};
use std::alloc::Global;

/// The parts of a checked core.
pub fn domains(alloc: Global, c: &Core) -> Result<Domains, NoMemory> {
    let homes = homes_of(alloc, c)?;
    let writers = writers_of(alloc, c, &homes)?;
    let mut parts = List::new(alloc);
    let mut part = 0u32;
    for processes in processes_of(alloc, c, &homes)? {
        parts.push(Core {
            top: c.top,
            cells: cells_of(alloc, c, &homes, writers.as_slice(), part)?,
            processes,
            vectors: vectors_of(alloc, c)?,
        })?;
        part = part.saturating_add(1);
    }
    Ok(Domains {
        clocks: homes.into_clocks(),
        parts,
    })
}

// The processes of each part.
fn processes_of(
    alloc: Global,
    c: &Core,
    homes: &Homes,
) -> Result<Vec<List<CoreProcess>>, NoMemory> {
    let mut lists = homes.lists(alloc)?;
    for (p, process) in c.processes.as_slice().iter().enumerate() {
        match lists.get_mut(homes.part(p)? as usize) {
            Some(list) => list.push(copied(alloc, process)?)?,
            None => return Err(lost()),
        }
    }
    Ok(lists)
}

// For each cell the part whose processes write it.
fn writers_of(alloc: Global, c: &Core, homes: &Homes) -> Result<Vec<u32>, NoMemory> {
    let places = Places::of(alloc, &c.cells, &c.vectors)?;
    let known = Known::new(&c.cells, &places);
    let mut writers = vec![in alloc; NOWHERE; c.cells.len()]?;
    for (p, process) in c.processes.as_slice().iter().enumerate() {
        let part = homes.part(p)?;
        let body = live(alloc, &known, process.body.as_slice())?;
        for mark in marked(alloc, &known, body.as_slice())?.as_slice() {
            if mark.write {
                note(mark, part, &mut writers)?;
            }
        }
    }
    Ok(writers)
}

fn note(mark: &Mark, part: u32, writers: &mut Vec<u32>) -> Result<(), NoMemory> {
    for number in 0..mark.named.count() {
        match writers.get_mut(mark.named.cell(number) as usize) {
            Some(writer) => *writer = part,
            None => return Err(lost()),
        }
    }
    Ok(())
}

// The cells of a part.
fn cells_of(
    alloc: Global,
    c: &Core,
    homes: &Homes,
    writers: &[u32],
    part: u32,
) -> Result<List<Cell>, NoMemory> {
    let mut cells = List::new(alloc);
    for (cell, writer) in c.cells.as_slice().iter().zip(writers.iter()) {
        cells.push(cell_in(alloc, cell, homes, part, *writer)?)?;
    }
    Ok(cells)
}

fn cell_in(
    alloc: Global,
    cell: &Cell,
    homes: &Homes,
    part: u32,
    writer: u32,
) -> Result<Cell, NoMemory> {
    Ok(Cell {
        name: cell.name.copied(alloc)?,
        kind: cell.kind,
        sort: sort_in(alloc, &cell.sort, homes, part, writer)?,
        place: cell.place,
    })
}

// The sort of a cell in a part.
fn sort_in(
    alloc: Global,
    sort: &CellSort,
    homes: &Homes,
    part: u32,
    writer: u32,
) -> Result<CellSort, NoMemory> {
    let foreign = writer != NOWHERE && writer != part;
    Ok(match sort {
        CellSort::Input => CellSort::Input,
        CellSort::Output if foreign => CellSort::Input,
        CellSort::Output => CellSort::Output,
        CellSort::Signal if foreign => CellSort::Input,
        CellSort::Signal => CellSort::Signal,
        CellSort::Variable { value, fixed } => CellSort::Variable {
            value: *value,
            fixed: *fixed,
        },
        CellSort::Local(process) => CellSort::Local(local_in(homes, *process as usize, part)?),
        CellSort::Pointer(None) => CellSort::Pointer(None),
        CellSort::Pointer(Some(path)) => CellSort::Pointer(Some(Path::of(alloc, path.as_slice())?)),
        CellSort::Port(path) => CellSort::Port(Path::of(alloc, path.as_slice())?),
    })
}

// The number of a local's process in a part.
fn local_in(homes: &Homes, process: usize, part: u32) -> Result<u32, NoMemory> {
    if homes.part(process)? == part {
        homes.number(process)
    } else {
        Ok(ELSEWHERE)
    }
}

fn copied(alloc: Global, process: &CoreProcess) -> Result<CoreProcess, NoMemory> {
    let mut senses = List::new(alloc);
    for cell in process.senses.as_slice() {
        senses.push(*cell)?;
    }
    Ok(CoreProcess {
        sort: process.sort,
        name: process.name.copied(alloc)?,
        place: process.place,
        senses,
        edge: process.edge,
        reset: process.reset,
        body: Copies::plain(alloc).stmts(process.body.as_slice())?,
    })
}

fn vectors_of(alloc: Global, c: &Core) -> Result<List<VectorSize2>, NoMemory> {
    let mut vectors = List::new(alloc);
    for v in c.vectors.as_slice() {
        vectors.push(VectorSize2 {
            path: Path::of(alloc, v.path.as_slice())?,
            size: v.size,
        })?;
    }
    Ok(vectors)
}
