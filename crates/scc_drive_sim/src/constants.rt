//! Variables that no process writes.
use scc_base::{NoMemory, PathPart, lost, push};
use scc_core::{Core, Known, Places};
use scc_core_flow::{Mark, live, marked};
use scc_elab_design::{Design, ObjectNode};
use std::alloc::Global;

/// The numbers of the design's variables that no process writes, ascending. The core is the design's, without pointers.
pub fn constants_of(alloc: Global, d: &Design, c: &Core) -> Result<Vec<u32>, NoMemory> {
    let places = Places::of(alloc, &c.cells, &c.vectors)?;
    let written = written_cells(alloc, c, &places)?;
    let mut constants = Vec::new(alloc);
    let mut number: u32 = 0;
    for object in d.objects.as_slice() {
        if let ObjectNode::Variable { .. } = object.node {
            if !is_written(&places, written.as_slice(), object.path.as_slice())? {
                push(&mut constants, number)?;
            }
        }
        number = number.saturating_add(1);
    }
    Ok(constants)
}

fn is_written(places: &Places, written: &[bool], path: &[PathPart]) -> Result<bool, NoMemory> {
    let Some(spot) = places.path(path) else {
        return Err(lost());
    };
    let Some(cell) = places.cell(spot) else {
        return Err(lost());
    };
    match written.get(cell as usize) {
        Some(is) => Ok(*is),
        None => Err(lost()),
    }
}

// Whether each cell is one that the live part of a process may write.
fn written_cells(alloc: Global, c: &Core, places: &Places) -> Result<Vec<bool>, NoMemory> {
    let known = Known::new(&c.cells, places);
    let mut written = Vec::new(alloc);
    for _cell in c.cells.as_slice() {
        push(&mut written, false)?;
    }
    for process in c.processes.as_slice() {
        let body = live(alloc, &known, process.body.as_slice())?;
        for mark in marked(alloc, &known, body.as_slice())?.as_slice() {
            if mark.write {
                note(mark, &mut written);
            }
        }
    }
    Ok(written)
}

fn note(mark: &Mark, written: &mut Vec<bool>) {
    for number in 0..mark.named.count() {
        if let Some(is) = written.get_mut(mark.named.cell(number) as usize) {
            *is = true;
        }
    }
}
