//! Orders of processes other than that of construction.
use scc_base::{NoMemory, push};
use scc_elab_design::Design;
use std::alloc::Global;

/// An order in which processes run.
#[derive(Drop)]
pub struct Orders {
    /// The combinational methods, each twice in a row.
    pub combs: Vec<u32>,
    pub clocked: Vec<u32>,
}

impl Orders {
    /// The orders of construction turned, so that they begin with the process of that number, modulo how many there are.
    pub fn turned(alloc: Global, d: &Design, by: u32) -> Result<Orders, NoMemory> {
        let combs = numbers(alloc, d, false)?;
        let clocked = numbers(alloc, d, true)?;
        Ok(Orders {
            combs: turned(alloc, combs.as_slice(), by, 2)?,
            clocked: turned(alloc, clocked.as_slice(), by, 1)?,
        })
    }
}

// The numbers of the clocked processes, or of the others.
fn numbers(alloc: Global, d: &Design, clocked: bool) -> Result<Vec<u32>, NoMemory> {
    let mut list = Vec::new(alloc);
    let mut number = 0;
    for process in d.processes.as_slice() {
        if process.edge.is_some() == clocked {
            push(&mut list, number)?;
        }
        number = next(number);
    }
    Ok(list)
}

fn next(number: u32) -> u32 {
    number.saturating_add(1)
}

fn turned(alloc: Global, numbers: &[u32], by: u32, times: u32) -> Result<Vec<u32>, NoMemory> {
    let mut list = Vec::new(alloc);
    if numbers.is_empty() {
        return Ok(list);
    }
    let first = by as usize % numbers.len();
    for at in first..numbers.len() {
        put(&mut list, numbers, at, times)?;
    }
    for at in 0..first {
        put(&mut list, numbers, at, times)?;
    }
    Ok(list)
}

fn put(list: &mut Vec<u32>, numbers: &[u32], at: usize, times: u32) -> Result<(), NoMemory> {
    if let Some(number) = numbers.get(at) {
        for _ in 0..times {
            push(list, *number)?;
        }
    }
    Ok(())
}
