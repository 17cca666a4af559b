//! Arrays by their variables.
use scc_base::{NoMemory, Text, lost, push};
use scc_svtree::VarId;
use std::alloc::Global;

/// Registers `NAME$0`, `NAME$1` and so on, and their next values.
#[derive(Drop)]
pub struct Array {
    pub name: Text,
    /// The variables of the registers, and those of their next values.
    pub elements: Vec<u32>,
    pub nexts: Vec<u32>,
    /// Of each of them, in bits.
    pub width: u32,
    /// The fewest bits that hold the number of the last one.
    pub address: u32,
}

impl Array {
    /// How many elements there are.
    pub fn size(&self) -> usize {
        self.elements.len()
    }

    /// The variable of the next value of an element.
    pub fn next(&self, at: u32) -> Option<u32> {
        self.nexts.get(at as usize).copied()
    }
}

/// An element of an array.
#[derive(Clone, Copy, PartialEq, Eq)]
pub struct Spot {
    pub array: u32,
    pub at: u32,
}

/// Some arrays of a module, and the elements that its variables are.
#[derive(Drop)]
pub struct Arrays {
    pub list: Vec<Array>,
    /// For each variable the element of which it is the register, and that of which it is the next value.
    pub element_of: Vec<Option<Spot>>,
    pub next_of: Vec<Option<Spot>>,
}

impl Arrays {
    /// None, of so many variables.
    pub fn none(alloc: Global, vars: usize) -> Result<Arrays, NoMemory> {
        let mut arrays = Arrays {
            list: Vec::new(alloc),
            element_of: Vec::new(alloc),
            next_of: Vec::new(alloc),
        };
        for _ in 0..vars {
            push(&mut arrays.element_of, None)?;
            push(&mut arrays.next_of, None)?;
        }
        Ok(arrays)
    }

    /// Adds an array.
    pub fn add(&mut self, array: Array) -> Result<(), NoMemory> {
        let Ok(number) = u32::try_from(self.list.len()) else {
            return Err(lost());
        };
        let mut at = 0u32;
        for (element, next) in array.elements.iter().zip(array.nexts.iter()) {
            let spot = Spot { array: number, at };
            set(&mut self.element_of, *element, spot)?;
            set(&mut self.next_of, *next, spot)?;
            at = at.saturating_add(1);
        }
        push(&mut self.list, array)
    }

    /// The element of which a variable is the register.
    pub fn element(&self, v: VarId) -> Option<Spot> {
        self.element_of.get(v.0 as usize).copied().flatten()
    }

    /// The element of which a variable is the next value.
    pub fn next(&self, v: VarId) -> Option<Spot> {
        self.next_of.get(v.0 as usize).copied().flatten()
    }

    /// An array.
    pub fn get(&self, number: u32) -> Option<&Array> {
        self.list.get(number as usize)
    }
}

fn set(table: &mut Vec<Option<Spot>>, at: u32, spot: Spot) -> Result<(), NoMemory> {
    match table.get_mut(at as usize) {
        Some(old) => {
            *old = Some(spot);
            Ok(())
        }
        None => Err(lost()),
    }
}
