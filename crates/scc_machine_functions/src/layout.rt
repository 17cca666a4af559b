//! How many slots what is declared has. An object of a class has its members side by side; a member that is itself an object
//! has one slot, which leads to it.
use indexmap::IndexMap;
use scc_base::{Name, NoMemory, lost, push};
use scc_machine_code::NOWHERE;
use scc_plain_tree::{Plain, PlainClass, PlainMember, Shape};
use std::alloc::Global;

/// A class's members.
#[derive(Drop)]
struct Members {
    /// How many slots stand before each.
    offsets: Vec<u32>,
    slots: u32,
}

#[derive(Clone, Copy, PartialEq, Eq, Hash)]
struct Named {
    class: u32,
    name: Name,
}

/// Where members stand in the objects of their classes.
pub struct Layout {
    classes: Vec<Members>,
    numbers: IndexMap<Named, u32>,
}

// One call at each exit of what owns it.
impl Drop for Layout {
    fn drop(self) {
        let Layout {
            classes: _classes,
            numbers: _numbers,
        } = self;
    }
}

/// A product of sizes, where it is less than the number of slots that there may be.
pub fn product(sizes: &[u32]) -> u32 {
    let mut n: u32 = 1;
    for size in sizes {
        n = n.saturating_mul(*size);
    }
    n.min(NOWHERE)
}

/// How many slots a variable has.
pub fn slots_of(shape: &Shape) -> u32 {
    product(shape.sizes.as_slice())
}

/// A number of slots more, where it is less than the number that there may be.
pub fn plus(slots: u32, more: u32) -> u32 {
    slots.saturating_add(more).min(NOWHERE)
}

impl Layout {
    /// That of a program's classes.
    pub fn new(alloc: Global, p: &Plain) -> Result<Layout, NoMemory> {
        let mut made = Layout {
            classes: Vec::new(alloc),
            numbers: IndexMap::new(alloc),
        };
        let mut number: u32 = 0;
        for class in p.classes.as_slice() {
            made.add(alloc, number, class)?;
            number = number.saturating_add(1);
        }
        Ok(made)
    }

    fn add(&mut self, alloc: Global, class: u32, declared: &PlainClass) -> Result<(), NoMemory> {
        let mut offsets = Vec::new(alloc);
        let mut slots = 0;
        let mut number: u32 = 0;
        for member in declared.members.as_slice() {
            push(&mut offsets, slots)?;
            slots = plus(slots, slots_of(&member.shape));
            let name = member.name;
            self.numbers.insert(Named { class, name }, number)?;
            number = number.saturating_add(1);
        }
        push(&mut self.classes, Members { offsets, slots })
    }

    /// How many slots an object of a class has.
    pub fn slots(&self, class: u32) -> Result<u32, NoMemory> {
        match self.classes.get(class as usize) {
            Some(members) => Ok(members.slots.max(1)),
            None => Err(lost()),
        }
    }

    /// How many slots stand before a member in an object of its class.
    pub fn offset(&self, class: u32, member: u32) -> Result<u32, NoMemory> {
        let Some(members) = self.classes.get(class as usize) else {
            return Err(lost());
        };
        match members.offsets.get(member as usize) {
            Some(offset) => Ok(*offset),
            None => Err(lost()),
        }
    }

    /// The number of a class's member by its name.
    pub fn number(&self, class: u32, name: Name) -> Option<u32> {
        self.numbers.get(&Named { class, name }).copied()
    }
}

/// A class's member by its number.
pub fn member_of(p: &Plain, class: u32, number: u32) -> Result<&PlainMember, NoMemory> {
    let Some(class) = p.classes.get(class as usize) else {
        return Err(lost());
    };
    match class.members.get(number as usize) {
        Some(member) => Ok(member),
        None => Err(lost()),
    }
}
