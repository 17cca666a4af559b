//! What stands in a program under a number.
use crate::spots::LocalOf;
use scc_base::{NoMemory, lost};
use scc_plain_tree::{Plain, PlainClass, PlainFunction, PlainMember};

/// The class of a number.
pub fn class_of(p: &Plain, number: u32) -> Result<&PlainClass, NoMemory> {
    match p.classes.get(number as usize) {
        Some(class) => Ok(class),
        None => Err(lost()),
    }
}

/// The function of a number.
pub fn function_of(p: &Plain, number: u32) -> Result<&PlainFunction, NoMemory> {
    match p.functions.get(number as usize) {
        Some(function) => Ok(function),
        None => Err(lost()),
    }
}

/// The member of a number of a class.
pub fn member_of(p: &Plain, class: u32, number: u32) -> Result<&PlainMember, NoMemory> {
    match class_of(p, class)?.members.get(number as usize) {
        Some(member) => Ok(member),
        None => Err(lost()),
    }
}

/// The local variable or parameter of a number of a function.
pub fn local_in(p: &Plain, function: u32, number: u32) -> Result<&PlainMember, NoMemory> {
    match function_of(p, function)?.locals.get(number as usize) {
        Some(local) => Ok(local),
        None => Err(lost()),
    }
}

/// The declaration of a local variable.
pub fn local_of(p: &Plain, of: LocalOf) -> Result<&PlainMember, NoMemory> {
    local_in(p, of.function, of.local)
}
