//! What stands at a location: numbers and pointers.
use crate::grown::Grown;
use crate::program::local_of;
use crate::spots::{Held, LocalOf, SpotId};
use crate::things::ThingSort;
use scc_base::{NoMemory, lost};
use scc_bits::{Kind, Value};
use scc_plain_tree::{Base, Plain, Reach};

/// The 0 of a kind.
pub fn zero_of(kind: Kind) -> Result<Value, NoMemory> {
    match Value::zero().stored(kind) {
        Some(zero) => Ok(zero),
        None => Err(lost()),
    }
}

// Whether a location in a local variable is one variable: inside its arrays, and no array.
fn is_one(g: &Grown, at: SpotId, of: LocalOf, p: &Plain) -> Result<bool, NoMemory> {
    let sizes = local_of(p, of)?.shape.sizes.len();
    let depth = g.spots.depth(at)?;
    Ok(depth as usize == sizes && g.spots.is_inside(at)?)
}

// The kind of the numbers of a local variable.
fn kind_of(p: &Plain, of: LocalOf) -> Result<Kind, NoMemory> {
    match local_of(p, of)?.shape.base {
        Base::Number(kind) => Ok(kind),
        _ => Err(lost()),
    }
}

/// The number of a variable; None where there is no variable of a number.
pub fn number_at(g: &Grown, at: SpotId, p: &Plain) -> Result<Option<Value>, NoMemory> {
    match g.spots.local_of(at)? {
        None => member_number(g, at),
        Some(of) => local_number(g, at, of, p),
    }
}

fn member_number(g: &Grown, at: SpotId) -> Result<Option<Value>, NoMemory> {
    match g.spots.object(at)? {
        Some(number) => g.number(number),
        None => Ok(None),
    }
}

fn local_number(g: &Grown, at: SpotId, of: LocalOf, p: &Plain) -> Result<Option<Value>, NoMemory> {
    if !is_one(g, at, of, p)? {
        return Ok(None);
    }
    let held = g.spots.held_number(at)?;
    if held.is_some() {
        return Ok(held);
    }
    first_number(p, of)
}

// What a local variable holds that was given nothing.
fn first_number(p: &Plain, of: LocalOf) -> Result<Option<Value>, NoMemory> {
    let kind = kind_of(p, of)?;
    Ok(Some(zero_of(kind)?))
}

/// Stores a number where there is a variable.
pub fn put_number(g: &mut Grown, at: SpotId, value: Value) -> Result<(), NoMemory> {
    if g.spots.local_of(at)?.is_some() {
        return g.spots.hold(at, Held::Number(value));
    }
    match g.spots.object(at)? {
        Some(number) => g.things.set(number, ThingSort::Variable(value)),
        None => Err(lost()),
    }
}

/// Where a pointer or reference leads; None for null, and where there is none.
pub fn pointer_at(g: &Grown, at: SpotId) -> Result<Option<SpotId>, NoMemory> {
    if g.spots.local_of(at)?.is_some() {
        return g.spots.held_pointer(at);
    }
    let Some(number) = g.spots.pointer(at)? else {
        return Ok(None);
    };
    match g.thing(number)?.sort {
        ThingSort::Pointer(to) => Ok(to),
        _ => Err(lost()),
    }
}

/// Gives the pointer or reference at a location what it leads to, where there is one.
pub fn put_pointer(
    g: &mut Grown,
    at: SpotId,
    to: Option<SpotId>,
    p: &Plain,
) -> Result<(), NoMemory> {
    if let Some(of) = g.spots.local_of(at)? {
        if !is_one(g, at, of, p)? || local_of(p, of)?.shape.reach == Reach::Direct {
            return Ok(());
        }
        return g.spots.hold(at, Held::Leads(to));
    }
    match g.spots.pointer(at)? {
        Some(number) => g.things.set(number, ThingSort::Pointer(to)),
        None => Ok(()),
    }
}

/// A local variable begins: each of its numbers is 0, each pointer null.
pub fn clear(g: &mut Grown, of: LocalOf) -> Result<(), NoMemory> {
    let at = g.spots.local(of)?;
    g.spots.declare(at)
}
