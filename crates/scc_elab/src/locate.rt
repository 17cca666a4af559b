//! Locations of left sides: pointers and references are followed where they are met.
use crate::walk::{Located, Task, Walk, Way};
use scc_base::{Code, NoMemory, PathPart, Place, Stop, lost};
use scc_bits::Value;
use scc_elab_state::frames::Frame;
use scc_elab_state::grown::Grown;
use scc_elab_state::numbers::pointer_at;
use scc_elab_state::program::{function_of, local_in, local_of, member_of};
use scc_elab_state::spots::{LocalOf, SpotId};
use scc_plain_tree::{Base, Plain, PlainBase, PlainLeft, PlainMember, PlainPart, Reach};

/// Begins a location: what it is based on, then its parts.
pub fn locate<'t>(
    left: &'t PlainLeft,
    way: Way,
    p: &'t Plain,
    f: Frame,
    w: &mut Walk<'t>,
    g: &mut Grown,
) -> Result<(), Stop> {
    let located = match &left.base {
        PlainBase::Local(local) => from_local(left, *local, way, p, f, g)?,
        PlainBase::This => Located {
            at: Some(f.this),
            base: Base::Class(f.class),
            vector: false,
        },
        // A call may not stand in a constructor, so none has an answer.
        PlainBase::Answer(_) => return Err(Stop::from(lost())),
        PlainBase::Follow(inner) => {
            w.then(Task::Behind(left, way))?;
            let inside = Way {
                soft: way.soft,
                raw: false,
            };
            return Ok(w.then(Task::Locate(inner.get(), inside))?);
        }
    };
    w.give_located(located)?;
    Ok(w.then(Task::Parts(left, 0, way))?)
}

fn from_local(
    left: &PlainLeft,
    local: u32,
    way: Way,
    p: &Plain,
    f: Frame,
    g: &mut Grown,
) -> Result<Located, Stop> {
    let Some(function) = f.function else {
        return Err(Stop::from(lost()));
    };
    let declared = local_in(p, function, local)?;
    let at = g.spots.local(LocalOf {
        object: f.object,
        function,
        local,
    })?;
    let located = declared_at(declared, at);
    if declared.shape.reach == Reach::Reference && !(way.raw && left.parts.is_empty()) {
        return follow(located, left.place, way, g);
    }
    Ok(located)
}

fn declared_at(declared: &PlainMember, at: SpotId) -> Located {
    Located {
        at: Some(at),
        base: declared.shape.base,
        vector: declared.shape.vector,
    }
}

// What a pointer or reference leads to. Refused as E405 at the place.
fn follow(pointer: Located, place: Place, way: Way, g: &Grown) -> Result<Located, Stop> {
    let to = match pointer.at {
        Some(at) => pointer_at(g, at)?,
        None => None,
    };
    if to.is_none() && !way.soft {
        // E405.
        return Err(Stop::refused(Code::EmptyPointer, place));
    }
    Ok(Located {
        at: to,
        base: pointer.base,
        vector: pointer.vector,
    })
}

/// Follows the pointer on which a location is based.
pub fn behind<'t>(
    left: &'t PlainLeft,
    way: Way,
    w: &mut Walk<'t>,
    g: &mut Grown,
) -> Result<(), Stop> {
    let pointer = w.take_located()?;
    let located = follow(pointer, left.place, way, g)?;
    w.give_located(located)?;
    Ok(w.then(Task::Parts(left, 0, way))?)
}

/// Goes on by a location's parts from the given one on. Behind null no part is looked at.
pub fn parts<'t>(
    left: &'t PlainLeft,
    from: usize,
    way: Way,
    p: &'t Plain,
    w: &mut Walk<'t>,
    g: &mut Grown,
) -> Result<(), Stop> {
    let located = w.take_located()?;
    let (Some(at), Some(part)) = (located.at, left.parts.get(from)) else {
        return Ok(w.give_located(located)?);
    };
    match part {
        PlainPart::Index(index) => {
            w.give_located(located)?;
            w.then(Task::Element(left, from, way))?;
            Ok(w.then(Task::Value(index))?)
        }
        PlainPart::Member(number) => {
            let Base::Class(class) = located.base else {
                return Err(Stop::from(lost()));
            };
            let member = member_of(p, class, *number)?;
            let next = from.saturating_add(1);
            let found = to_member(left, next, at, member, way, g)?;
            w.give_located(found)?;
            Ok(w.then(Task::Parts(left, next, way))?)
        }
    }
}

fn to_member(
    left: &PlainLeft,
    next: usize,
    at: SpotId,
    member: &PlainMember,
    way: Way,
    g: &mut Grown,
) -> Result<Located, Stop> {
    if g.spots.local_of(at)?.is_some() {
        return Err(Stop::from(lost()));
    }
    let there = g.spots.part(at, PathPart::Member(member.name), None)?;
    let located = declared_at(member, there);
    if member.shape.reach == Reach::Reference && !(way.raw && next >= left.parts.len()) {
        return follow(located, left.place, way, g);
    }
    Ok(located)
}

/// Takes the element whose index has a value.
pub fn element<'t>(
    left: &'t PlainLeft,
    at: usize,
    way: Way,
    p: &'t Plain,
    w: &mut Walk<'t>,
    g: &mut Grown,
) -> Result<(), NoMemory> {
    let index = w.take()?;
    let of = w.take_located()?;
    let Some(from) = of.at else {
        return Err(lost());
    };
    let there = element_at(from, index_of(index), p, g)?;
    w.give_located(Located {
        at: Some(there),
        base: of.base,
        vector: of.vector,
    })?;
    w.then(Task::Parts(left, at.saturating_add(1), way))
}

// The number as an index. No array or vector has so many elements that the greatest index names one, so it stands for every
// number that is none.
fn index_of(value: Value) -> u32 {
    value.small().unwrap_or(u32::MAX)
}

/// An element of an array or vector.
pub fn element_at(from: SpotId, index: u32, p: &Plain, g: &mut Grown) -> Result<SpotId, NoMemory> {
    let depth = g.spots.depth(from)?;
    let size = match g.spots.local_of(from)? {
        None => None,
        Some(of) => local_of(p, of)?.shape.sizes.get(depth as usize).copied(),
    };
    g.spots.part(from, PathPart::Index(index), size)
}
