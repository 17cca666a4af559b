//! Where left sides lead.
ghost use Rattle.std.specs.Prelude.{◌≡◌, slice_get, IfOk};
ghost use Rattle.std.specs.Option.{option_copied};
ghost use Rattle.scc_semantics.specs.Location.{within as within_location};
ghost use Rattle.scc_elab_store.specs.Locations.{location_of, part_of};
ghost use Rattle.scc_elab_worth.specs.Said.{Gives};
ghost use Rattle.scc_elab_worth.specs.Spots as spec;
ghost use Rattle.scc_elab_worth.specs.Sites.{around, spot_of};

use scc_base::{Code, NoMemory, Place, Stop, lost};
use scc_elab_store::{LocalOf, Location, Part, Store};
use scc_plain_tree::{Base, Plain, PlainFunction, PlainMember, Reach};
use std::alloc::Global;

/// Where an expression stands: in a function of a program, which runs for an object at a path, with what is written so far.
#[derive(Clone, Copy)]
pub struct Site<'t> {
    pub alloc: Global,
    pub plain: &'t Plain,
    pub function: &'t PlainFunction,
    pub object: u32,
    pub path: &'t [Part],
    pub store: &'t Store,
}

/// A location with what its declaration says of it.
#[derive(Drop)]
pub struct Located {
    /// None behind null.
    pub at: Option<Location>,
    pub base: Base,
    /// Whether it is declared as a vector.
    pub vector: bool,
}

// Where the pointer or reference at a location leads. Null is refused as E405, or in a target stands for null.
fn led(
    s: &Site,
    place: Place,
    soft: bool,
    from: &Location,
    base: Base,
    vector: bool,
) -> Result<Located, Stop>
    ensures { Gives spot_of result (spec.led soft place base vector ((around s.now).store.targets (location_of from.now))) }
{
    match s.store.target(s.alloc, from)? {
        Some(to) => Ok(Located {
            at: Some(to),
            base,
            vector,
        }),
        None => {
            if soft {
                Ok(Located {
                    at: None,
                    base,
                    vector,
                })
            } else {
                // E405.
                Err(Stop::refused(Code::EmptyPointer, place))
            }
        }
    }
}

fn is_reference(reach: Reach) -> bool
    ensures { result ≡ spec.is_reference reach }
{
    match reach {
        Reach::Direct | Reach::Pointer => false,
        Reach::Reference => true,
    }
}

// What is declared at a location. A reference is followed, unless it is the end of what is given where it leads.
fn declared(
    s: &Site,
    place: Place,
    soft: bool,
    follow: bool,
    member: &PlainMember,
    there: Location,
) -> Result<Located, Stop>
    ensures { Gives spot_of result (spec.declared (around s.now) place soft follow member.now (location_of there)) }
{
    let base = member.shape.base;
    let vector = member.shape.vector;
    if follow && is_reference(member.shape.reach) {
        return led(s, place, soft, &there, base, vector);
    }
    Ok(Located {
        at: Some(there),
        base,
        vector,
    })
}

/// A local variable.
pub(crate) fn local(
    s: &Site,
    place: Place,
    soft: bool,
    follow: bool,
    number: u32,
) -> Result<Located, Stop>
    ensures { Gives spot_of result (spec.local (around s.now) place soft follow number (slice_get (around s.now).function.locals number)) }
{
    let Some(member) = s.function.locals.get(number as usize) else {
        return Err(Stop::from(lost()));
    };
    let of = LocalOf {
        object: s.object,
        local: number,
    };
    declared(s, place, soft, follow, member, Location::local(s.alloc, of))
}

/// The object whose constructor runs.
pub(crate) fn this(s: &Site) -> Result<Located, Stop>
    ensures { Gives spot_of result (spec.this (around s.now) (around s.now).function.class) }
{
    let Some(class) = s.function.class else {
        return Err(Stop::from(lost()));
    };
    Ok(Located {
        at: Some(Location::below(s.alloc, s.path)?),
        base: Base::Class(class),
        vector: false,
    })
}

/// What a pointer leads to.
pub(crate) fn followed(
    s: &Site,
    place: Place,
    soft: bool,
    pointer: Located,
) -> Result<Located, Stop>
    ensures { Gives spot_of result (spec.followed (around s.now) place soft (spot_of pointer)) }
{
    match &pointer.at {
        Some(from) => led(s, place, soft, from, pointer.base, pointer.vector),
        None => Ok(pointer),
    }
}

fn member_in(p: &Plain, base: Base, number: u32) -> Option<&PlainMember>
    ensures { option_copied result ≡ spec.member_in p.now base number }
{
    match base {
        Base::Class(class) => p.classes.get(class as usize)?.members.get(number as usize),
        Base::Number(_) | Base::Input(_) | Base::Output(_) | Base::Signal(_) | Base::ModuleName =>
            None,
    }
}

/// A member of what stands somewhere. Behind null nothing is looked at.
pub(crate) fn member(
    s: &Site,
    place: Place,
    soft: bool,
    follow: bool,
    number: u32,
    of: Located,
) -> Result<Located, Stop>
    ensures { Gives spot_of result (spec.member (around s.now) place soft follow number (spot_of of)) }
{
    let Located { at, base, vector } = of;
    match at {
        None => Ok(Located {
            at: None,
            base,
            vector,
        }),
        Some(there) => {
            let Some(member) = member_in(s.plain, base, number) else {
                return Err(Stop::from(lost()));
            };
            declared(
                s,
                place,
                soft,
                follow,
                member,
                within(there, Part::Member(member.name))?,
            )
        }
    }
}

/// A part of a location.
pub(crate) fn within(from: Location, part: Part) -> Result<Location, NoMemory>
    ensures { IfOk result (λ l. location_of l ≡ within_location (location_of from) (part_of part)) }
{
    let mut there = from;
    there.enter(part)?;
    Ok(there)
}
