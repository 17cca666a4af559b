//! Ports are bound (IEEE 1666-2011, 5.12).
use crate::walk::{FIRM, location_of};
use scc_base::{Code, NoMemory, Place, Stop, lost};
use scc_bits::Kind;
use scc_elab_state::grown::Grown;
use scc_elab_state::spots::{SpotId, TOP};
use scc_elab_state::things::{Bound, ThingSort};
use scc_plain_tree::{Plain, PlainLeft};

/// The port, signal or variable at a location.
pub fn object_at(g: &Grown, at: Option<SpotId>) -> Result<Option<u32>, NoMemory> {
    let Some(at) = at else {
        return Ok(None);
    };
    let Some(number) = g.spots.object(at)? else {
        return Ok(None);
    };
    match g.thing(number)?.sort {
        ThingSort::Module(_) => Ok(None),
        _ => Ok(Some(number)),
    }
}

/// Binds a port. Where the location names no object, nothing is bound. Refused as E402 and E403.
pub fn bind(
    port: &PlainLeft,
    to: &Option<PlainLeft>,
    place: Place,
    p: &Plain,
    g: &mut Grown,
) -> Result<(), Stop> {
    let at = location_of(port, FIRM, p, g)?.at;
    let what = match to {
        Some(left) => {
            let there = location_of(left, FIRM, p, g)?.at;
            object_at(g, there)?
        }
        None => None,
    };
    let Some(number) = object_at(g, at)? else {
        return Ok(());
    };
    let ThingSort::Port {
        kind,
        output,
        bound,
    } = g.thing(number)?.sort
    else {
        // E403.
        return Err(Stop::refused(Code::BindKind, place));
    };
    if let Some(first) = bound {
        // E402.
        return Err(Stop::refused_beside(Code::BoundTwice, place, first.at));
    }
    let Some(to) = what else {
        return Err(Stop::refused(Code::BindKind, place));
    };
    if !may_bind(number, kind, output, to, g)? {
        return Err(Stop::refused(Code::BindKind, place));
    }
    let bound = Some(Bound { to, at: place });
    Ok(
        g.things.set(
            number,
            ThingSort::Port {
                kind,
                output,
                bound,
            },
        )?,
    )
}

// Whether a port below the top may be bound to a thing: a signal of its kind, or such a port of the parent of its module, an
// output to an output alone.
fn may_bind(port: u32, kind: Kind, output: bool, to: u32, g: &Grown) -> Result<bool, NoMemory> {
    let Some(home) = g.module_of(g.thing(port)?.spot)? else {
        return Err(lost());
    };
    if home == TOP {
        return Ok(false);
    }
    let thing = g.thing(to)?;
    match thing.sort {
        ThingSort::Signal(other) => Ok(other == kind),
        ThingSort::Port {
            kind: other,
            output: gives,
            ..
        } => {
            let is_parents = g.module_of(thing.spot)? == g.module_of(home)?;
            Ok(is_parents && (gives || !output) && other == kind)
        }
        _ => Ok(false),
    }
}
