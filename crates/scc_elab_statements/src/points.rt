//! Pointers and references are given what they lead to.
ghost use Rattle.std.specs.Prelude.{◌≡◌, false, is_some, None, option_map};
ghost use Rattle.scc_core_spec.specs.Resolved.{and_made};
ghost use Rattle.scc_elab_grown.specs.Grown.{Grows, grown_of};
ghost use Rattle.scc_elab_spec.specs.Construct.{is_local as is_local_at, point_at as point_there};
ghost use Rattle.scc_elab_spec.specs.Worth.{local_there as local_in, spot, target as target_by};
ghost use Rattle.scc_elab_statements.specs.Frames.{site_in};
ghost use Rattle.scc_elab_statements.specs.Locals.{leads};
ghost use Rattle.scc_elab_store.specs.Locations.{location_of};
ghost use Rattle.scc_plain_view.specs.Terms.{left_of, target_of as target_term};

use crate::frame::{Frame, location, target};
use crate::locals::{is_direct, local_there};
use scc_base::{Code, Place, Stop};
use scc_elab_grown::Grown;
use scc_elab_store::Location;
use scc_plain_tree::{PlainLeft, PlainTarget};

fn is_local(to: &Option<Location>) -> bool
    ensures { result ≡ is_local_at (option_map location_of to.now) }
{
    match to {
        Some(to) => to.local.is_some(),
        None => false,
    }
}

// Whether a local variable that is a pointer or reference stands there.
fn leads_there(f: &Frame, g: &Grown, at: &Location) -> bool
    ensures { result ≡ leads (local_in (site_in f.now (grown_of g.now)) (location_of at.now) (location_of at.now).root) }
{
    match local_there(f, g, at) {
        Some(member) => !is_direct(member.shape.reach),
        None => false,
    }
}

// A member takes none that is a local variable (E404); where no pointer stands, nothing is written.
fn point_at(
    f: &Frame,
    g: &mut Grown,
    place: Place,
    at: Option<Location>,
    to: Option<Location>,
) -> Result<(), Stop>
    ensures { Grows result (grown_of g.new) (point_there (site_in f.now (grown_of g.old)) place (option_map location_of at) (option_map location_of to)) }
{
    let Some(at) = at else {
        return Ok(());
    };
    if at.local.is_none() {
        if is_local(&to) {
            return Err(Stop::refused(Code::Constructor, place));
        }
        if g.pointer(&at).is_some() {
            Ok(g.put_target(at, to)?)
        } else {
            Ok(())
        }
    } else if leads_there(f, g, &at) {
        Ok(g.put_target(at, to)?)
    } else {
        Ok(())
    }
}

/// The pointer's location, then the target. Refused as E404 and E405.
pub fn point(
    f: &Frame,
    g: &mut Grown,
    place: Place,
    left: &PlainLeft,
    to: &PlainTarget,
) -> Result<(), Stop>
    ensures { Grows result (grown_of g.new) (and_made (spot (site_in f.now (grown_of g.old)) false false (left_of left.now)) (λ o. and_made (target_by (site_in f.now (grown_of g.old)) (target_term to.now)) (point_there (site_in f.now (grown_of g.old)) place o))) }
{
    match location(f, g, left, false, false) {
        Ok(at) => match target(f, g, to) {
            Ok(to) => point_at(f, g, place, at, to),
            Err(stop) => Err(stop),
        },
        Err(stop) => Err(stop),
    }
}
