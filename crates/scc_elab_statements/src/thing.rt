//! The object that a left side names.
ghost use Rattle.std.specs.Prelude.{◌≡◌, false, true, option_and_then, option_map};
ghost use Rattle.scc_core_spec.specs.Resolved.{made_map};
ghost use Rattle.scc_elab_grown.specs.Grown.{grown_of};
ghost use Rattle.scc_elab_spec.specs.Grown.{thing_at};
ghost use Rattle.scc_elab_spec.specs.Worth.{spot};
ghost use Rattle.scc_elab_statements.specs.Frames.{site_in};
ghost use Rattle.scc_elab_statements.specs.Things.{IsThing};
ghost use Rattle.scc_elab_store.specs.Locations.{location_of};
ghost use Rattle.scc_plain_view.specs.Terms.{left_of};

use crate::frame::{Frame, location};
use scc_base::Stop;
use scc_elab_grown::Grown;
use scc_elab_store::Location;
use scc_plain_tree::PlainLeft;

// The object that a location names, if any.
fn thing(g: &Grown, at: &Option<Location>) -> Option<u32>
    ensures { result ≡ option_and_then (thing_at (grown_of g.now)) (option_map location_of at.now) }
{
    match at {
        Some(at) => g.thing(at),
        None => None,
    }
}

/// The port, signal or variable that a left side names. Refused as `value`.
pub fn thing_of(f: &Frame, g: &Grown, left: &PlainLeft) -> Result<Option<u32>, Stop>
    ensures { IsThing result (made_map (option_and_then (thing_at (grown_of g.now))) (spot (site_in f.now (grown_of g.now)) false true (left_of left.now))) }
{
    match location(f, g, left, false, true) {
        Ok(at) => Ok(thing(g, &at)),
        Err(stop) => Err(stop),
    }
}
