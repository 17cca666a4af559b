//! Ports are bound by statements (IEEE 1666-2011, 5.12).
ghost use Rattle.std.specs.Prelude.{◌≡◌, option_and_then, option_map};
ghost use Rattle.scc_elab_grown.specs.Grown.{Grows, grown_of};
ghost use Rattle.scc_elab_spec.specs.Binding.{bind as bind_in, bound_thing as bound_in};
ghost use Rattle.scc_elab_spec.specs.Grown.{thing_at};
ghost use Rattle.scc_elab_statements.specs.Frames.{site_in};
ghost use Rattle.scc_elab_statements.specs.Things.{IsThing};
ghost use Rattle.scc_elab_store.specs.Locations.{location_of};
ghost use Rattle.scc_plain_view.specs.Terms.{left_of};

use scc_base::{Place, Stop};
use scc_elab_grown::Grown;
use scc_elab_ports::bind_at;
use scc_elab_statements::{Frame, location, thing_of};
use scc_elab_store::Location;
use scc_plain_tree::PlainLeft;

// What a port is bound to.
fn bound_thing(f: &Frame, g: &Grown, to: &Option<PlainLeft>) -> Result<Option<u32>, Stop>
    ensures { IsThing result (bound_in (site_in f.now (grown_of g.now)) (option_map left_of to.now)) }
{
    match to {
        Some(left) => thing_of(f, g, left),
        None => Ok(None),
    }
}

// The object that a location names, if any.
fn thing(g: &Grown, at: &Option<Location>) -> Option<u32>
    ensures { result ≡ option_and_then (thing_at (grown_of g.now)) (option_map location_of at.now) }
{
    match at {
        Some(at) => g.thing(at),
        None => None,
    }
}

/// The port's location, then what it is bound to. Refused as E402 to E405.
pub fn bind(
    f: &Frame,
    g: &mut Grown,
    place: Place,
    port: &PlainLeft,
    to: &Option<PlainLeft>,
) -> Result<(), Stop>
    ensures { Grows result (grown_of g.new) (bind_in (site_in f.now (grown_of g.old)) place (left_of port.now) (option_map left_of to.now)) }
{
    match location(f, g, port, false, true) {
        Ok(at) => match bound_thing(f, g, to) {
            Ok(to) => bind_at(g, place, thing(g, &at), to),
            Err(stop) => Err(stop),
        },
        Err(stop) => Err(stop),
    }
}
