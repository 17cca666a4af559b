//! What pointers and references are given.
ghost use Rattle.std.specs.Prelude.{◌≡◌, true, option_map, option_and_then};
ghost use Rattle.scc_core_spec.specs.Resolved.{Made};
ghost use Rattle.scc_elab_spec.specs.Worth.{spot, target};
ghost use Rattle.scc_elab_store.specs.Locations.{location_of as held_of};
ghost use Rattle.scc_elab_worth.specs.Meant.{IsTarget, site_of};
ghost use Rattle.scc_elab_worth.specs.Sites.{around};
ghost use Rattle.scc_plain_view.specs.Terms.{left_of, target_of as target_term};

use crate::spots::{Located, Site};
use crate::walk::location_of;
use scc_base::Stop;
use scc_elab_store::Location;
use scc_plain_tree::{PlainLeft, PlainTarget};

/// Where a target leads; None for null. Refused as `value_of`.
#[tactic(auto, using(crate::proofs::Copying::copied_is, crate::proofs::Copying::copied_stops))]
pub fn target_of(s: &Site, to: &PlainTarget) -> Result<Option<Location>, Stop>
    ensures { IsTarget result (target (site_of (around s.now)) (target_term to.now)) }
{
    match to {
        PlainTarget::Null => Ok(None),
        PlainTarget::Address(left) => address(s, left),
        PlainTarget::Copy(left) => match address(s, left) {
            Ok(at) => held(s, at),
            Err(stop) => Err(stop),
        },
    }
}

// The location of a left side; None behind null.
fn address(s: &Site, left: &PlainLeft) -> Result<Option<Location>, Stop>
    ensures { IsTarget result (spot (site_of (around s.now)) true true (left_of left.now)) }
{
    match location_of(s, left, true, true) {
        Ok(located) => Ok(at_of(located)),
        Err(stop) => Err(stop),
    }
}

fn at_of(located: Located) -> Option<Location>
    ensures { result ≡ located.at }
{
    let Located {
        at,
        base: _base,
        vector: _vector,
    } = located;
    at
}

// Where the pointer at a location leads.
fn held(s: &Site, at: Option<Location>) -> Result<Option<Location>, Stop>
    ensures { IsTarget result (Made (option_and_then (around s.now).store.targets (option_map held_of at))) }
{
    match at {
        Some(at) => Ok(s.store.target(s.alloc, &at)?),
        None => Ok(None),
    }
}
