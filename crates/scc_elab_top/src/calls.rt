//! Construction from the top.
ghost use Rattle.std.specs.Prelude.{◌≡◌, [], slice_get, Some};
ghost use Rattle.std.specs.Option.{option_copied};
ghost use Rattle.scc_core_spec.specs.Resolved.{and_made};
ghost use Rattle.scc_elab_top.specs.Elaborates.{Comes, Elaborates};
ghost use Rattle.scc_elab_grown.specs.Grown.{grown_of};
ghost use Rattle.scc_elab_spec.specs.Elaborated.{bad_top, checked, run_top};
ghost use Rattle.scc_elab_spec.specs.Grown.{nothing};
ghost use Rattle.scc_elab_spec.specs.Made.{built, none_given};
ghost use Rattle.scc_plain_view.specs.Plains.{class_of, plain_of};

use scc_base::{Place, Stop, lost};
use scc_elab_after::check_after;
use scc_elab_checks::check_top;
use scc_elab_design::Design;
use scc_elab_grown::Grown;
use scc_elab_left::design_of;
use scc_elab_made::make_top;
use scc_elab_works::Moment;
use scc_plain_tree::{Plain, PlainClass};
use std::alloc::Global;

// Each constructor that runs adds an object: one more than there may be.
const LEVELS: u32 = 65_537;

fn top_of(p: &Plain) -> Option<&PlainClass>
    ensures { option_copied result ≡ slice_get p.now.classes p.now.top }
{
    p.classes.get(p.top as usize)
}

/// The design that the definitions give for a program, or the first refusal that they give: E401 to E407, E409 to E412, and with
/// several clocks (`many`) E413.
pub fn constructed(alloc: Global, p: &Plain, many: bool) -> Result<Design, Stop>
    ensures { Elaborates many (plain_of p.now) result }
{
    match top_of(p) {
        Some(c) => from_top(alloc, p, many, c),
        None => Err(Stop::from(lost())),
    }
}

// From the class of the top.
fn from_top(alloc: Global, p: &Plain, many: bool, c: &PlainClass) -> Result<Design, Stop>
    requires { slice_get p.now.classes p.now.top ≡ Some c.now }
    ensures { Comes (Some (run_top many (plain_of p.now) (class_of c.now) (bad_top (plain_of p.now) (class_of c.now)))) result }
{
    match check_top(p) {
        Ok(()) => run(alloc, p, many, c.place, LEVELS),
        Err(stop) => Err(stop),
    }
}

fn run(alloc: Global, p: &Plain, many: bool, place: Place, levels: u32) -> Result<Design, Stop>
    ensures { Comes (Some (and_made (built (plain_of p.now) levels nothing [] place p.now.top none_given) (checked many (plain_of p.now)))) result }
{
    let mut m = Moment {
        grown: Grown::new(alloc),
        last: None,
    };
    finish(p, many, place, levels, &mut m)
}

// What owns all that construction makes has no branch behind it: each would let all of it go.
fn finish(p: &Plain, many: bool, place: Place, levels: u32, m: &mut Moment) -> Result<Design, Stop>
    ensures { Comes (Some (and_made (built (plain_of p.now) levels (grown_of m.old.grown) [] place p.now.top none_given) (checked many (plain_of p.now)))) result }
{
    match make_top(p, levels, place, m) {
        Ok(()) => left(p, many, &m.grown),
        Err(stop) => Err(stop),
    }
}

fn left(p: &Plain, many: bool, g: &Grown) -> Result<Design, Stop>
    ensures { Comes (Some (checked many (plain_of p.now) (grown_of g.now))) result }
{
    match check_after(p, g, many) {
        Ok(()) => Ok(design_of(g)?),
        Err(stop) => Err(stop),
    }
}
