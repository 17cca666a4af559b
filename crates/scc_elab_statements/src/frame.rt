//! Where a statement stands, and what expressions are there.
ghost use Rattle.std.specs.Prelude.{map};
ghost use Rattle.scc_elab_spec.specs.Worth.{bit_given, given as given_by, spot, target as target_by};
ghost use Rattle.scc_elab_grown.specs.Grown.{grown_of};
ghost use Rattle.scc_elab_statements.specs.Frames.{around_in, site_in};
ghost use Rattle.scc_elab_worth.specs.Arguments.{IsGiven};
ghost use Rattle.scc_elab_worth.specs.Meant.{IsSpot, IsTarget, IsWorth};
ghost use Rattle.scc_elab_worth.specs.Picks.{IsIndex, pick_meant};
ghost use Rattle.scc_elab_worth.specs.Sites.{around, spot_of};
ghost use Rattle.scc_plain_view.specs.Terms.{argument_of, left_of, target_of as target_term, term_of};
ghost use Rattle.std.specs.Prelude.{◌≡◌};

use scc_base::Stop;
use scc_bits::Value;
use scc_elab_grown::Grown;
use scc_elab_store::{Location, Part};
use scc_elab_worth::{Given, Located, Site, given_of, index_of, location_of, target_of, value_of};
use scc_plain_tree::{
    Plain, PlainArg, PlainExpr, PlainFunction, PlainLeft, PlainPick, PlainTarget,
};

/// A constructor that runs for the object of that number at a path.
#[derive(Clone, Copy)]
pub struct Frame<'t> {
    pub plain: &'t Plain,
    pub function: &'t PlainFunction,
    pub object: u32,
    pub path: &'t [Part],
}

fn site<'t>(f: &Frame<'t>, g: &'t Grown) -> Site<'t>
    ensures { around result ≡ around_in f.now (grown_of g.now) }
{
    Site {
        alloc: g.alloc,
        plain: f.plain,
        function: f.function,
        object: f.object,
        path: f.path,
        store: &g.store,
    }
}

/// The value of an expression. Refused as E404 where it reads a port or signal, and E405.
#[tactic(auto, using(crate::proofs::Alone::worth_here))]
pub fn value(f: &Frame, g: &Grown, e: &PlainExpr) -> Result<Value, Stop>
    ensures { IsWorth result (site_in f.now (grown_of g.now)) (term_of e.now) }
{
    value_of(&site(f, g), e)
}

#[tactic(auto, using(crate::proofs::Alone::spot_here))]
fn located(
    f: &Frame,
    g: &Grown,
    left: &PlainLeft,
    soft: bool,
    follow: bool,
) -> Result<Located, Stop>
    ensures { IsSpot spot_of result (spot (site_in f.now (grown_of g.now)) soft follow (left_of left.now)) }
{
    location_of(&site(f, g), left, soft, follow)
}

/// Where a left side leads; None behind null, which only a target may lead to. Refused as `value`.
pub fn location(
    f: &Frame,
    g: &Grown,
    left: &PlainLeft,
    soft: bool,
    follow: bool,
) -> Result<Option<Location>, Stop>
    ensures { IsTarget result (spot (site_in f.now (grown_of g.now)) soft follow (left_of left.now)) }
{
    match located(f, g, left, soft, follow) {
        Ok(located) => Ok(at_of(located)),
        Err(stop) => Err(stop),
    }
}

fn at_of(located: Located) -> Option<Location>
    ensures { result ≡ located.at }
{
    let Located {
        at,
        base: _base,
        vector: _vector,
    } = located;
    at
}

/// What a pointer or reference is given; None for null. Refused as `value`.
#[tactic(auto, using(crate::proofs::Alone::target_here))]
pub fn target(f: &Frame, g: &Grown, to: &PlainTarget) -> Result<Option<Location>, Stop>
    ensures { IsTarget result (target_by (site_in f.now (grown_of g.now)) (target_term to.now)) }
{
    target_of(&site(f, g), to)
}

/// The arguments of a constructor. Refused as `value`.
#[tactic(auto, using(crate::proofs::Alone::given_here))]
pub fn given(f: &Frame, g: &Grown, args: &[PlainArg]) -> Result<Vec<Given>, Stop>
    ensures { IsGiven (λ v. v.items) result (given_by (site_in f.now (grown_of g.now)) (map argument_of args.now)) }
{
    given_of(&site(f, g), args)
}

/// The bit that the pick of a left side names. Refused as `value`.
#[tactic(auto, using(crate::proofs::Alone::index_here))]
pub fn index(f: &Frame, g: &Grown, pick: &Option<PlainPick>) -> Result<Option<u128>, Stop>
    ensures { IsIndex result (bit_given (site_in f.now (grown_of g.now)) (pick_meant pick.now)) }
{
    index_of(&site(f, g), pick)
}
