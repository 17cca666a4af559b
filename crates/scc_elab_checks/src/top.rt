//! The top's constructor has no parameter but its name.
ghost use Rattle.std.specs.Prelude.{◌≡◌, false, map, option_and_then, slice_get};
ghost use Rattle.scc_elab_spec.specs.Elaborated.{other_param, bad_top};
ghost use Rattle.scc_plain_view.specs.Plains.{member_of, plain_of};
ghost use Rattle.scc_elab_checks.specs.Open.{Tells};

use scc_base::{Code, Place, Stop};
use scc_plain_tree::{Base, Plain, PlainMember};

// Where the first of so many parameters stands that is no name, or a second name.
#[tactic(auto, using(crate::proofs::Parameters::no_locals, crate::proofs::Parameters::one_param, crate::proofs::Parameters::one_local, crate::proofs::Parameters::second, crate::proofs::Parameters::other_first))]
fn first_other(params: u32, locals: &[PlainMember]) -> Option<Place>
    ensures { result ≡ other_param params false (map member_of locals.now) }
{
    if params == 0 {
        return None;
    }
    let [first, rest @ ..] = locals else {
        return None;
    };
    match first.shape.base {
        Base::ModuleName => {
            if params == 1 {
                return None;
            }
            match rest {
                [second, ..] => Some(second.place),
                [] => None,
            }
        }
        Base::Number(_) | Base::Class(_) | Base::Input(_) | Base::Output(_) | Base::Signal(_) => {
            Some(first.place)
        }
    }
}

/// Refuses a top whose constructor has a parameter but its name, as E404. No memory is wanted.
pub fn check_top(p: &Plain) -> Result<(), Stop>
    ensures { Tells (option_and_then (bad_top (plain_of p.now)) (slice_get (plain_of p.now).classes p.now.top)) result }
{
    let Some(class) = p.classes.get(p.top as usize) else {
        return Ok(());
    };
    let Some(number) = class.constructor else {
        return Ok(());
    };
    let Some(function) = p.functions.get(number as usize) else {
        return Ok(());
    };
    match first_other(function.params, function.locals.as_slice()) {
        // E404.
        Some(place) => Err(Stop::refused(Code::Constructor, place)),
        None => Ok(()),
    }
}
