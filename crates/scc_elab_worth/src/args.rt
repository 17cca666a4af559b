//! Arguments of constructors.
ghost use Rattle.std.specs.Prelude.{map};
ghost use Rattle.scc_elab_spec.specs.Worth.{given};
ghost use Rattle.scc_elab_worth.specs.Arguments.{IsGiven, IsOne, one_given};
ghost use Rattle.scc_elab_worth.specs.Meant.{site_of};
ghost use Rattle.scc_elab_worth.specs.Sites.{around};
ghost use Rattle.scc_plain_view.specs.Terms.{argument_of};

use crate::spots::Site;
use crate::targets::target_of;
use crate::walk::value_of;
use scc_base::{Stop, push};
use scc_elab_store::Location;
use scc_plain_tree::PlainArg;

/// An argument as a constructor takes it.
#[derive(Drop)]
pub enum Given {
    Word(u128),
    /// Where a pointer or reference leads; None for null.
    Leads(Option<Location>),
}

/// The arguments from left to right; a module's name is passed over. Refused as `value_of`.
pub fn given_of(s: &Site, args: &[PlainArg]) -> Result<Vec<Given>, Stop>
    ensures { IsGiven (λ v. v.items) result (given (site_of (around s.now)) (map argument_of args.now)) }
{
    let mut list = Vec::new(s.alloc);
    for arg in args {
        match one(s, arg) {
            Ok(Some(x)) => push(&mut list, x)?,
            Ok(None) => {}
            Err(stop) => return Err(stop),
        }
    }
    Ok(list)
}

// An argument by itself; None for a module's name.
fn one(s: &Site, arg: &PlainArg) -> Result<Option<Given>, Stop>
    ensures { IsOne result (one_given (site_of (around s.now)) (argument_of arg.now)) }
{
    match arg {
        PlainArg::Value(e) => match value_of(s, e) {
            Ok(value) => Ok(Some(Given::Word(value.word().bits))),
            Err(stop) => Err(stop),
        },
        PlainArg::Target(to) => match target_of(s, to) {
            Ok(at) => Ok(Some(Given::Leads(at))),
            Err(stop) => Err(stop),
        },
        PlainArg::ModuleName => Ok(None),
    }
}
