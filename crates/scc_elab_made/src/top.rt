//! The run of the top's constructor.
ghost use Rattle.std.specs.Prelude.{◌≡◌, []};
ghost use Rattle.scc_elab_grown.specs.Grown.{grown_of};
ghost use Rattle.scc_elab_works.specs.Works.{Leaves};
ghost use Rattle.scc_elab_spec.specs.Made.{built, none_given};
ghost use Rattle.scc_plain_view.specs.Plains.{plain_of};

use crate::objects::make_object;
use crate::running::run;
use scc_base::{Place, Stop};
use scc_elab_works::{Args, At, Moment};
use scc_plain_tree::Plain;

/// Makes the top and all that its constructor makes, with constructors at most so deep in one another. Refused as E402 to E406 and
/// E410 to E412.
pub fn make_top(p: &Plain, levels: u32, place: Place, m: &mut Moment) -> Result<(), Stop>
    ensures { Leaves result (grown_of m.new.grown) (built (plain_of p.now) levels (grown_of m.old.grown) [] place p.now.top none_given) }
{
    let mut works = Vec::new(m.grown.alloc);
    let args = Args {
        at: At {
            function: None,
            object: 0,
            path: Vec::new(m.grown.alloc),
            levels,
        },
        list: &[],
    };
    match make_object(p, &[], place, p.top, &args, &mut works, m) {
        Ok(()) => run(p, &mut works, m),
        Err(stop) => Err(stop),
    }
}
