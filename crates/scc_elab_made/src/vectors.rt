//! Vectors, element by element.
ghost use Rattle.std.specs.Prelude.{◌≡◌};
ghost use Rattle.scc_elab_grown.specs.Grown.{grown_of};
ghost use Rattle.scc_elab_works.specs.Given.{element_made, vector_left};
ghost use Rattle.scc_elab_works.specs.Runs.{now_of};
ghost use Rattle.scc_elab_works.specs.Works.{anew, outcome, Steps};
ghost use Rattle.scc_plain_view.specs.Plains.{plain_of};

use crate::objects::make_base;
use scc_base::{Stop, lost, push};
use scc_elab_works::{Args, At, Moment, VectorOf, Work, copied, element_of};
use scc_plain_tree::Plain;

// An element of a vector, without arguments.
fn make_element<'t>(
    p: &'t Plain,
    v: &VectorOf,
    works: &mut Vec<Work<'t>>,
    m: &mut Moment,
) -> Result<(), Stop>
    ensures { Steps (plain_of p.now) result works.new.items (now_of m.new) (outcome (plain_of p.now) works.old.items (anew (element_made (plain_of p.now) v.now (grown_of m.old.grown) v.now.next))) }
{
    let path = element_of(m.grown.alloc, v.path.as_slice(), u128::from(v.next))?;
    let args = Args {
        at: At {
            function: None,
            object: 0,
            path: Vec::new(m.grown.alloc),
            levels: v.levels,
        },
        list: &[],
    };
    make_base(p, path.as_slice(), v.place, v.base, &args, works, m)
}

/// The next element of a vector.
pub fn next_of_vector<'t>(
    p: &'t Plain,
    v: &VectorOf,
    works: &mut Vec<Work<'t>>,
    m: &mut Moment,
) -> Result<(), Stop>
    ensures { Steps (plain_of p.now) result works.new.items (now_of m.new) (outcome (plain_of p.now) works.old.items (vector_left (plain_of p.now) v.now (now_of m.old))) }
{
    if v.count == 0 {
        m.last = None;
        return Ok(());
    }
    if v.next == u32::MAX {
        return Err(Stop::from(lost()));
    }
    let path = copied(m.grown.alloc, v.path.as_slice())?;
    push(
        works,
        Work::Vector(VectorOf {
            levels: v.levels,
            path,
            next: v.next + 1,
            count: v.count - 1,
            base: v.base,
            place: v.place,
        }),
    )?;
    make_element(p, v, works, m)
}
