//! Arrays and vectors, element by element.
ghost use Rattle.std.specs.Prelude.{◌≡◌, ◌++◌, ◌∷◌, [], map, true, None};
ghost use Rattle.scc_semantics.specs.Location.{Element};
ghost use Rattle.scc_elab_grown.specs.Grown.{grown_of};
ghost use Rattle.scc_elab_works.specs.Paths.{rows};
ghost use Rattle.scc_elab_works.specs.Runs.{now_of};
ghost use Rattle.scc_elab_works.specs.Works.{Begins, anew, array_made, each_made, making_at, outcome, passed_at, passed_in, Puts, Steps};
ghost use Rattle.scc_elab_spec.specs.Design.{Pointer};
ghost use Rattle.scc_elab_spec.specs.Grown.{added};
ghost use Rattle.scc_elab_spec.specs.Made.{built, elements_at, grown_by, made_vector};
ghost use Rattle.scc_core_spec.specs.Resolved.{and_made};
ghost use Rattle.scc_elab_store.specs.Locations.{part_of};
ghost use Rattle.scc_plain_view.specs.Codes.{base_of};
ghost use Rattle.scc_plain_view.specs.Plains.{plain_of};

use crate::objects::make_base;
use scc_base::{NoMemory, Stop, lost, push};
use scc_elab_grown::Node;
use scc_elab_store::Part;
use scc_elab_works::{
    Args, ArrayOf, ElementsOf, Form, Moment, VectorOf, Work, add_at, copied, element_of, given_at,
    last_word,
};
use scc_plain_tree::Plain;

// More than there may be.
const TOO_MANY: u128 = 65_537;

/// An array is to be made.
#[tactic(auto, using(crate::proofs::Stepping::puts_one))]
pub fn put_array<'t>(
    works: &mut Vec<Work<'t>>,
    form: Form,
    args: Args<'t>,
    path: Vec<Part>,
    sizes: &'t [u32],
) -> Result<(), NoMemory>
    ensures { Puts result works.old.items works.new.items (λ p x. anew (and_made (grown_by x) (array_made p form (passed_in args.entry) (elements_at (map part_of path.items) sizes.now)))) }
{
    push(
        works,
        Work::Array(ArrayOf {
            form,
            args,
            path,
            sizes,
        }),
    )
}

fn put_elements<'t>(
    works: &mut Vec<Work<'t>>,
    a: &ArrayOf<'t>,
    m: &Moment,
    count: u32,
    sizes: &'t [u32],
) -> Result<(), NoMemory>
    ensures { Puts result works.old.items works.new.items (λ p x. anew (and_made (grown_by x) (array_made p a.now.form (passed_in a.now.args) (rows (map part_of a.now.path.items) sizes.now 0 count)))) }
{
    let args = a.args.copied(m.grown.alloc)?;
    let path = copied(m.grown.alloc, a.path.as_slice())?;
    push(
        works,
        Work::Elements(ElementsOf {
            form: a.form,
            args,
            path,
            sizes,
            next: 0,
            count,
        }),
    )
}

/// Begins an array.
pub fn begin_array<'t>(
    p: &'t Plain,
    a: &ArrayOf<'t>,
    works: &mut Vec<Work<'t>>,
    m: &mut Moment,
) -> Result<(), Stop>
    ensures { Steps (plain_of p.now) result works.new.items (now_of m.new) (outcome (plain_of p.now) works.old.items (anew (array_made (plain_of p.now) a.now.form (passed_in a.now.args) (elements_at (map part_of a.now.path.items) a.now.sizes.now) (grown_of m.old.grown)))) }
{
    match a.sizes {
        [] => make_each(p, a.form, &a.args, a.path.as_slice(), works, m),
        [count, rest @ ..] => Ok(put_elements(works, a, m, *count, rest)?),
    }
}

fn put_others<'t>(
    works: &mut Vec<Work<'t>>,
    e: &ElementsOf<'t>,
    m: &Moment,
    next: u32,
    count: u32,
) -> Result<(), NoMemory>
    ensures { Puts result works.old.items works.new.items (λ p x. anew (and_made (grown_by x) (array_made p e.now.form (passed_in e.now.args) (rows (map part_of e.now.path.items) e.now.sizes.now next count)))) }
{
    let args = e.args.copied(m.grown.alloc)?;
    let path = copied(m.grown.alloc, e.path.as_slice())?;
    push(
        works,
        Work::Elements(ElementsOf {
            form: e.form,
            args,
            path,
            sizes: e.sizes,
            next,
            count,
        }),
    )
}

fn put_first<'t>(works: &mut Vec<Work<'t>>, e: &ElementsOf<'t>, m: &Moment) -> Result<(), NoMemory>
    ensures { Puts result works.old.items works.new.items (λ p x. anew (and_made (grown_by x) (array_made p e.now.form (passed_in e.now.args) (elements_at (map part_of e.now.path.items ++ Element e.now.next ∷ []) e.now.sizes.now)))) }
{
    let args = e.args.copied(m.grown.alloc)?;
    let path = element_of(m.grown.alloc, e.path.as_slice(), u128::from(e.next))?;
    put_array(works, e.form, args, path, e.sizes)
}

/// The next element of an array.
pub fn next_of_array<'t>(
    p: &Plain,
    e: &ElementsOf<'t>,
    works: &mut Vec<Work<'t>>,
    m: &mut Moment,
) -> Result<(), Stop>
    ensures { Steps (plain_of p.now) result works.new.items (now_of m.new) (outcome (plain_of p.now) works.old.items (anew (array_made (plain_of p.now) e.now.form (passed_in e.now.args) (rows (map part_of e.now.path.items) e.now.sizes.now e.now.next e.now.count) (grown_of m.old.grown)))) }
{
    if e.count == 0 {
        m.last = None;
        return Ok(());
    }
    if e.next == u32::MAX {
        return Err(Stop::from(lost()));
    }
    put_others(works, e, m, e.next + 1, e.count - 1)?;
    Ok(put_first(works, e, m)?)
}

// A vector of so many elements. One without elements is not noted.
fn put_vector<'t>(
    works: &mut Vec<Work<'t>>,
    m: &mut Moment,
    levels: u32,
    form: Form,
    path: &[Part],
    size: u128,
) -> Result<(), NoMemory>
    ensures { Begins result works.old.items works.new.items (now_of m.new) (λ p. made_vector (built p levels) (grown_of m.old.grown) (map part_of path.now) form.place (base_of form.base) size) }
{
    m.last = None;
    if size == 0 {
        return Ok(());
    }
    let at = copied(m.grown.alloc, path)?;
    m.grown.add_vector(at, size)?;
    let count = size.min(TOO_MANY) as u32;
    let path = copied(m.grown.alloc, path)?;
    push(
        works,
        Work::Vector(VectorOf {
            levels,
            path,
            next: 0,
            count,
            base: form.base,
            place: form.place,
        }),
    )
}

// A vector has as many elements as its last argument says.
fn begin_vector<'t>(
    p: &'t Plain,
    form: Form,
    args: &Args<'t>,
    path: &[Part],
    works: &mut Vec<Work<'t>>,
    m: &mut Moment,
) -> Result<(), Stop>
    ensures { Steps (plain_of p.now) result works.new.items (now_of m.new) (outcome (plain_of p.now) works.old.items (anew (making_at (plain_of p.now) (passed_in args.now).at.levels (grown_of m.old.grown) (map part_of path.now) form.place (base_of form.base) true (passed_at (plain_of p.now) (passed_in args.now))))) }
{
    match given_at(p, args, &m.grown) {
        Ok(list) => Ok(put_vector(
            works,
            m,
            args.at.levels,
            form,
            path,
            last_word(list.as_slice()),
        )?),
        Err(stop) => Err(stop),
    }
}

fn make_pointer<'t>(
    p: &Plain,
    form: Form,
    path: &[Part],
    works: &mut Vec<Work<'t>>,
    m: &mut Moment,
) -> Result<(), Stop>
    ensures { Steps (plain_of p.now) result works.new.items (now_of m.new) (outcome (plain_of p.now) works.old.items (anew (added (grown_of m.old.grown) (map part_of path.now) form.place (Pointer None)))) }
{
    m.last = None;
    add_at(&mut m.grown, path, form.place, Node::Pointer)
}

/// One element of an array.
pub fn make_each<'t>(
    p: &'t Plain,
    form: Form,
    args: &Args<'t>,
    path: &[Part],
    works: &mut Vec<Work<'t>>,
    m: &mut Moment,
) -> Result<(), Stop>
    ensures { Steps (plain_of p.now) result works.new.items (now_of m.new) (outcome (plain_of p.now) works.old.items (anew (each_made (plain_of p.now) form (passed_in args.now) (grown_of m.old.grown) (map part_of path.now)))) }
{
    if form.is_pointer {
        make_pointer(p, form, path, works, m)
    } else if form.is_vector {
        begin_vector(p, form, args, path, works, m)
    } else {
        make_base(p, path, form.place, form.base, args, works, m)
    }
}
