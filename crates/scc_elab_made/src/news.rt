//! `new` in constructors.
ghost use Rattle.std.specs.Prelude.{◌≡◌, false, map, IfOk, Option, option_map, Some};
ghost use Rattle.scc_elab_grown.specs.Grown.{grown_of};
ghost use Rattle.scc_elab_made.specs.Objects.{new_made};
ghost use Rattle.scc_elab_works.specs.Runs.{now_of};
ghost use Rattle.scc_elab_works.specs.Works.{at_in, led, making_at, outcome, Puts, run_at, site_at, Steps};
ghost use Rattle.scc_elab_spec.specs.Construct.{ends_in_vector as ends_there, Fell, from_tried, grow, make_at, made_at};
ghost use Rattle.scc_elab_spec.specs.Made.{grown_by};
ghost use Rattle.scc_elab_spec.specs.Program.{End, Make};
ghost use Rattle.scc_elab_spec.specs.Worth.{at_now, spot};
ghost use Rattle.scc_elab_store.specs.Locations.{location_of, part_of};
ghost use Rattle.scc_elab_worth.specs.Meant.{IsTarget};
ghost use Rattle.scc_plain_view.specs.Codes.{base_of};
ghost use Rattle.scc_plain_view.specs.Plains.{plain_of};
ghost use Rattle.scc_plain_view.specs.Terms.{argument_of, left_of};

use crate::arrays::make_each;
use scc_base::{Code, NoMemory, Place, Stop, lost, push};
use scc_elab_grown::Grown;
use scc_elab_inits::{Around, ends_in_vector};
use scc_elab_statements::{Frame, location};
use scc_elab_store::{Location, Part};
use scc_elab_works::{Args, At, Form, LeadOf, Moment, Work, copied};
use scc_plain_tree::{Base, Plain, PlainArg, PlainLeft};

// Where the pointer stands. Refused as E404 and E405.
fn pointer_at(p: &Plain, at: &At, g: &Grown, left: &PlainLeft) -> Result<Option<Location>, Stop>
    ensures { IsTarget result (spot (at_now (site_at (plain_of p.now) (at_in at.now)) (grown_of g.now)) false false (left_of left.now)) }
{
    match at.function {
        Some(function) => location(
            &Frame {
                plain: p,
                function,
                object: at.object,
                path: at.path.as_slice(),
            },
            g,
            left,
            false,
            false,
        ),
        None => Err(Stop::from(lost())),
    }
}

// Whether it is one to a vector.
fn is_vector(p: &Plain, at: &At, m: &Moment, left: &PlainLeft) -> Result<bool, NoMemory>
    ensures { IfOk result (λ b. b ≡ ends_there (site_at (plain_of p.now) (at_in at.now)) (left_of left.now)) }
{
    match at.function {
        Some(function) => ends_in_vector(
            &Around {
                alloc: m.grown.alloc,
                plain: p,
                function,
            },
            left,
        ),
        None => Err(lost()),
    }
}

#[tactic(auto, using(crate::proofs::Stepping::puts_one))]
fn put_lead<'t>(
    works: &mut Vec<Work<'t>>,
    path: Vec<Part>,
    last: Option<u32>,
) -> Result<(), NoMemory>
    ensures { Puts result works.old.items works.new.items (λ p x. from_tried (grown_by x) (λ g. Fell (led g (map part_of path.items) last))) }
{
    push(works, Work::Lead(LeadOf { path, last }))
}

// A pointer is given what is made at its path.
fn begin_new<'t>(
    p: &'t Plain,
    at: &At<'t>,
    form: Form,
    args: &'t [PlainArg],
    path: &[Part],
    works: &mut Vec<Work<'t>>,
    m: &mut Moment,
) -> Result<(), Stop>
    ensures { Steps (plain_of p.now) result works.new.items (now_of m.new) (outcome (plain_of p.now) works.old.items (from_tried (new_made (plain_of p.now) (at_in at.now) form (map argument_of args.now) (map part_of path.now) (grown_of m.old.grown)) (λ g. Fell (led g (map part_of path.now) (now_of m.old).last)))) }
{
    let there = Location::below(m.grown.alloc, path)?;
    m.grown.note(there)?;
    let own = copied(m.grown.alloc, path)?;
    put_lead(works, own, m.last)?;
    let at = at.copied(m.grown.alloc)?;
    make_each(p, form, &Args { at, list: args }, path, works, m)
}

// For a pointer of an object, once. Refused as E404.
fn new_there<'t>(
    p: &'t Plain,
    at: &At<'t>,
    form: Form,
    args: &'t [PlainArg],
    there: &Location,
    works: &mut Vec<Work<'t>>,
    m: &mut Moment,
) -> Result<(), Stop>
    requires { form.is_pointer ≡ false }
    ensures { Steps (plain_of p.now) result works.new.items (now_of m.new) (outcome (plain_of p.now) works.old.items (grow (now_of m.old) (made_at (making_at (plain_of p.now) (at_in at.now).levels) (at_now (site_at (plain_of p.now) (at_in at.now)) (grown_of m.old.grown)) form.place (base_of form.base) form.is_vector (map argument_of args.now) (location_of there.now) (location_of there.now).root) Fell)) }
{
    if there.local.is_some() {
        return Err(Stop::refused(Code::Constructor, form.place));
    }
    if m.grown.pointer(there).is_none() {
        return Ok(());
    }
    if m.grown.news.has(there) {
        return Err(Stop::refused(Code::Constructor, form.place));
    }
    begin_new(p, at, form, args, there.path.as_slice(), works, m)
}

/// A `new`. Refused as E404, E405, E410 and E411.
pub fn make_new<'t>(
    p: &'t Plain,
    at: &At<'t>,
    place: Place,
    left: &PlainLeft,
    base: Base,
    args: &'t [PlainArg],
    works: &mut Vec<Work<'t>>,
    m: &mut Moment,
) -> Result<(), Stop>
    ensures { Steps (plain_of p.now) result works.new.items (now_of m.new) (outcome (plain_of p.now) works.old.items (run_at (plain_of p.now) (at_in at.now) (Make place (left_of left.now) (base_of base) (map argument_of args.now) End) (now_of m.old))) }
{
    match pointer_at(p, at, &m.grown, left) {
        Ok(Some(there)) => {
            let is_vector = is_vector(p, at, m, left)?;
            let form = Form {
                is_pointer: false,
                is_vector,
                base,
                place,
            };
            new_there(p, at, form, args, &there, works, m)
        }
        Ok(None) => Ok(()),
        Err(stop) => Err(stop),
    }
}
