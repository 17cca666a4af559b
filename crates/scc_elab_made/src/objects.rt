//! Objects of classes: their members, what belongs to none of them, and the bodies of their constructors.
ghost use Rattle.std.specs.Prelude.{◌≡◌, ◌-◌, length, map, IfOk, OnOk, None, Option, Some};
ghost use Rattle.std.specs.Option.{option_copied};
ghost use Rattle.scc_core_spec.specs.Resolved.{and_made};
ghost use Rattle.scc_elab_grown.specs.Grown.{grown_of};
ghost use Rattle.scc_elab_made.specs.Objects.{object_begun, object_filled, rest_passed, stand_of};
ghost use Rattle.scc_elab_works.specs.Runs.{now_of};
ghost use Rattle.scc_elab_works.specs.Works.{anew, at_in, function_there, outcome, passed_at, passed_in, Puts, run_at, site_at, Steps};
ghost use Rattle.scc_elab_spec.specs.Construct.{Fell, then_run};
ghost use Rattle.scc_elab_spec.specs.Inits.{inits_of};
ghost use Rattle.scc_elab_spec.specs.Made.{built, built_in, function_of as function_in, grown_by, made_members, made_one, params_given};
ghost use Rattle.scc_elab_store.specs.Locations.{part_of};
ghost use Rattle.scc_elab_worth.specs.Arguments.{given_in};
ghost use Rattle.scc_plain_view.specs.Codes.{base_of, code_of};
ghost use Rattle.scc_plain_view.specs.Plains.{class_of, member_of, plain_of};

use crate::inits::put_tails;
use crate::members::put_members;
use crate::running::put_run;
use scc_base::{Code, NoMemory, Place, Stop, push};
use scc_elab_groups::groups_of;
use scc_elab_grown::{Grown, Node};
use scc_elab_store::Part;
use scc_elab_works::{Args, At, Moment, Work, add_at, copied, given_at, make_thing, pass_all};
use scc_elab_worth::Given;
use scc_plain_tree::{Base, Plain, PlainClass, PlainFunction, PlainMember, PlainStmt};
use std::alloc::Global;

/// The constructor of a class, if it has one.
pub fn constructor_of<'t>(p: &'t Plain, c: &PlainClass) -> Option<&'t PlainFunction>
    ensures { function_there result ≡ function_in (plain_of p.now) (class_of c.now) }
{
    match c.constructor {
        Some(number) => p.functions.get(number as usize),
        None => None,
    }
}

// The number of the newest object.
fn newest(g: &Grown) -> u32
    ensures { result ≡ length (grown_of g.now).objects - 1 }
{
    (g.objects.as_slice().len() as u32).saturating_sub(1)
}

// The parameters of an object's constructor take its arguments.
fn pass_there(
    g: &mut Grown,
    object: u32,
    function: Option<&PlainFunction>,
    list: &[Given],
) -> Result<(), NoMemory>
    ensures { OnOk result (grown_of g.new ≡ params_given object 0 (function_there function.entry).params (function_there function.entry).locals (map given_in list.now) (grown_of g.old)) }
{
    match function {
        Some(f) => pass_all(g, object, f.params, f.locals.as_slice(), list),
        None => Ok(()),
    }
}

/// What is made stays; a block that would be left there is none.
#[tactic(auto, using(crate::proofs::Stepping::puts_one))]
pub fn put_made<'t>(works: &mut Vec<Work<'t>>) -> Result<(), NoMemory>
    ensures { Puts result works.old.items works.new.items (λ p x. anew (grown_by x)) }
{
    push(works, Work::Made)
}

// All that is to be done for an object.
fn put_all<'t>(
    alloc: Global,
    at: &At<'t>,
    members: &'t [PlainMember],
    inits: &'t [PlainStmt],
    body: &'t [PlainStmt],
    works: &mut Vec<Work<'t>>,
) -> Result<(), NoMemory>
    ensures { Puts result works.old.items works.new.items (λ p x. anew (grown_by (then_run (then_run (anew (and_made (grown_by x) (made_members (built p (at_in at.now).levels) (site_at p (at_in at.now)) 0 (map member_of members.now) (code_of inits.now)))) (run_at p (at_in at.now) (inits_of None (code_of inits.now)))) (run_at p (at_in at.now) (code_of body.now))))) }
{
    let groups = groups_of(alloc, inits, members.len())?;
    put_made(works)?;
    put_run(alloc, at, body, works)?;
    put_tails(alloc, at, groups.none.tails.as_slice(), works)?;
    put_members(alloc, at, members, &groups, works)
}

fn put_object<'t>(
    alloc: Global,
    at: &At<'t>,
    c: &'t PlainClass,
    works: &mut Vec<Work<'t>>,
) -> Result<(), NoMemory>
    ensures { Puts result works.old.items works.new.items (rest_passed (at_in at.now) (map member_of c.now.members)) }
{
    match at.function {
        Some(f) => put_all(
            alloc,
            at,
            c.members.as_slice(),
            f.inits.as_slice(),
            f.body.as_slice(),
            works,
        ),
        None => put_all(alloc, at, c.members.as_slice(), &[], &[], works),
    }
}

// An object takes its arguments; the rest is to be done.
fn begin_members<'t>(
    p: &'t Plain,
    levels: u32,
    path: &[Part],
    c: &'t PlainClass,
    list: &[Given],
    works: &mut Vec<Work<'t>>,
    m: &mut Moment,
) -> Result<(), NoMemory>
    ensures { OnOk result (outcome (plain_of p.now) works.old.items (anew (object_begun (plain_of p.now) levels (function_in (plain_of p.now) (class_of c.now)) (class_of c.now).members (map part_of path.now) (grown_of m.old.grown) (map given_in list.now))) ≡ outcome (plain_of p.now) works.new.items (Fell (now_of m.new))) }
{
    let object = newest(&m.grown);
    let function = constructor_of(p, c);
    pass_there(&mut m.grown, object, function, list)?;
    let path = copied(m.grown.alloc, path)?;
    let at = At {
        function,
        object,
        path,
        levels,
    };
    put_object(m.grown.alloc, &at, c, works)
}

// An object that stands there, by its arguments.
fn fill_object<'t>(
    p: &'t Plain,
    levels: u32,
    path: &[Part],
    c: &'t PlainClass,
    args: &Args<'t>,
    works: &mut Vec<Work<'t>>,
    m: &mut Moment,
) -> Result<(), Stop>
    ensures { Steps (plain_of p.now) result works.new.items (now_of m.new) (outcome (plain_of p.now) works.old.items (anew (object_filled (plain_of p.now) levels (class_of c.now) (map part_of path.now) (passed_at (plain_of p.now) (passed_in args.now)) (grown_of m.old.grown)))) }
{
    match given_at(p, args, &m.grown) {
        Ok(list) => Ok(begin_members(p, levels, path, c, list.as_slice(), works, m)?),
        Err(stop) => Err(stop),
    }
}

// An object of a class of that number.
fn begin_object<'t>(
    p: &'t Plain,
    levels: u32,
    path: &[Part],
    place: Place,
    c: &'t PlainClass,
    class: u32,
    args: &Args<'t>,
    works: &mut Vec<Work<'t>>,
    m: &mut Moment,
) -> Result<(), Stop>
    ensures { Steps (plain_of p.now) result works.new.items (now_of m.new) (outcome (plain_of p.now) works.old.items (anew (built_in (plain_of p.now) (built (plain_of p.now) levels) (class_of c.now) class (grown_of m.old.grown) (map part_of path.now) place class (passed_at (plain_of p.now) (passed_in args.now))))) }
{
    match add_at(&mut m.grown, path, place, Node::Class(class)) {
        Ok(()) => fill_object(p, levels, path, c, args, works, m),
        Err(stop) => Err(stop),
    }
}

/// Begins an object of a class. Refused as E404, E405, E410 and E411.
pub fn make_object<'t>(
    p: &'t Plain,
    path: &[Part],
    place: Place,
    class: u32,
    args: &Args<'t>,
    works: &mut Vec<Work<'t>>,
    m: &mut Moment,
) -> Result<(), Stop>
    ensures { Steps (plain_of p.now) result works.new.items (now_of m.new) (outcome (plain_of p.now) works.old.items (anew (built (plain_of p.now) (passed_in args.now).at.levels (grown_of m.old.grown) (map part_of path.now) place class (passed_at (plain_of p.now) (passed_in args.now))))) }
{
    if args.at.levels == 0 {
        return Err(Stop::refused(Code::TooManyObjects, place));
    }
    match p.classes.get(class as usize) {
        Some(c) => begin_object(p, args.at.levels - 1, path, place, c, class, args, works, m),
        None => {
            m.last = None;
            Ok(())
        }
    }
}

// One thing of a base that is no class.
fn make_plain<'t>(
    p: &Plain,
    path: &[Part],
    place: Place,
    base: Base,
    args: &Args,
    works: &mut Vec<Work<'t>>,
    m: &mut Moment,
) -> Result<(), Stop>
    ensures { Steps (plain_of p.now) result works.new.items (now_of m.new) (outcome (plain_of p.now) works.old.items (anew (made_one (built (plain_of p.now) (passed_in args.now).at.levels) (grown_of m.old.grown) (map part_of path.now) place (base_of base) (passed_at (plain_of p.now) (passed_in args.now))))) }
{
    m.last = None;
    make_thing(p, &mut m.grown, path, place, base, args)
}

/// Begins one thing of a base.
pub fn make_base<'t>(
    p: &'t Plain,
    path: &[Part],
    place: Place,
    base: Base,
    args: &Args<'t>,
    works: &mut Vec<Work<'t>>,
    m: &mut Moment,
) -> Result<(), Stop>
    ensures { Steps (plain_of p.now) result works.new.items (now_of m.new) (outcome (plain_of p.now) works.old.items (anew (made_one (built (plain_of p.now) (passed_in args.now).at.levels) (grown_of m.old.grown) (map part_of path.now) place (base_of base) (passed_at (plain_of p.now) (passed_in args.now))))) }
{
    match base {
        Base::Class(class) => make_object(p, path, place, class, args, works, m),
        Base::Number(_) => make_plain(p, path, place, base, args, works, m),
        Base::Signal(_) => make_plain(p, path, place, base, args, works, m),
        Base::Input(_) => make_plain(p, path, place, base, args, works, m),
        Base::Output(_) => make_plain(p, path, place, base, args, works, m),
        Base::ModuleName => make_plain(p, path, place, base, args, works, m),
    }
}
