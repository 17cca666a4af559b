//! Statements of constructors, one after another.
ghost use Rattle.std.specs.Prelude.{◌≡◌, length, map, OnOk, Option, slice_get};
ghost use Rattle.std.specs.Option.{option_copied};
ghost use Rattle.scc_elab_store.specs.Locations.{part_of};
ghost use Rattle.scc_elab_grown.specs.Grown.{grown_of};
ghost use Rattle.scc_elab_works.specs.Firsts.{IsParts};
ghost use Rattle.scc_elab_made.specs.Goes.{Goes};
ghost use Rattle.scc_elab_made.specs.Passings.{passing_of};
ghost use Rattle.scc_elab_works.specs.Runs.{now_of};
ghost use Rattle.scc_elab_works.specs.Works.{at_in, Leaves, led, making_at, outcome, Puts, run_at, site_at, Steps, tested_in, through, turns_of, turn_of};
ghost use Rattle.scc_elab_works.specs.declared.works.Work.TheVariants as work;
ghost use Rattle.scc_elab_spec.specs.Construct.{Fell, Left_out, ran_in, shut, then_run};
ghost use Rattle.scc_elab_spec.specs.Program.{Count, End, Loop};
ghost use Rattle.scc_plain_view.specs.Codes.{code_of, stmt_code};
ghost use Rattle.scc_plain_view.specs.Plains.{plain_of};
ghost use Rattle.scc_plain_view.specs.Terms.{term_of};

use crate::arrays::{begin_array, next_of_array};
use crate::news::make_new;
use crate::vectors::next_of_vector;
use scc_base::{Code, NoMemory, Place, Stop, lost, push};
use scc_elab_groups::{first_alone, from};
use scc_elab_inits::is_make;
use scc_elab_store::Location;
use scc_elab_works::{At, LeadOf, LoopOf, Moment, RunOf, Work, is_if, simple_at, value_at};
use scc_plain_tree::{Plain, PlainExpr, PlainNode, PlainStmt};
use std::alloc::Global;

// One more than there may be in all.
const MOST_TURNS: u32 = 65_537;

fn put_some<'t>(
    alloc: Global,
    at: &At<'t>,
    list: &'t [PlainStmt],
    works: &mut Vec<Work<'t>>,
) -> Result<(), NoMemory>
    ensures { Puts result works.old.items works.new.items (λ p x. then_run x (run_at p (at_in at.now) (code_of list.now))) }
{
    let at = at.copied(alloc)?;
    push(works, Work::Run(RunOf { at, list }))
}

/// All of some statements are to be run; where there are none, nothing more is to be done.
pub fn put_run<'t>(
    alloc: Global,
    at: &At<'t>,
    list: &'t [PlainStmt],
    works: &mut Vec<Work<'t>>,
) -> Result<(), NoMemory>
    ensures { Puts result works.old.items works.new.items (λ p x. then_run x (run_at p (at_in at.now) (code_of list.now))) }
{
    match list {
        [] => Ok(()),
        [_s, _rest @ ..] => put_some(alloc, at, list, works),
    }
}

// One of two branches.
#[tactic(auto, using(crate::proofs::Stepping::worth_stops))]
fn branch<'t>(
    p: &Plain,
    at: &At<'t>,
    test: &PlainExpr,
    yes: &'t [PlainStmt],
    no: &'t [PlainStmt],
    works: &mut Vec<Work<'t>>,
    m: &Moment,
) -> Result<(), Stop>
    ensures { Steps (plain_of p.now) result works.new.items (now_of m.now) (outcome (plain_of p.now) works.old.items (tested_in (plain_of p.now) (at_in at.now) (term_of test.now) (code_of yes.now) (code_of no.now) (now_of m.now))) }
{
    match value_at(p, at, &m.grown, test) {
        Ok(v) => {
            let taken = if v.is_true() { yes } else { no };
            Ok(put_run(m.grown.alloc, at, taken, works)?)
        }
        Err(stop) => Err(stop),
    }
}

fn begin_block<'t>(
    m: &Moment,
    at: &At<'t>,
    body: &'t [PlainStmt],
    works: &mut Vec<Work<'t>>,
) -> Result<(), NoMemory>
    ensures { Puts result works.old.items works.new.items (λ p x. shut (then_run x (run_at p (at_in at.now) (code_of body.now))) Fell) }
{
    push(works, Work::Shut)?;
    put_run(m.grown.alloc, at, body, works)
}

/// A loop's own test, and what a turn runs.
#[derive(Clone, Copy)]
pub struct LoopParts<'t> {
    pub test: &'t [PlainStmt],
    pub turn: &'t [PlainStmt],
}

// A loop whose body begins with an `if` tests by it.
fn parts_of(list: &[PlainStmt]) -> LoopParts<'_>
    ensures { IsParts result.test.now result.turn.now list.now }
{
    match list {
        [] => LoopParts {
            test: list,
            turn: list,
        },
        [first, rest @ ..] => {
            if is_if(first) {
                LoopParts {
                    test: first_alone(list),
                    turn: rest,
                }
            } else {
                LoopParts {
                    test: &[],
                    turn: list,
                }
            }
        }
    }
}

fn begin_loop<'t>(
    m: &Moment,
    at: &At<'t>,
    place: Place,
    body: &'t [PlainStmt],
    works: &mut Vec<Work<'t>>,
) -> Result<(), NoMemory>
    ensures { (c : Option Count) → Puts result works.old.items works.new.items (λ p x. then_run x (run_at p (at_in at.now) (Loop place c (code_of body.now) End))) }
{
    let parts = parts_of(body);
    let at = at.copied(m.grown.alloc)?;
    push(
        works,
        Work::Again(LoopOf {
            at,
            left: MOST_TURNS,
            place,
            test: parts.test,
            body: parts.turn,
        }),
    )
}

// A loop tests, if it may have one more turn. Refused as E412.
fn again<'t>(p: &Plain, l: &LoopOf<'t>, works: &mut Vec<Work<'t>>, m: &Moment) -> Result<(), Stop>
    ensures { Steps (plain_of p.now) result works.new.items (now_of m.now) (outcome (plain_of p.now) works.old.items (turns_of (plain_of p.now) l.now (now_of m.now))) }
{
    if l.left == 0 {
        return Err(Stop::refused(Code::ConstructionTurns, l.place));
    }
    let at = l.at.copied(m.grown.alloc)?;
    push(
        works,
        Work::Turn(LoopOf {
            at,
            left: l.left - 1,
            place: l.place,
            test: l.test,
            body: l.body,
        }),
    )?;
    Ok(put_run(m.grown.alloc, &l.at, l.test, works)?)
}

// A turn begins that the test let in. Refused as E412.
fn turn<'t>(
    p: &Plain,
    l: &LoopOf<'t>,
    works: &mut Vec<Work<'t>>,
    m: &mut Moment,
) -> Result<(), Stop>
    ensures { Steps (plain_of p.now) result works.new.items (now_of m.new) (outcome (plain_of p.now) works.old.items (turn_of (plain_of p.now) l.now (now_of m.old))) }
{
    if !m.grown.turn() {
        return Err(Stop::refused(Code::ConstructionTurns, l.place));
    }
    let at = l.at.copied(m.grown.alloc)?;
    push(
        works,
        Work::Again(LoopOf {
            at,
            left: l.left,
            place: l.place,
            test: l.test,
            body: l.body,
        }),
    )?;
    Ok(put_run(m.grown.alloc, &l.at, l.body, works)?)
}

/// What leaving a block does to what is still to be done: it is left, too, or is the block's end, or stays.
#[derive(Clone, Copy)]
pub enum Passing {
    Left,
    Shut,
    Stays,
}

fn kind_of(w: &Work) -> Passing
    ensures { result ≡ passing_of w.now }
{
    match w {
        Work::Run(_) => Passing::Left,
        Work::Again(_) => Passing::Left,
        Work::Turn(_) => Passing::Left,
        Work::Shut => Passing::Shut,
        Work::Lead(_) => Passing::Stays,
        Work::Array(_) => Passing::Stays,
        Work::Elements(_) => Passing::Stays,
        Work::Vector(_) => Passing::Stays,
        Work::Made => Passing::Stays,
    }
}

// A block is left, by its number counted outward from 0; past the constructor's own statements there is none to be left.
fn leave<'t>(p: &Plain, works: &mut Vec<Work<'t>>, m: &Moment, depth: u32) -> Result<(), Stop>
    ensures { Steps (plain_of p.now) result works.new.items (now_of m.now) (outcome (plain_of p.now) works.old.items (Left_out depth (now_of m.now))) }
{
    let mut left = depth;
    for _ in 0..usize::MAX {
        let Some(work) = works.pop() else {
            return Ok(());
        };
        match kind_of(&work) {
            Passing::Left => {}
            Passing::Shut => {
                if left == 0 {
                    return Ok(());
                }
                left -= 1;
            }
            Passing::Stays => return Ok(push(works, work)?),
        }
    }
    Err(Stop::from(lost()))
}

// Whether a statement holds others or makes objects.
fn is_nested(s: &PlainStmt) -> bool {
    matches!(
        &s.node,
        PlainNode::If { .. }
            | PlainNode::Block(_)
            | PlainNode::Loop { .. }
            | PlainNode::Exit(_)
            | PlainNode::Make { .. }
    )
}

fn nested<'t>(
    p: &Plain,
    at: &At<'t>,
    s: &'t PlainStmt,
    works: &mut Vec<Work<'t>>,
    m: &Moment,
) -> Result<(), Stop>
    ensures { Steps (plain_of p.now) result works.new.items (now_of m.now) (outcome (plain_of p.now) works.old.items (run_at (plain_of p.now) (at_in at.now) (stmt_code s.now End) (now_of m.now))) }
{
    match &s.node {
        PlainNode::If { test, yes, no } => {
            branch(p, at, test, yes.as_slice(), no.as_slice(), works, m)
        }
        PlainNode::Block(body) => Ok(begin_block(m, at, body.as_slice(), works)?),
        PlainNode::Loop { body, .. } => Ok(begin_loop(m, at, s.place, body.as_slice(), works)?),
        PlainNode::Exit(n) => leave(p, works, m, *n),
        _ => Err(Stop::from(lost())),
    }
}

// A statement that makes no object.
fn other<'t>(
    p: &Plain,
    at: &At<'t>,
    s: &'t PlainStmt,
    works: &mut Vec<Work<'t>>,
    m: &mut Moment,
) -> Result<(), Stop>
    ensures { Steps (plain_of p.now) result works.new.items (now_of m.new) (outcome (plain_of p.now) works.old.items (run_at (plain_of p.now) (at_in at.now) (stmt_code s.now End) (now_of m.old))) }
{
    if is_nested(s) {
        nested(p, at, s, works, m)
    } else {
        simple_at(p, at, m, s, MOST_TURNS)
    }
}

// A statement that makes an object.
fn maker<'t>(
    p: &'t Plain,
    at: &At<'t>,
    s: &'t PlainStmt,
    works: &mut Vec<Work<'t>>,
    m: &mut Moment,
) -> Result<(), Stop>
    ensures { Steps (plain_of p.now) result works.new.items (now_of m.new) (outcome (plain_of p.now) works.old.items (run_at (plain_of p.now) (at_in at.now) (stmt_code s.now End) (now_of m.old))) }
{
    match &s.node {
        PlainNode::Make { left, base, args } => {
            make_new(p, at, s.place, left, *base, args.as_slice(), works, m)
        }
        _ => Err(Stop::from(lost())),
    }
}

fn statement<'t>(
    p: &'t Plain,
    at: &At<'t>,
    s: &'t PlainStmt,
    works: &mut Vec<Work<'t>>,
    m: &mut Moment,
) -> Result<(), Stop>
    ensures { Steps (plain_of p.now) result works.new.items (now_of m.new) (outcome (plain_of p.now) works.old.items (run_at (plain_of p.now) (at_in at.now) (stmt_code s.now End) (now_of m.old))) }
{
    if is_make(s) {
        maker(p, at, s, works, m)
    } else {
        other(p, at, s, works, m)
    }
}

fn statement_at(list: &[PlainStmt], i: usize) -> Option<&PlainStmt>
    ensures { option_copied result ≡ slice_get list.now i }
{
    list.get(i)
}

// Statements that hold no others and make no objects run one after another, up to one that doesn't: how many they are.
fn run_simple(p: &Plain, at: &At, list: &[PlainStmt], m: &mut Moment) -> Result<usize, Stop>
    ensures { Goes (plain_of p.now) (at_in at.now) list.now (now_of m.old) (now_of m.new) result }
{
    for i in 0..list.len() {
        let Some(s) = statement_at(list, i) else {
            return Err(Stop::from(lost()));
        };
        if is_nested(s) {
            return Ok(i);
        }
        if let Err(stop) = simple_at(p, at, m, s, MOST_TURNS) {
            return Err(stop);
        }
    }
    Ok(list.len())
}

// The first of some statements, behind which the others come.
fn put_first<'t>(
    p: &'t Plain,
    at: &At<'t>,
    list: &'t [PlainStmt],
    works: &mut Vec<Work<'t>>,
    m: &mut Moment,
) -> Result<(), Stop>
    ensures { Steps (plain_of p.now) result works.new.items (now_of m.new) (outcome (plain_of p.now) works.old.items (run_at (plain_of p.now) (at_in at.now) (code_of list.now) (now_of m.old))) }
{
    match list {
        [] => Ok(()),
        [s, rest @ ..] => {
            put_run(m.grown.alloc, at, rest, works)?;
            statement(p, at, s, works, m)
        }
    }
}

fn next_statement<'t>(
    p: &'t Plain,
    r: &RunOf<'t>,
    works: &mut Vec<Work<'t>>,
    m: &mut Moment,
) -> Result<(), Stop>
    ensures { Steps (plain_of p.now) result works.new.items (now_of m.new) (outcome (plain_of p.now) works.old.items (run_at (plain_of p.now) (at_in r.now.at) (code_of r.now.list.now) (now_of m.old))) }
{
    match run_simple(p, &r.at, r.list, m) {
        Ok(k) => put_first(p, &r.at, from(r.list, k), works, m),
        Err(stop) => Err(stop),
    }
}

// A pointer leads to what was made at its path.
fn lead(l: &LeadOf, m: &mut Moment) -> Result<(), NoMemory>
    ensures { OnOk result (now_of m.new ≡ led (grown_of m.old.grown) (map part_of l.now.path.items) l.now.last) }
{
    let at = Location::below(m.grown.alloc, l.path.as_slice())?;
    let to = Location::below(m.grown.alloc, l.path.as_slice())?;
    m.grown.put_target(at, Some(to))?;
    m.last = l.last;
    Ok(())
}

// What is next to be done.
fn step<'t>(
    p: &'t Plain,
    work: &Work<'t>,
    works: &mut Vec<Work<'t>>,
    m: &mut Moment,
) -> Result<(), Stop>
    ensures { Steps (plain_of p.now) result works.new.items (now_of m.new) (outcome (plain_of p.now) works.old.items (through (plain_of p.now) work.now (Fell (now_of m.old)))) }
{
    match work {
        Work::Run(r) => next_statement(p, r, works, m),
        Work::Shut => Ok(()),
        Work::Again(l) => again(p, l, works, m),
        Work::Turn(l) => turn(p, l, works, m),
        Work::Lead(l) => Ok(lead(l, m)?),
        Work::Array(a) => begin_array(p, a, works, m),
        Work::Elements(e) => next_of_array(p, e, works, m),
        Work::Vector(v) => next_of_vector(p, v, works, m),
        Work::Made => {
            m.last = None;
            Ok(())
        }
    }
}

/// Does all that is to be done.
pub fn run<'t>(p: &'t Plain, works: &mut Vec<Work<'t>>, m: &mut Moment) -> Result<(), Stop>
    ensures { Leaves result (grown_of m.new.grown) (outcome (plain_of p.now) works.old.items (Fell (now_of m.old))) }
{
    for _ in 0..usize::MAX {
        let Some(work) = works.pop() else {
            return Ok(());
        };
        if let Err(stop) = step(p, &work, works, m) {
            return Err(stop);
        }
    }
    Err(Stop::from(lost()))
}
