//! Loops whose body some path passes without a wait.
ghost use Rattle.std.specs.Prelude.{◌≡◌, ◌+◌, Some, IfOk, IfSome, OnOk, nat_eq, [], ◌∷◌, ◌++◌};
ghost use Rattle.scc_core_spec.specs.First.{first_of};
ghost use Rattle.scc_core_spec.specs.Flow.{idle, idle_loops};
ghost use Rattle.scc_core_view.specs.Codes.{code_of};
ghost use Rattle.scc_rules_walks.specs.Ways as spec;
ghost use Rattle.scc_rules_walks.specs.Ways.{AreWithin, Passed, marked, within};

use scc_base::{NoMemory, Place, lost, push};
use scc_core::{CoreNode, CoreStmt};
use std::alloc::Global;

/// How a path comes to a statement: the least depth of a loop from whose body's start one comes without a wait, 0 for the
/// beginning of the function; None where none comes without one.
type Way = Option<u32>;

/// A block that is open: how paths leave it, and how many loops are around it.
#[derive(Clone, Copy)]
struct Out {
    way: Way,
    depth: u32,
}

/// What a walk meets.
#[derive(Drop)]
struct Walk {
    outs: Vec<Out>,
    first: Option<Place>,
}

fn least(a: Way, b: Way) -> Way
    ensures { result ≡ spec.least a b }
{
    match (a, b) {
        (Some(a), Some(b)) => Some(a.min(b)),
        (Some(a), None) => Some(a),
        (None, b) => b,
    }
}

// At the start of the body of a loop of that depth.
fn start(depth: u32, here: Way) -> u32
    ensures { result ≡ spec.start depth here }
{
    match here {
        Some(here) => here.min(depth),
        None => depth,
    }
}

// Out of a block of that depth: loops inside it are left.
fn cut(depth: u32, here: Way) -> Way
    ensures { result ≡ spec.cut depth here }
{
    match here {
        Some(here) => { if here <= depth { Some(here) } else { None } }
        None => None,
    }
}

/// The first loop of a body, in text order, whose body's end some path reaches without a wait.
pub fn loop_without_wait(alloc: Global, body: &[CoreStmt]) -> Result<Option<Place>, NoMemory>
    ensures { IfOk result (λ o. o ≡ first_of Some (idle_loops (code_of body.now))) }
{
    let mut walk = Walk {
        outs: Vec::new(alloc),
        first: None,
    };
    let _end = each(body, Some(0), 0, &mut walk)?;
    Ok(walk.first)
}

// Goes over statements; how paths come to their end. So many loops are around them.
#[cycle(ways)]
fn each(body: &[CoreStmt], here: Way, depth: u32, walk: &mut Walk) -> Result<Way, NoMemory>
    ensures { within depth here → AreWithin depth walk.old.outs.items → IfOk result (λ way. Passed (idle (code_of body.now)) (idle_loops (code_of body.now)) here way walk.old.outs.items walk.new.outs.items walk.old.first walk.new.first) }
{
    let mut way = here;
    for s in body {
        way = one(s, way, depth, walk)?;
    }
    Ok(way)
}

#[cycle(ways)]
fn one(s: &CoreStmt, here: Way, depth: u32, walk: &mut Walk) -> Result<Way, NoMemory>
    ensures { within depth here → AreWithin depth walk.old.outs.items → IfOk result (λ way. Passed (idle (code_of (s.now ∷ []))) (idle_loops (code_of (s.now ∷ []))) here way walk.old.outs.items walk.new.outs.items walk.old.first walk.new.first) }
{
    match &s.node {
        CoreNode::Wait { .. } => Ok(None),
        CoreNode::If { yes, no, .. } => {
            let a = each(yes.as_slice(), here, depth, walk)?;
            let b = each(no.as_slice(), here, depth, walk)?;
            Ok(least(a, b))
        }
        CoreNode::Block(body) => {
            push(&mut walk.outs, Out { way: None, depth })?;
            let end = each(body.as_slice(), here, depth, walk)?;
            let out = closed(&mut walk.outs)?;
            Ok(least(end, out.way))
        }
        CoreNode::Exit(n) => {
            leave(*n, here, &mut walk.outs)?;
            Ok(None)
        }
        CoreNode::Loop { body, .. } => {
            let before = walk.first;
            let inner = inside_loop(depth)?;
            let end = each(body.as_slice(), Some(start(inner, here)), inner, walk)?;
            // its own fault comes before those of the loops in it
            walk.first = first_loop(before, walk.first, end, s.place);
            Ok(None)
        }
        CoreNode::Assign { .. } => Ok(here),
        CoreNode::Alias { .. } => Ok(here),
    }
}

fn inside_loop(depth: u32) -> Result<u32, NoMemory>
    ensures { IfOk result (λ d. d ≡ depth + 1) }
{
    match depth.checked_add(1) {
        Some(inner) => Ok(inner),
        None => Err(lost()),
    }
}

// The first fault behind a loop: what was found before it, or itself where a path comes to its body's end, or what was found in it.
fn first_loop(before: Option<Place>, inside: Option<Place>, end: Way, place: Place) -> Option<Place>
    ensures { result ≡ spec.first_loop before inside end place }
{
    match (before, end) {
        (None, Some(_)) => Some(place),
        (None, None) => inside,
        (Some(_), _) => inside,
    }
}

// The innermost open block ends.
fn closed(outs: &mut Vec<Out>) -> Result<Out, NoMemory>
    ensures { IfOk result (λ o. outs.old.items ≡ outs.new.items ++ o ∷ []) }
{
    outs.pop().ok_or(lost())
}

// A path leaves the open block of that number, counted outward.
fn leave(n: u32, here: Way, outs: &mut Vec<Out>) -> Result<(), NoMemory>
    ensures { OnOk result (outs.new.items ≡ marked (λ m. nat_eq m n) here outs.old.items) }
{
    let Some(at) = outward(outs.len(), n) else {
        return Err(lost());
    };
    match outs.get_mut(at) {
        Some(out) => {
            out.way = least(out.way, cut(out.depth, here));
            Ok(())
        }
        None => Err(lost()),
    }
}

// The place of the open block of that number, among so many.
fn outward(blocks: usize, n: u32) -> Option<usize>
    ensures { IfSome result (λ at. at + (n + 1) ≡ blocks) }
{
    let last = blocks.checked_sub(1)?;
    last.checked_sub(n as usize)
}
