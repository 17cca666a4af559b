//! The segments of a thread, built and counted at once along the parts of its body.
ghost use Rattle.std.specs.Prelude.{◌≡◌, ◌+◌, [], ◌∷◌, ◌++◌, IfOk};
ghost use Rattle.scc_core_spec.specs.Segments.{Plain, Test, Halt};
ghost use Rattle.scc_core_spec.specs.Split.{stood};
ghost use Rattle.scc_core_view.specs.Codes.{code_of};
ghost use Rattle.scc_core_view.specs.Terms.{term_of};
ghost use Rattle.scc_states_segments.specs.Frames.{came, from, scene, tested_scene};
ghost use Rattle.scc_states_cut.specs.Cut.{IsLast, IsOne, IsUnfolded, IsWithin};

use crate::types::{SegNode, SegStmt};
use scc_base::{Code, List, NoMemory, Place, Stop, lost};
use scc_core::{Copies, CoreExpr, CoreStmt, deeper};
use scc_states_segments::{Count, Frame, Part, PartNode, Sort, again, counted, next_part};
use std::alloc::Global;

/// The segment from some parts on, with these frames around, the innermost last. The waits of the thread have those counts; the
/// segment's own statements have that depth, and tests nest at most so many levels deep. It refuses the first statement past the
/// limits (SegmentsTooLarge).
#[cycle(unfold)]
pub fn unfolded<'a>(
    alloc: Global,
    here: &'a [Part],
    around: List<Frame<'a>>,
    waits: &[u32],
    depth: u32,
    levels: u32,
    count: &mut Count,
) -> Result<List<SegStmt>, Stop>
    ensures { IsUnfolded waits.now depth (from here.now (scene around.entry)) count.old count.new result }
{
    let mut here = here;
    let mut around = around;
    let mut out = List::new(alloc);
    for _ in 0..usize::MAX {
        let Some((part, rest)) = next_part(here, &mut around)? else {
            return Ok(out);
        };
        if let PartNode::Plain(stmt) = &part.node {
            out.push(whole(alloc, part.place, stmt, depth, count)?)?;
            here = rest;
        } else {
            out.push(last(alloc, part, rest, around, waits, depth, levels, count)?)?;
            return Ok(out);
        }
    }
    Err(Stop::from(lost()))
}

// The part with which a segment ends, before others.
#[cycle(unfold)]
fn last<'a>(
    alloc: Global,
    part: &'a Part,
    rest: &'a [Part],
    around: List<Frame<'a>>,
    waits: &[u32],
    depth: u32,
    levels: u32,
    count: &mut Count,
) -> Result<SegStmt, Stop>
    ensures { IsLast waits.now depth (came part.now rest.now (scene around.entry)) count.old count.new result }
{
    match &part.node {
        PartNode::Wait {
            number,
            count: edges,
        } => halt(part.place, *number, *edges, waits, depth, count),
        PartNode::Test { test, yes, no } => {
            let test = Copies::plain(alloc).expr(test)?;
            let behind = behind_test(rest, around)?;
            let yes = yes.as_slice();
            let no = no.as_slice();
            tested(
                alloc, part.place, test, yes, no, behind, waits, depth, levels, count,
            )
        }
        PartNode::Plain(_) => Err(Stop::from(lost())),
        PartNode::Block(_) => Err(Stop::from(lost())),
        PartNode::Loop(_) => Err(Stop::from(lost())),
        PartNode::Exit(_) => Err(Stop::from(lost())),
    }
}

// The rest stands behind both branches of a test.
fn behind_test<'a>(rest: &'a [Part], around: List<Frame<'a>>) -> Result<List<Frame<'a>>, NoMemory>
    ensures { IfOk result (λ fs. scene fs ≡ tested_scene rest.now (scene around.entry)) }
{
    let mut around = around;
    let sort = Sort::Rest;
    around.push(Frame { sort, rest })?;
    Ok(around)
}

#[cycle(unfold)]
fn tested<'a>(
    alloc: Global,
    place: Place,
    test: CoreExpr,
    yes: &'a [Part],
    no: &'a [Part],
    around: List<Frame<'a>>,
    waits: &[u32],
    depth: u32,
    levels: u32,
    count: &mut Count,
) -> Result<SegStmt, Stop>
    ensures { IsLast waits.now depth (Test place (term_of test) (from yes.now (scene around.entry)) (from no.now (scene around.entry))) count.old count.new result }
{
    count.take(place, depth);
    within(count)?;
    let levels = deeper(levels)?;
    let inner = below(depth)?;
    let other = again(alloc, around.as_slice())?;
    let yes = unfolded(alloc, yes, other, waits, inner, levels, count)?;
    let no = unfolded(alloc, no, around, waits, inner, levels, count)?;
    let node = SegNode::If { test, yes, no };
    Ok(SegStmt { place, node })
}

// A statement that stands in its segment whole.
fn whole(
    alloc: Global,
    place: Place,
    stmt: &CoreStmt,
    depth: u32,
    count: &mut Count,
) -> Result<SegStmt, Stop>
    ensures { IsOne (Plain (code_of (stmt.now ∷ []))) (stood depth (code_of (stmt.now ∷ []))) count.old count.new result }
{
    counted(stmt, depth, count);
    within(count)?;
    let node = SegNode::Plain(Copies::plain(alloc).stmt(stmt)?);
    Ok(SegStmt { place, node })
}

// The wait with which a segment ends.
fn halt(
    place: Place,
    number: u32,
    edges: u32,
    waits: &[u32],
    depth: u32,
    count: &mut Count,
) -> Result<SegStmt, Stop>
    ensures { IsLast waits.now depth (Halt place number edges) count.old count.new result }
{
    count.take(place, depth);
    within(count)?;
    match waits.get(number as usize) {
        Some(n) if *n == edges => {
            let node = SegNode::Wait(number);
            Ok(SegStmt { place, node })
        }
        _ => Err(Stop::from(lost())),
    }
}

/// Refuses a statement past a limit.
pub fn within(count: &Count) -> Result<(), Stop>
    ensures { IsWithin count.now result }
{
    match count.past() {
        // E604.
        Some(place) => Err(Stop::refused(Code::SegmentsTooLarge, place)),
        None => Ok(()),
    }
}

fn below(depth: u32) -> Result<u32, NoMemory>
    ensures { IfOk result (λ d. d ≡ depth + 1) }
{
    match depth.checked_add(1) {
        Some(depth) => Ok(depth),
        None => Err(lost()),
    }
}
