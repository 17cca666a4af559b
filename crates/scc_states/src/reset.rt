//! What an asynchronous reset may do: along the one path of the reset segment each assignment gives a whole cell a static value.
ghost use Rattle.std.specs.Prelude.{◌≡◌, [], ◌∷◌, IfErr, IfOk, Some, not, is_some};
ghost use Rattle.scc_core.specs.Known.{facts_in};
ghost use Rattle.scc_core.specs.Statics.{value_in};
ghost use Rattle.scc_core_flow.specs.Live.{Decides, DecidesAll};
ghost use Rattle.scc_core_spec.specs.First.{when};
ghost use Rattle.scc_core_spec.specs.Split.{along, first_along, unloaded};
ghost use Rattle.scc_core_spec.specs.Static.{Cells, goes};
ghost use Rattle.scc_core_view.specs.Codes.{code_of};
ghost use Rattle.scc_core_view.specs.Terms.{term_of};
ghost use Rattle.scc_states.specs.Refusals.{MayStop};
ghost use Rattle.scc_states.specs.Resets.{IsAlong, IsLoaded, LoadsAll, loads_in, once_way, shut_way};

use scc_base::{Code, NoMemory, Place, Stop, lost};
use scc_core::{CoreExpr, CoreLeft, CoreNode, CoreStmt, Known};
use scc_states_kept::is_filled;
use scc_states_segments::opens;
use std::alloc::Global;

/// How a path goes on behind some statements.
#[derive(Clone, Copy)]
enum Way {
    On,
    /// At a wait.
    Ended,
    /// It leaves the n-th block around, counted outward from 0.
    Out(u32),
}

/// Refuses the first statement of the reset segment, taken from the whole body, that doesn't give a whole cell a static value.
pub fn check_reset(alloc: Global, known: Known<'_>, body: &[CoreStmt]) -> Result<(), Stop>
    ensures stop { IfErr result MayStop }
    ensures first { (cs : Cells) → DecidesAll known.entry cs body.now → LoadsAll known.entry cs body.now → IsLoaded (first_along (along cs (code_of body.now))) result }
{
    let _way = along(body, alloc, known)?;
    Ok(())
}

#[cycle(reset_along)]
fn along(body: &[CoreStmt], alloc: Global, known: Known<'_>) -> Result<Way, Stop>
    ensures stop { IfErr result MayStop }
    ensures along { (cs : Cells) → DecidesAll known.entry cs body.now → LoadsAll known.entry cs body.now → IsAlong (along cs (code_of body.now)) result }
{
    for s in body {
        match along_one(s, alloc, known)? {
            Way::On => {}
            Way::Ended => return Ok(Way::Ended),
            Way::Out(n) => return Ok(Way::Out(n)),
        }
    }
    Ok(Way::On)
}

#[cycle(reset_along)]
fn along_one(s: &CoreStmt, alloc: Global, known: Known<'_>) -> Result<Way, Stop>
    ensures stop { IfErr result MayStop }
    ensures along { (cs : Cells) → DecidesAll known.entry cs (s.now ∷ []) → LoadsAll known.entry cs (s.now ∷ []) → IsAlong (along cs (code_of (s.now ∷ []))) result }
{
    if !opens(s) {
        inside(s, alloc, known)?;
        return Ok(Way::On);
    }
    match &s.node {
        CoreNode::Wait { .. } => Ok(Way::Ended),
        CoreNode::Exit(n) => Ok(Way::Out(*n)),
        CoreNode::If { test, yes, no } => match known.goes(test) {
            None => Err(Stop::refused(Code::ResetValue, s.place)),
            Some(true) => along(yes.as_slice(), alloc, known),
            Some(false) => along(no.as_slice(), alloc, known),
        },
        CoreNode::Block(body) => {
            let way = along(body.as_slice(), alloc, known)?;
            Ok(shut(way))
        }
        CoreNode::Loop { body, .. } => {
            let way = along(body.as_slice(), alloc, known)?;
            Ok(once(way))
        }
        CoreNode::Assign { .. } | CoreNode::Alias { .. } => Err(Stop::from(lost())),
    }
}

// Behind a block.
fn shut(way: Way) -> Way
    ensures { result ≡ shut_way way }
{
    match way {
        Way::On => Way::On,
        Way::Ended => Way::Ended,
        Way::Out(n) => { if n == 0 { Way::On } else { Way::Out(n - 1) } }
    }
}

// Behind a loop, through whose body a path comes to a wait.
fn once(way: Way) -> Way
    ensures { result ≡ once_way way }
{
    match way {
        Way::On => Way::Ended,
        Way::Ended => Way::Ended,
        Way::Out(n) => Way::Out(n),
    }
}

// A statement without a wait, with all that stands in it.
#[cycle(reset_inside)]
fn inside(s: &CoreStmt, alloc: Global, known: Known<'_>) -> Result<(), Stop>
    ensures stop { IfErr result MayStop }
    ensures first { (cs : Cells) → DecidesAll known.entry cs (s.now ∷ []) → LoadsAll known.entry cs (s.now ∷ []) → IsLoaded (unloaded cs (code_of (s.now ∷ []))) result }
{
    match &s.node {
        CoreNode::Assign { left, value } => assigned(s.place, left, value, alloc, known),
        CoreNode::If { test, yes, no } => {
            tested(s.place, test, known)?;
            each(yes.as_slice(), alloc, known)?;
            each(no.as_slice(), alloc, known)
        }
        CoreNode::Block(body) => each(body.as_slice(), alloc, known),
        CoreNode::Loop { body, .. } => each(body.as_slice(), alloc, known),
        CoreNode::Exit(_) => Ok(()),
        CoreNode::Wait { .. } => Ok(()),
        CoreNode::Alias { .. } => Ok(()),
    }
}

#[cycle(reset_inside)]
fn each(body: &[CoreStmt], alloc: Global, known: Known<'_>) -> Result<(), Stop>
    ensures stop { IfErr result MayStop }
    ensures first { (cs : Cells) → DecidesAll known.entry cs body.now → LoadsAll known.entry cs body.now → IsLoaded (unloaded cs (code_of body.now)) result }
{
    for s in body {
        inside(s, alloc, known)?;
    }
    Ok(())
}

fn assigned(
    place: Place,
    left: &CoreLeft,
    value: &CoreExpr,
    alloc: Global,
    known: Known<'_>,
) -> Result<(), Stop>
    ensures stop { IfErr result MayStop }
    ensures first { IsLoaded (when (not (loads_in known.entry left.now value.now)) place) result }
{
    if gives_static(alloc, known, left, value)? {
        Ok(())
    } else {
        Err(Stop::refused(Code::ResetValue, place))
    }
}

fn tested(place: Place, test: &CoreExpr, known: Known<'_>) -> Result<(), Stop>
    ensures stop { IfErr result MayStop }
    ensures first { (cs : Cells) → Decides known.entry cs test.now → IsLoaded (when (not (is_some (goes cs (term_of test.now)))) place) result }
{
    match known.goes(test) {
        Some(_) => Ok(()),
        None => Err(Stop::refused(Code::ResetValue, place)),
    }
}

// Whether an assignment gives one whole cell a static value.
#[tactic(auto, unfolding(crate::specs::Resets::loads_in))]
fn gives_static(
    alloc: Global,
    known: Known<'_>,
    left: &CoreLeft,
    value: &CoreExpr,
) -> Result<bool, NoMemory>
    ensures { IfOk result (λ b. b ≡ loads_in known.entry left.now value.now) }
{
    match known.named(alloc, left)? {
        Some(named) => {
            let fills = is_filled(&named, left, known)?;
            Ok(fills && is_static(value, known))
        }
        None => Ok(false),
    }
}

fn is_static(value: &CoreExpr, known: Known<'_>) -> bool
    ensures { result ≡ is_some (value_in (facts_in known.entry) value.now) }
{
    known.value(value).is_some()
}
