//! What stands at locations. A chain of pointers is as long as its source, so it is gone along by loops.
ghost use Rattle.std.specs.Prelude.{◌≡◌, IfOk, Some, map, option_map, option_and_then};
ghost use Rattle.scc_plain_look.specs.Held as held;
ghost use Rattle.scc_plain_look.specs.Held.{around};
ghost use Rattle.scc_plain_look.specs.Seen as seen;

use crate::held::{Held, answer, element, followed, is_single, local, member, this};
use crate::scope::Scope;
use scc_base::{NoMemory, push};
use scc_bits::{Kind, width};
use scc_plain_tree::{Base, PlainBase, PlainLeft, PlainPart, PlainPick};

/// Whether a pick is one of bits that a kind has.
pub(crate) fn is_within(pick: &PlainPick, kind: Kind) -> bool
    ensures within { result ≡ (seen.pick pick.now).within kind }
{
    match pick {
        PlainPick::Bit { .. } => true,
        PlainPick::Range { h, l, .. } => *l <= *h && *h < width(kind),
    }
}

fn is_within_base(pick: &PlainPick, base: Base) -> bool
    ensures { result ≡ seen.within_base (seen.pick pick.now).within base }
{
    match base {
        Base::Number(kind) => is_within(pick, kind),
        Base::Class(_) => false,
        Base::Input(_) => false,
        Base::Output(_) => false,
        Base::Signal(_) => false,
        Base::ModuleName => false,
    }
}

// What is picked of a number.
fn picked(pick: &Option<PlainPick>, h: Held) -> Option<Held>
    ensures { result ≡ seen.picked (option_map seen.pick pick.now) (Some h) }
{
    match pick {
        None => Some(h),
        Some(pick) => {
            if is_single(h) && is_within_base(pick, h.base) {
                Some(h)
            } else {
                None
            }
        }
    }
}

fn step(s: &Scope, part: &PlainPart, h: Held) -> Option<Held>
    ensures { result ≡ (seen.part part.now).step (around s.now.plain.now s.now.function.now s.now.calls.now) h }
{
    match part {
        PlainPart::Member(n) => member(s.plain, *n, h),
        PlainPart::Index(_) => element(h),
    }
}

fn steps(s: &Scope, parts: &[PlainPart], first: Held) -> Option<Held>
    ensures { result ≡ seen.steps (around s.now.plain.now s.now.function.now s.now.calls.now) (map seen.part parts.now) (Some first) }
{
    let mut h = first;
    for part in parts {
        h = step(s, part, h)?;
    }
    Some(h)
}

#[tactic(auto, using(crate::proofs::Chains::steps_none))]
fn steps_from(s: &Scope, parts: &[PlainPart], base: Option<Held>) -> Option<Held>
    ensures { result ≡ seen.steps (around s.now.plain.now s.now.function.now s.now.calls.now) (map seen.part parts.now) base }
{
    match base {
        Some(h) => steps(s, parts, h),
        None => None,
    }
}

#[tactic(auto, using(crate::proofs::Chains::picked_none))]
fn picked_from(pick: &Option<PlainPick>, h: Option<Held>) -> Option<Held>
    ensures { result ≡ seen.picked (option_map seen.pick pick.now) h }
{
    match h {
        Some(h) => picked(pick, h),
        None => None,
    }
}

// What stands at a location, by what stands at its base.
fn behind(s: &Scope, left: &PlainLeft, base: Option<Held>) -> Option<Held>
    ensures { result ≡ (seen.left left.now).behind (around s.now.plain.now s.now.function.now s.now.calls.now) base }
{
    let h = steps_from(s, left.parts.as_slice(), base);
    picked_from(&left.pick, h)
}

fn leads(pointer: Option<Held>) -> Option<Held>
    ensures { result ≡ option_and_then held.followed pointer }
{
    followed(pointer?)
}

/// What stands at a location; None where it names nothing.
#[tactic(auto, using(crate::proofs::Chains::behind_all_push))]
pub(crate) fn held(s: &Scope, left: &PlainLeft) -> Result<Option<Held>, NoMemory>
    ensures held { IfOk result (λ h. h ≡ (seen.left left.now).held (around s.now.plain.now s.now.function.now s.now.calls.now)) }
{
    let mut spine = Vec::new(s.alloc);
    let mut here = left;
    let base = loop {
        match &here.base {
            PlainBase::Local(n) => break local(s.function, *n),
            PlainBase::This => break this(s.function),
            PlainBase::Answer(n) => break answer(s.plain, s.calls, *n),
            PlainBase::Follow(pointer) => {
                push(&mut spine, here)?;
                here = pointer.get();
            }
        }
    };
    let mut h = behind(s, here, base);
    while let Some(outer) = spine.pop() {
        h = behind(s, outer, leads(h));
    }
    Ok(h)
}
