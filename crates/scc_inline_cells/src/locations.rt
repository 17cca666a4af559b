//! What stands at a location of a function, by declarations alone, and the last member that it names. A chain of pointers is as
//! long as its source, so it is gone along by a loop.
ghost use Rattle.std.specs.Prelude.{◌≡◌, ◌<◌, None, map, slice_get, IfOk, IfSome};
ghost use Rattle.scc_plain_tree.specs.declared.expr.PlainLeft.{size-PlainLeft};
ghost use Rattle.scc_elab_spec.specs.Types.{last_member as last_member_of};
ghost use Rattle.scc_plain_view.specs.Plains.{plain_of, function_of};
ghost use Rattle.scc_plain_view.specs.Terms.{left_of};
ghost use Rattle.scc_inline_cells.specs.Spots as spec;

use scc_base::{NoMemory, push};
use scc_plain_tree::{Base, Plain, PlainBase, PlainFunction, PlainLeft, PlainPart};
use std::alloc::Global;

/// A member of a class, by their numbers.
#[derive(Clone, Copy, PartialEq, Eq, Hash)]
pub struct MemberOf {
    pub class: u32,
    pub member: u32,
}

/// What stands at a location when the arrays around it are gone through, and the last member that it names behind its last
/// pointer.
#[derive(Clone, Copy)]
pub struct Spot {
    pub base: Option<Base>,
    pub last: Option<MemberOf>,
}

/// A function of a program.
#[derive(Clone, Copy)]
pub struct Site<'t> {
    pub alloc: Global,
    pub plain: &'t Plain,
    pub function: &'t PlainFunction,
}

fn class_in(base: Option<Base>) -> Option<u32>
    ensures { result ≡ spec.class_in base }
{
    match base {
        Some(Base::Class(class)) => Some(class),
        Some(Base::Number(_)) => None,
        Some(Base::Input(_)) => None,
        Some(Base::Output(_)) => None,
        Some(Base::Signal(_)) => None,
        Some(Base::ModuleName) => None,
        None => None,
    }
}

fn member_base(p: &Plain, class: Option<u32>, number: u32) -> Option<Base>
    ensures { result ≡ spec.base_of (spec.member_in p.now class number) }
{
    let member = p
        .classes
        .get(class? as usize)?
        .members
        .get(number as usize)?;
    Some(member.shape.base)
}

fn local_base(function: &PlainFunction, local: u32) -> Option<Base>
    ensures { result ≡ spec.base_of (slice_get function.now.locals local) }
{
    let member = function.locals.get(local as usize)?;
    Some(member.shape.base)
}

fn named(class: Option<u32>, member: u32) -> Option<MemberOf>
    ensures { result ≡ spec.named class member }
{
    match class {
        Some(class) => Some(MemberOf { class, member }),
        None => None,
    }
}

// A part of what stands somewhere.
fn step(s: &Site, part: &PlainPart, from: Spot) -> Spot
    ensures { result ≡ spec.part s.now.plain.now s.now.function.now part.now from }
{
    match part {
        PlainPart::Member(number) => {
            let class = class_in(from.base);
            Spot {
                base: member_base(s.plain, class, *number),
                last: named(class, *number),
            }
        }
        PlainPart::Index(_) => from,
    }
}

// Parts from left to right.
fn walked(s: &Site, parts: &[PlainPart], base: Option<Base>) -> Spot
    ensures { result ≡ spec.walked (map (spec.part s.now.plain.now s.now.function.now) parts.now) (spec.begun base) }
{
    let mut at = Spot { base, last: None };
    for part in parts {
        at = step(s, part, at);
    }
    at
}

// What stands where a location begins, by what stands at the pointer that it follows.
fn begun(s: &Site, base: &PlainBase, pointer: Option<Base>) -> Option<Base>
    ensures { result ≡ (spec.base s.now.plain.now s.now.function.now base.now).over pointer }
{
    match base {
        PlainBase::Local(local) => local_base(s.function, *local),
        PlainBase::This => match s.function.class {
            Some(class) => Some(Base::Class(class)),
            None => None,
        },
        PlainBase::Answer(_) => None,
        PlainBase::Follow(_) => pointer,
    }
}

// A location, by what stands at the pointer that it follows.
fn over(s: &Site, left: &PlainLeft, pointer: Option<Base>) -> Spot
    ensures { result ≡ (spec.left s.now.plain.now s.now.function.now left.now).over pointer }
{
    walked(s, left.parts.as_slice(), begun(s, &left.base, pointer))
}

// The pointer that a location follows.
fn pointer_of<'t>(s: &Site, left: &'t PlainLeft) -> Option<&'t PlainLeft>
    ensures size { IfSome result (λ x. size-PlainLeft x.now < size-PlainLeft left.now) }
    ensures some { IfSome result (λ x. (spec.left s.now.plain.now s.now.function.now left.now).at ≡ (spec.left s.now.plain.now s.now.function.now left.now).over (spec.left s.now.plain.now s.now.function.now x.now).at.base) }
    ensures none { result ≡ None → (spec.left s.now.plain.now s.now.function.now left.now).at ≡ (spec.left s.now.plain.now s.now.function.now left.now).over None }
{
    match &left.base {
        PlainBase::Follow(pointer) => Some(pointer.get()),
        PlainBase::Local(_) => None,
        PlainBase::This => None,
        PlainBase::Answer(_) => None,
    }
}

/// What stands at a location, and the last member that it names.
#[tactic(auto, using(crate::proofs::Chains::over_all_push))]
pub fn spot_of(s: &Site, left: &PlainLeft) -> Result<Spot, NoMemory>
    ensures { IfOk result (λ at. at ≡ (spec.left s.now.plain.now s.now.function.now left.now).at) }
{
    let mut spine = Vec::new(s.alloc);
    let mut here = left;
    while let Some(inner) = pointer_of(s, here) {
        push(&mut spine, here)?;
        here = inner;
    }
    let mut at = over(s, here, None);
    while let Some(outer) = spine.pop() {
        at = over(s, outer, at.base);
    }
    Ok(at)
}

/// The last member that a location names behind its last pointer.
#[tactic(auto, using(crate::proofs::Trees::last_is))]
pub fn last_member(s: &Site, left: &PlainLeft) -> Result<Option<MemberOf>, NoMemory>
    ensures { IfOk result (λ m. spec.places m ≡ last_member_of (plain_of s.now.plain.now) (function_of s.now.function.now) (left_of left.now)) }
{
    match spot_of(s, left) {
        Ok(at) => Ok(at.last),
        Err(no_memory) => Err(no_memory),
    }
}
