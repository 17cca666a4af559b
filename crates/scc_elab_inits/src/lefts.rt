//! What is declared where left sides lead, and the member that they begin with. A chain of pointers is as long as its source, so it is
//! gone along by a loop.
ghost use Rattle.std.specs.Prelude.{◌≡◌, ◌<◌, ℕ, List, None, map, slice_get, IfOk, IfSome};
ghost use Rattle.scc_base.specs.declared.refusal.Place.{Place};
ghost use Rattle.scc_semantics.specs.Location.{Part};
ghost use Rattle.scc_plain_tree.specs.declared.expr.PlainLeft.{size-PlainLeft};
ghost use Rattle.scc_plain_tree.specs.declared.program.Plain.{Plain as Tree};
ghost use Rattle.scc_plain_tree.specs.declared.program.PlainFunction.{PlainFunction as Declared};
ghost use Rattle.scc_elab_spec.specs.Construct.{ends_in_vector as ends_there};
ghost use Rattle.scc_elab_spec.specs.Grown.{Grown};
ghost use Rattle.scc_elab_spec.specs.Inits.{first_member as first_there};
ghost use Rattle.scc_plain_view.specs.Terms.{left_of};
ghost use Rattle.scc_elab_inits.specs.Lefts as spec;
ghost use Rattle.scc_elab_inits.specs.Sites.{site};

use scc_base::{NoMemory, push};
use scc_plain_tree::{Base, Plain, PlainBase, PlainFunction, PlainLeft, PlainMember, PlainPart};
use std::alloc::Global;

/// What stands at a location when the arrays around it are gone through, and whether it is declared as a vector.
#[derive(Clone, Copy)]
pub struct Spot {
    pub base: Option<Base>,
    pub vector: bool,
}

/// A function of a program.
#[derive(Clone, Copy)]
pub struct Around<'t> {
    pub alloc: Global,
    pub plain: &'t Plain,
    pub function: &'t PlainFunction,
}

fn class_in(base: Option<Base>) -> Option<u32>
    ensures { result ≡ spec.class_in base }
{
    match base {
        Some(Base::Class(class)) => Some(class),
        Some(Base::Number(_)) => None,
        Some(Base::Input(_)) => None,
        Some(Base::Output(_)) => None,
        Some(Base::Signal(_)) => None,
        Some(Base::ModuleName) => None,
        None => None,
    }
}

fn undeclared() -> Spot
    ensures { result ≡ spec.declared None }
{
    Spot {
        base: None,
        vector: false,
    }
}

fn declared(member: &PlainMember) -> Spot
    ensures { result ≡ spec.declared (Some member.now) }
{
    Spot {
        base: Some(member.shape.base),
        vector: member.shape.vector,
    }
}

fn member_of(p: &Plain, class: u32, number: u32) -> Spot
    ensures { result ≡ spec.declared (spec.member_in p.now (Some class) number) }
{
    match p.classes.get(class as usize) {
        Some(k) => match k.members.get(number as usize) {
            Some(member) => declared(member),
            None => undeclared(),
        },
        None => undeclared(),
    }
}

fn member_at(p: &Plain, class: Option<u32>, number: u32) -> Spot
    ensures { result ≡ spec.declared (spec.member_in p.now class number) }
{
    match class {
        Some(class) => member_of(p, class, number),
        None => undeclared(),
    }
}

fn local_at(function: &PlainFunction, local: u32) -> Spot
    ensures { result ≡ spec.declared (slice_get function.now.locals local) }
{
    match function.locals.get(local as usize) {
        Some(member) => declared(member),
        None => undeclared(),
    }
}

// A part of what stands somewhere.
fn step(s: &Around, part: &PlainPart, from: Spot) -> Spot
    ensures { result ≡ (spec.part s.now.plain.now s.now.function.now part.now).step from }
{
    match part {
        PlainPart::Member(number) => member_at(s.plain, class_in(from.base), *number),
        PlainPart::Index(_) => from,
    }
}

// Parts from left to right.
fn walked(s: &Around, parts: &[PlainPart], from: Spot) -> Spot
    ensures { result ≡ spec.walked (map (spec.part s.now.plain.now s.now.function.now) parts.now) from }
{
    let mut at = from;
    for part in parts {
        at = step(s, part, at);
    }
    at
}

fn of_base(base: Option<Base>) -> Spot
    ensures { result ≡ spec.of_base base }
{
    Spot {
        base,
        vector: false,
    }
}

// What stands where a location begins, by what stands at the pointer that it follows.
fn begun(s: &Around, base: &PlainBase, pointer: Option<Base>) -> Spot
    ensures { result ≡ (spec.base s.now.plain.now s.now.function.now base.now).over pointer }
{
    match base {
        PlainBase::Local(local) => local_at(s.function, *local),
        PlainBase::This => match s.function.class {
            Some(class) => of_base(Some(Base::Class(class))),
            None => of_base(None),
        },
        PlainBase::Answer(_) => of_base(None),
        PlainBase::Follow(_) => of_base(pointer),
    }
}

// A location, by what stands at the pointer that it follows.
fn over(s: &Around, left: &PlainLeft, pointer: Option<Base>) -> Spot
    ensures { result ≡ (spec.left s.now.plain.now s.now.function.now left.now).over pointer }
{
    walked(s, left.parts.as_slice(), begun(s, &left.base, pointer))
}

// The pointer that a location follows.
fn pointer_of<'t>(s: &Around, left: &'t PlainLeft) -> Option<&'t PlainLeft>
    ensures size { IfSome result (λ x. size-PlainLeft x.now < size-PlainLeft left.now) }
    ensures some { IfSome result (λ x. (spec.left s.now.plain.now s.now.function.now left.now).at ≡ (spec.left s.now.plain.now s.now.function.now left.now).over (spec.left s.now.plain.now s.now.function.now x.now).at.base) }
    ensures none { result ≡ None → (spec.left s.now.plain.now s.now.function.now left.now).at ≡ (spec.left s.now.plain.now s.now.function.now left.now).over None }
{
    match &left.base {
        PlainBase::Follow(pointer) => Some(pointer.get()),
        PlainBase::Local(_) => None,
        PlainBase::This => None,
        PlainBase::Answer(_) => None,
    }
}

#[tactic(auto, using(crate::proofs::Chains::over_all_push))]
fn seen_at(s: &Around, left: &PlainLeft) -> Result<Spot, NoMemory>
    ensures { IfOk result (λ at. at ≡ (spec.left s.now.plain.now s.now.function.now left.now).at) }
{
    let mut spine = Vec::new(s.alloc);
    let mut here = left;
    while let Some(inner) = pointer_of(s, here) {
        push(&mut spine, here)?;
        here = inner;
    }
    let mut at = over(s, here, None);
    while let Some(outer) = spine.pop() {
        at = over(s, outer, at.base);
    }
    Ok(at)
}

/// Whether a left side leads to what is declared as a vector, or to an element of an array of these.
#[tactic(auto, using(crate::proofs::Trees::vector_is))]
pub fn ends_in_vector(s: &Around, left: &PlainLeft) -> Result<bool, NoMemory>
    ensures { IfOk result (λ b. (o : ℕ) (q : List Part) (g : Grown) → b ≡ ends_there (site s.now.plain.now s.now.function.now o q g) (left_of left.now)) }
{
    match seen_at(s, left) {
        Ok(at) => Ok(at.vector),
        Err(no_memory) => Err(no_memory),
    }
}

fn is_this(base: &PlainBase) -> bool
    ensures { (t : Tree) (f : Declared) → result ≡ (spec.base t f base.now).is_this }
{
    match base {
        PlainBase::This => true,
        PlainBase::Local(_) => false,
        PlainBase::Answer(_) => false,
        PlainBase::Follow(_) => false,
    }
}

fn own_member(part: &PlainPart) -> Option<u32>
    ensures { (t : Tree) (f : Declared) → result ≡ (spec.part t f part.now).first }
{
    match part {
        PlainPart::Member(number) => Some(*number),
        PlainPart::Index(_) => None,
    }
}

fn first_of(parts: &[PlainPart]) -> Option<u32>
    ensures { (t : Tree) (f : Declared) → result ≡ spec.first_of (map (spec.part t f) parts.now) }
{
    match parts {
        [] => None,
        [part, _rest @ ..] => own_member(part),
    }
}

fn first_seen(left: &PlainLeft) -> Option<u32>
    ensures { (t : Tree) (f : Declared) → result ≡ (spec.left t f left.now).first }
{
    if is_this(&left.base) {
        first_of(left.parts.as_slice())
    } else {
        None
    }
}

/// The member of the object at hand that a left side begins with.
#[tactic(auto, using(crate::proofs::Trees::first_is))]
pub fn first_member(left: &PlainLeft) -> Option<u32>
    ensures { result ≡ first_there (left_of left.now) }
{
    first_seen(left)
}
