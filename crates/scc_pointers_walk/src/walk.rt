//! Expressions and locations (E405, E512). First operands, and pointers in one another, are as many as a source is long, so they are walked by
//! loops.
ghost use Rattle.std.specs.Prelude.{◌≡◌, ◌<◌, Err, Bool, IfOk, IfSome, Some, [], map, option_map};
ghost use Rattle.std.specs.Option.{option_copied};
ghost use Rattle.scc_base.specs.declared.refusal.Refusal.{Refusal};
ghost use Rattle.scc_base.specs.declared.refusal.Stop.TheVariants as stop;
ghost use Rattle.scc_core.specs.Copies.{IsChain};
ghost use Rattle.scc_core.specs.declared.expr.CoreExpr.{size-CoreExpr};
ghost use Rattle.scc_core_spec.specs.Resolved.{Made};
ghost use Rattle.scc_pointers_walk.specs.Led.{Gives};
ghost use Rattle.scc_pointers_walk.specs.Pointers.{IsOfPointers};
ghost use Rattle.scc_pointers_walk.specs.Walked as trees;
ghost use Rattle.scc_pointers_walk.specs.Walked.{all_behind, bits_of, first_of, loaded_in, pointer_of, reached, read_in, shown_in, some_pick, target_in, walked_in, with_pick};

use crate::follow::{leads, pointers, sure};
use crate::held::Resolver;
use crate::locate::{aimed, element, looked, member};
use scc_base::{Code, List, NoMemory, Stop, lost, push};
use scc_core::{CoreBase, CoreExpr, CoreExprNode, CoreLeft, CorePart, CorePick, LEVELS, deeper};
use std::alloc::Global;

/// An expression without pointers.
pub fn expression(r: &Resolver<'_>, e: &CoreExpr) -> Result<CoreExpr, Stop>
    ensures trees { Gives (λ x. x) result (trees.expr_in r.now e.now) }
    ensures stop { (q : Refusal) → result ≡ Err (stop.Refused q) → IsOfPointers q }
{
    expr_in(r, e, LEVELS)
}

/// A location without pointers, with the part of a number that is assigned; following null is refused.
pub fn location(r: &Resolver<'_>, left: &CoreLeft) -> Result<CoreLeft, Stop>
    ensures trees { Gives (λ l. l) result (loaded_in r.now left.now) }
    ensures stop { (q : Refusal) → result ≡ Err (stop.Refused q) → IsOfPointers q }
{
    loaded(r, left, LEVELS)
}

/// Where a location leads before it is looked at as a whole; None for null, which a soft one alone comes to.
pub fn walked(r: &Resolver<'_>, left: &CoreLeft, soft: bool) -> Result<Option<CoreLeft>, Stop>
    ensures trees { Gives (λ o. o) result (walked_in r.now left.now soft) }
    ensures stop { (q : Refusal) → result ≡ Err (stop.Refused q) → IsOfPointers q }
{
    to(r, left, soft, LEVELS)
}

/// A target; None where it is null, or behind null.
pub fn target(r: &Resolver<'_>, left: &CoreLeft) -> Result<Option<CoreLeft>, Stop>
    ensures trees { Gives (λ o. o) result (target_in r.now left.now) }
    ensures stop { (q : Refusal) → result ≡ Err (stop.Refused q) → IsOfPointers q }
{
    match walked(r, left, true)? {
        Some(found) => Ok(Some(aimed(r, found, left.place)?)),
        None => Ok(None),
    }
}

// Whether an expression loads a variable as a whole.
fn is_load(e: &CoreExpr) -> bool
    ensures { result ≡ trees.is_load e.now }
{
    match e.node.get() {
        CoreExprNode::Load(left) => left.pick.is_none(),
        CoreExprNode::Lit(_)
        | CoreExprNode::Read(_)
        | CoreExprNode::Join(_)
        | CoreExprNode::Convert(_)
        | CoreExprNode::Operate { .. }
        | CoreExprNode::Choose { .. }
        | CoreExprNode::Pick { .. } => false,
    }
}

// The operand that is resolved first. A variable is looked at behind the index of its bit.
fn first_operand(e: &CoreExpr) -> Option<&CoreExpr>
    ensures size { IfSome result (λ x. size-CoreExpr x.now < size-CoreExpr e.now) }
    ensures operand { option_copied result ≡ first_of e.now }
{
    match e.node.get() {
        CoreExprNode::Convert(of) => Some(of),
        CoreExprNode::Operate { left, .. } => Some(left),
        CoreExprNode::Choose { test, .. } => Some(test),
        CoreExprNode::Pick { of, .. } => { if is_load(of) { None } else { Some(of) } }
        CoreExprNode::Lit(_)
        | CoreExprNode::Load(_)
        | CoreExprNode::Read(_)
        | CoreExprNode::Join(_) => None,
    }
}

// An expression and the operands that are resolved before it, from the outermost on.
fn spine(alloc: Global, e: &CoreExpr) -> Result<Vec<&CoreExpr>, NoMemory>
    ensures { IfOk result (λ v. IsChain first_of e.now (map (λ x. x.now) v.items)) }
{
    let mut found = Vec::new(alloc);
    let mut here = e;
    push(&mut found, here)?;
    loop {
        match first_operand(here) {
            Some(inner) => {
                here = inner;
                push(&mut found, here)?;
            }
            None => return Ok(found),
        }
    }
}

#[cycle(resolve)]
fn expr_in(r: &Resolver<'_>, e: &CoreExpr, levels: u32) -> Result<CoreExpr, Stop>
    ensures trees { Gives (λ x. x) result (trees.expr_in r.now e.now) }
    ensures stop { (q : Refusal) → result ≡ Err (stop.Refused q) → IsOfPointers q }
{
    let levels = deeper(levels)?;
    let list = spine(r.alloc, e)?;
    let mut made = None;
    let mut more = list.len();
    while more > 0 {
        more -= 1;
        made = Some(over(r, list[more], made, levels)?);
    }
    match made {
        Some(made) => Ok(made),
        None => Err(Stop::from(lost())),
    }
}

// An expression whose first operand is resolved, if it has one.
#[cycle(resolve)]
fn over(
    r: &Resolver<'_>,
    e: &CoreExpr,
    first: Option<CoreExpr>,
    levels: u32,
) -> Result<CoreExpr, Stop>
    ensures trees { option_map Made first ≡ option_map (trees.expr_in r.now) (first_of e.now) → Gives (λ x. x) result (trees.expr_in r.now e.now) }
    ensures stop { (q : Refusal) → result ≡ Err (stop.Refused q) → IsOfPointers q }
{
    match first {
        Some(first) => behind(r, e, first, levels),
        None => leaf(r, e, levels),
    }
}

// An expression without a first operand.
#[cycle(resolve)]
fn leaf(r: &Resolver<'_>, e: &CoreExpr, levels: u32) -> Result<CoreExpr, Stop>
    ensures trees { Gives (λ x. x) result (trees.expr_in r.now e.now) }
    ensures stop { (q : Refusal) → result ≡ Err (stop.Refused q) → IsOfPointers q }
{
    let node = match e.node.get() {
        CoreExprNode::Lit(word) => CoreExprNode::Lit(*word),
        CoreExprNode::Load(left) => CoreExprNode::Load(loaded(r, left, levels)?),
        CoreExprNode::Read(left) => CoreExprNode::Read(read(r, left, levels)?),
        CoreExprNode::Join(parts) => CoreExprNode::Join(list_in(r, parts.as_slice(), levels)?),
        CoreExprNode::Pick { of, pick } => return bits(r, e, of, pick, levels),
        CoreExprNode::Convert(_) | CoreExprNode::Operate { .. } | CoreExprNode::Choose { .. } =>
            return Err(Stop::from(lost())),
    };
    Ok(CoreExpr::new(r.alloc, e.place, e.kind, node)?)
}

// Bits of a variable: its location, then the index of a bit, and only then whether an object is chosen.
#[cycle(resolve)]
fn bits(
    r: &Resolver<'_>,
    e: &CoreExpr,
    of: &CoreExpr,
    pick: &CorePick,
    levels: u32,
) -> Result<CoreExpr, Stop>
    ensures trees { Gives (λ x. x) result (bits_of r.now e.now.place e.now.kind (shown_in r.now of.now).made (trees.pick_in r.now pick.now) (shown_in r.now of.now).load) }
    ensures stop { (q : Refusal) → result ≡ Err (stop.Refused q) → IsOfPointers q }
{
    match of.node.get() {
        CoreExprNode::Load(left) => {
            if left.pick.is_some() {
                return Err(Stop::from(lost()));
            }
            let m = sure(left.place, to(r, left, false, levels)?)?;
            let pick = pick_in(r, pick, levels)?;
            let m = looked(r, m)?;
            let of = CoreExpr::new(
                r.alloc,
                of.place,
                of.kind,
                CoreExprNode::Load(with_pick(m, None)),
            )?;
            Ok(CoreExpr::new(r.alloc, e.place, e.kind, CoreExprNode::Pick { of, pick })?)
        }
        _ => Err(Stop::from(lost())),
    }
}

// An expression whose first operand is resolved.
#[cycle(resolve)]
fn behind(r: &Resolver<'_>, e: &CoreExpr, first: CoreExpr, levels: u32) -> Result<CoreExpr, Stop>
    ensures trees { Some (Made first) ≡ option_map (trees.expr_in r.now) (first_of e.now) → Gives (λ x. x) result (trees.expr_in r.now e.now) }
    ensures stop { (q : Refusal) → result ≡ Err (stop.Refused q) → IsOfPointers q }
{
    let node = match e.node.get() {
        CoreExprNode::Convert(_) => CoreExprNode::Convert(first),
        CoreExprNode::Operate { op, right, .. } => {
            let right = some_expr(r, right, levels)?;
            CoreExprNode::Operate {
                op: *op,
                left: first,
                right,
            }
        }
        CoreExprNode::Choose { yes, no, .. } => {
            let yes = expr_in(r, yes, levels)?;
            let no = expr_in(r, no, levels)?;
            CoreExprNode::Choose {
                test: first,
                yes,
                no,
            }
        }
        CoreExprNode::Pick { pick, .. } => {
            let pick = pick_in(r, pick, levels)?;
            CoreExprNode::Pick { of: first, pick }
        }
        CoreExprNode::Lit(_)
        | CoreExprNode::Load(_)
        | CoreExprNode::Read(_)
        | CoreExprNode::Join(_) => return Err(Stop::from(lost())),
    };
    Ok(CoreExpr::new(r.alloc, e.place, e.kind, node)?)
}

#[cycle(resolve)]
fn some_expr(r: &Resolver<'_>, e: &Option<CoreExpr>, levels: u32) -> Result<Option<CoreExpr>, Stop>
    ensures trees { Gives (λ x. x) result (trees.some_made (option_map (shown_in r.now) e.now)) }
    ensures stop { (q : Refusal) → result ≡ Err (stop.Refused q) → IsOfPointers q }
{
    match e {
        Some(e) => Ok(Some(expr_in(r, e, levels)?)),
        None => Ok(None),
    }
}

#[cycle(resolve)]
fn list_in(r: &Resolver<'_>, list: &[CoreExpr], levels: u32) -> Result<List<CoreExpr>, Stop>
    ensures trees { Gives (λ x. x) result (all_behind [] (map (λ e. e.made) (map (shown_in r.now) list.now))) }
    ensures stop { (q : Refusal) → result ≡ Err (stop.Refused q) → IsOfPointers q }
{
    let mut made = List::new(r.alloc);
    for e in list {
        made.push(expr_in(r, e, levels)?)?;
    }
    Ok(made)
}

#[cycle(resolve)]
fn pick_in(r: &Resolver<'_>, pick: &CorePick, levels: u32) -> Result<CorePick, Stop>
    ensures trees { Gives (λ x. x) result (trees.pick_in r.now pick.now) }
    ensures stop { (q : Refusal) → result ≡ Err (stop.Refused q) → IsOfPointers q }
{
    match pick {
        CorePick::Bit { of, at } => {
            let at = expr_in(r, at, levels)?;
            Ok(CorePick::Bit { of: *of, at })
        }
        CorePick::Range { of, h, l } => Ok(CorePick::Range {
            of: *of,
            h: *h,
            l: *l,
        }),
    }
}

#[cycle(resolve)]
fn some_pick(
    r: &Resolver<'_>,
    pick: &Option<CorePick>,
    levels: u32,
) -> Result<Option<CorePick>, Stop>
    ensures trees { Gives (λ x. x) result (some_pick (option_map (trees.pick_in r.now) pick.now)) }
    ensures stop { (q : Refusal) → result ≡ Err (stop.Refused q) → IsOfPointers q }
{
    match pick {
        Some(pick) => Ok(Some(pick_in(r, pick, levels)?)),
        None => Ok(None),
    }
}

fn with_pick(left: CoreLeft, pick: Option<CorePick>) -> CoreLeft
    ensures { result ≡ with_pick left pick }
{
    let mut made = left;
    made.pick = pick;
    made
}

// What is loaded or assigned: the location, the index of its bit, and only then whether an object is chosen.
#[cycle(resolve)]
fn loaded(r: &Resolver<'_>, left: &CoreLeft, levels: u32) -> Result<CoreLeft, Stop>
    ensures trees { Gives (λ l. l) result (loaded_in r.now left.now) }
    ensures stop { (q : Refusal) → result ≡ Err (stop.Refused q) → IsOfPointers q }
{
    let found = sure(left.place, to(r, left, false, levels)?)?;
    let pick = some_pick(r, &left.pick, levels)?;
    Ok(with_pick(looked(r, found)?, pick))
}

// What a signal or port shows: the location as a whole, then the index of its bit.
#[cycle(resolve)]
fn read(r: &Resolver<'_>, left: &CoreLeft, levels: u32) -> Result<CoreLeft, Stop>
    ensures trees { Gives (λ l. l) result (read_in r.now left.now) }
    ensures stop { (q : Refusal) → result ≡ Err (stop.Refused q) → IsOfPointers q }
{
    let found = looked(r, sure(left.place, to(r, left, false, levels)?)?)?;
    let pick = some_pick(r, &left.pick, levels)?;
    Ok(with_pick(found, pick))
}

// Where a location leads.
#[cycle(resolve)]
fn to(r: &Resolver<'_>, left: &CoreLeft, soft: bool, levels: u32) -> Result<Option<CoreLeft>, Stop>
    ensures trees { Gives (λ o. o) result (walked_in r.now left.now soft) }
    ensures stop { (q : Refusal) → result ≡ Err (stop.Refused q) → IsOfPointers q }
{
    let levels = deeper(levels)?;
    let list = pointers(r.alloc, left, soft)?;
    let mut at = None;
    let mut more = list.len();
    while more > 0 {
        more -= 1;
        at = Some(reached(r, list[more], at, levels)?);
    }
    match at {
        Some(at) => Ok(at),
        None => Err(Stop::from(lost())),
    }
}

// Where a location leads whose pointer stands there, if it has one.
#[cycle(resolve)]
fn reached(
    r: &Resolver<'_>,
    at: (&CoreLeft, bool),
    pointer: Option<Option<CoreLeft>>,
    levels: u32,
) -> Result<Option<CoreLeft>, Stop>
    ensures trees { option_map Made pointer ≡ option_map (reached r.now) (pointer_of (at.entry.0.now, at.entry.1)) → Gives (λ o. o) result (reached r.now (at.entry.0.now, at.entry.1)) }
    ensures stop { (q : Refusal) → result ≡ Err (stop.Refused q) → IsOfPointers q }
{
    match pointer {
        Some(pointer) => {
            let target = leads(r, pointer)?;
            beyond(r, at.0, at.1, target, levels)
        }
        None => based(r, at.0, levels),
    }
}

// A location that follows no pointer.
#[cycle(resolve)]
fn based(r: &Resolver<'_>, left: &CoreLeft, levels: u32) -> Result<Option<CoreLeft>, Stop>
    ensures trees { (soft : Bool) → Gives (λ o. o) result (walked_in r.now left.now soft) }
    ensures stop { (q : Refusal) → result ≡ Err (stop.Refused q) → IsOfPointers q }
{
    let base = match &left.base {
        CoreBase::Cell(cell) => CoreBase::Cell(*cell),
        CoreBase::Prefix(name) => CoreBase::Prefix(name.copied(r.alloc)?),
        CoreBase::Null => return Ok(None),
        CoreBase::Follow { .. } => return Err(Stop::from(lost())),
    };
    let start = CoreLeft {
        place: left.place,
        base,
        parts: List::new(r.alloc),
        pick: None,
    };
    Ok(Some(with_parts(r, start, left.parts.as_slice(), levels)?))
}

// A location by where the pointer leads that it follows.
#[cycle(resolve)]
fn beyond(
    r: &Resolver<'_>,
    left: &CoreLeft,
    soft: bool,
    to: Option<CoreLeft>,
    levels: u32,
) -> Result<Option<CoreLeft>, Stop>
    ensures trees { Gives (λ o. o) result (trees.beyond left.now.place soft (map (trees.part_in r.now) left.now.parts) to) }
    ensures stop { (q : Refusal) → result ≡ Err (stop.Refused q) → IsOfPointers q }
{
    match to {
        Some(target) => {
            let mut start = target;
            start.place = left.place;
            Ok(Some(with_parts(r, start, left.parts.as_slice(), levels)?))
        }
        None => {
            if soft {
                Ok(None)
            } else {
                Err(Stop::refused(Code::EmptyPointer, left.place))
            }
        }
    }
}

// Parts from left to right.
#[cycle(resolve)]
fn with_parts(
    r: &Resolver<'_>,
    from: CoreLeft,
    parts: &[CorePart],
    levels: u32,
) -> Result<CoreLeft, Stop>
    ensures trees { Gives (λ l. l) result (trees.with_parts (map (trees.part_in r.now) parts.now) from) }
    ensures stop { (q : Refusal) → result ≡ Err (stop.Refused q) → IsOfPointers q }
{
    let mut at = from;
    for part in parts {
        at = step(r, part, at, levels)?;
    }
    Ok(at)
}

#[cycle(resolve)]
fn step(r: &Resolver<'_>, part: &CorePart, at: CoreLeft, levels: u32) -> Result<CoreLeft, Stop>
    ensures trees { Gives (λ l. l) result (trees.part_in r.now part.now at) }
    ensures stop { (q : Refusal) → result ≡ Err (stop.Refused q) → IsOfPointers q }
{
    match part {
        CorePart::Member(name) => Ok(member(r, at, *name)?),
        CorePart::Index { size, at: index } => {
            let index = expr_in(r, index, levels)?;
            Ok(element(r, at, *size, index)?)
        }
    }
}
