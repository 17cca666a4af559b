//! Expressions. A chain of operators and one of pointers are as long as their source, so they are gone along by loops.
ghost use Rattle.std.specs.Prelude.{◌≡◌, IfOk, Some, true, map, option_map};
ghost use Rattle.scc_plain_look.specs.Held.{around};
ghost use Rattle.scc_plain_look.specs.Held as held;
ghost use Rattle.scc_plain_look.specs.Constant as constant;
ghost use Rattle.scc_plain_look.specs.Seen as seen;
ghost use Rattle.scc_plain_look.specs.Steps as look;

use crate::constant::known;
use crate::demand::{deeper, demand};
use crate::held::{Held, is_leading, is_number, is_port};
use crate::number::{is_division, is_kind, is_word};
use crate::place::{held, is_within};
use crate::scope::{ROOM, Scope};
use scc_base::{NoMemory, lost};
use scc_bits::Op;
use scc_plain_tree::{PlainBase, PlainExpr, PlainExprNode, PlainLeft, PlainPart, PlainPick};

/// Looks whether an expression is whole.
#[cycle(expression)]
pub(crate) fn look_expr(s: &Scope, e: &PlainExpr, room: u32) -> Result<(), NoMemory>
    ensures whole { IfOk result (λ u. (seen.expr e.now).whole (around s.now.plain.now s.now.function.now s.now.calls.now) ≡ true) }
{
    let room = deeper(room)?;
    let mut here = e;
    loop {
        demand(is_kind(here.kind))?;
        match here.node.get() {
            PlainExprNode::Lit(word) => return demand(is_word(here.kind, *word)),
            PlainExprNode::Load(left) => return look_number(s, left, room),
            PlainExprNode::Read(left) => return look_port(s, left, room),
            PlainExprNode::Convert(of) => here = of,
            PlainExprNode::Operate { op, left, right } => {
                look_operand(s, *op, right, room)?;
                here = left;
            }
            PlainExprNode::Choose { test, yes, no } => {
                look_expr(s, yes, room)?;
                look_expr(s, no, room)?;
                here = test;
            }
            PlainExprNode::Pick { of, pick } => {
                demand(is_within(pick, of.kind))?;
                look_pick(s, pick, room)?;
                here = of;
            }
            PlainExprNode::Join(parts) => return look_exprs(s, parts.as_slice(), room),
        }
    }
}

#[cycle(expression)]
fn look_exprs(s: &Scope, list: &[PlainExpr], room: u32) -> Result<(), NoMemory>
    ensures whole { IfOk result (λ u. seen.each_whole (map seen.expr list.now) (around s.now.plain.now s.now.function.now s.now.calls.now) ≡ true) }
{
    for e in list {
        look_expr(s, e, room)?;
    }
    Ok(())
}

// A right operand; a divisor is a constant other than 0.
#[cycle(expression)]
fn look_operand(s: &Scope, op: Op, right: &Option<PlainExpr>, room: u32) -> Result<(), NoMemory>
    ensures whole { IfOk result (λ u. seen.operand_whole op (option_map seen.expr right.now) (around s.now.plain.now s.now.function.now s.now.calls.now) ≡ true) }
{
    let Some(right) = right else {
        return Ok(());
    };
    look_expr(s, right, room)?;
    if is_division(op) {
        look_divisor(s, right)?;
    }
    Ok(())
}

fn look_divisor(s: &Scope, e: &PlainExpr) -> Result<(), NoMemory>
    ensures whole { IfOk result (λ u. constant.is_nonzero (seen.expr e.now).known ≡ true) }
{
    match known(s.alloc, e, ROOM)? {
        Some(v) => demand(v.is_true()),
        None => Err(lost()),
    }
}

#[cycle(expression)]
fn look_pick(s: &Scope, pick: &PlainPick, room: u32) -> Result<(), NoMemory>
    ensures whole { IfOk result (λ u. (seen.pick pick.now).whole (around s.now.plain.now s.now.function.now s.now.calls.now) ≡ true) }
{
    match pick {
        PlainPick::Bit { at: e, .. } => look_expr(s, e, room),
        PlainPick::Range { .. } => Ok(()),
    }
}

#[cycle(expression)]
fn look_picked(s: &Scope, pick: &Option<PlainPick>, room: u32) -> Result<(), NoMemory>
    ensures whole { IfOk result (λ u. seen.pick_whole (option_map seen.pick pick.now) (around s.now.plain.now s.now.function.now s.now.calls.now) ≡ true) }
{
    match pick {
        Some(pick) => look_pick(s, pick, room),
        None => Ok(()),
    }
}

#[cycle(expression)]
fn look_part(s: &Scope, part: &PlainPart, room: u32) -> Result<(), NoMemory>
    ensures whole { IfOk result (λ u. (seen.part part.now).whole (around s.now.plain.now s.now.function.now s.now.calls.now) ≡ true) }
{
    match part {
        PlainPart::Member(_) => Ok(()),
        PlainPart::Index(e) => look_expr(s, e, room),
    }
}

#[cycle(expression)]
fn look_parts(s: &Scope, parts: &[PlainPart], room: u32) -> Result<(), NoMemory>
    ensures whole { IfOk result (λ u. seen.parts_whole (map seen.part parts.now) (around s.now.plain.now s.now.function.now s.now.calls.now) ≡ true) }
{
    for part in parts {
        look_part(s, part, room)?;
    }
    Ok(())
}

// The expressions in a location.
#[cycle(expression)]
fn look_left(s: &Scope, left: &PlainLeft, room: u32) -> Result<(), NoMemory>
    ensures whole { IfOk result (λ u. (seen.left left.now).whole (around s.now.plain.now s.now.function.now s.now.calls.now) ≡ true) }
{
    let mut here = left;
    loop {
        look_parts(s, here.parts.as_slice(), room)?;
        look_picked(s, &here.pick, room)?;
        match &here.base {
            PlainBase::Local(_) => return Ok(()),
            PlainBase::This => return Ok(()),
            PlainBase::Answer(_) => return Ok(()),
            PlainBase::Follow(pointer) => here = pointer.get(),
        }
    }
}

// What stands at a location that has to be there.
fn found(s: &Scope, left: &PlainLeft) -> Result<Held, NoMemory>
    ensures held { IfOk result (λ h. (seen.left left.now).held (around s.now.plain.now s.now.function.now s.now.calls.now) ≡ Some h) }
{
    match held(s, left)? {
        Some(h) => Ok(h),
        None => Err(lost()),
    }
}

#[cycle(expression)]
fn look_number(s: &Scope, left: &PlainLeft, room: u32) -> Result<(), NoMemory>
    ensures whole { IfOk result (λ u. look.is_place held.is_number (around s.now.plain.now s.now.function.now s.now.calls.now) left.now ≡ true) }
{
    look_left(s, left, room)?;
    demand(is_number(found(s, left)?))
}

#[cycle(expression)]
fn look_port(s: &Scope, left: &PlainLeft, room: u32) -> Result<(), NoMemory>
    ensures whole { IfOk result (λ u. look.is_place held.is_port (around s.now.plain.now s.now.function.now s.now.calls.now) left.now ≡ true) }
{
    look_left(s, left, room)?;
    demand(is_port(found(s, left)?))
}

/// Looks whether an expression is whole.
pub(crate) fn look_value(s: &Scope, e: &PlainExpr) -> Result<(), NoMemory>
    ensures whole { IfOk result (λ u. look.is_value (around s.now.plain.now s.now.function.now s.now.calls.now) e.now ≡ true) }
{
    look_expr(s, e, ROOM)
}

/// Looks whether a location is a number, or bits of one.
pub(crate) fn look_variable(s: &Scope, left: &PlainLeft) -> Result<(), NoMemory>
    ensures whole { IfOk result (λ u. look.is_place held.is_number (around s.now.plain.now s.now.function.now s.now.calls.now) left.now ≡ true) }
{
    look_number(s, left, ROOM)
}

/// Looks whether a location is a port or signal.
pub(crate) fn look_signal(s: &Scope, left: &PlainLeft) -> Result<(), NoMemory>
    ensures whole { IfOk result (λ u. look.is_place held.is_port (around s.now.plain.now s.now.function.now s.now.calls.now) left.now ≡ true) }
{
    look_port(s, left, ROOM)
}

/// Looks whether a location is a pointer or reference.
pub(crate) fn look_pointer(s: &Scope, left: &PlainLeft) -> Result<(), NoMemory>
    ensures whole { IfOk result (λ u. look.is_place held.is_leading (around s.now.plain.now s.now.function.now s.now.calls.now) left.now ≡ true) }
{
    look_left(s, left, ROOM)?;
    demand(is_leading(found(s, left)?))
}

/// Looks whether a location is there.
pub(crate) fn look_place(s: &Scope, left: &PlainLeft) -> Result<(), NoMemory>
    ensures whole { IfOk result (λ u. look.is_place look.is_any (around s.now.plain.now s.now.function.now s.now.calls.now) left.now ≡ true) }
{
    look_left(s, left, ROOM)?;
    let _held = found(s, left)?;
    Ok(())
}
