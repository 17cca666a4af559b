//! The numbers of constants. A chain of operators is as long as its source, so it is gone along by a loop.
ghost use Rattle.std.specs.Prelude.{◌≡◌, ◌<◌, IfOk, IfSome, Some, map};
ghost use Rattle.scc_plain_tree.specs.declared.expr.PlainExpr.{size-PlainExpr};
ghost use Rattle.scc_plain_look.specs.Constant as spec;
ghost use Rattle.scc_plain_look.specs.Seen.{expr, known_of_each};

use crate::demand::deeper;
use scc_base::{NoMemory, push};
use scc_bits::{Op, Value};
use scc_plain_tree::{PlainExpr, PlainExprNode};
use std::alloc::Global;

// The operand that stands first, and is as deep as a chain of operators is long.
fn first_operand(e: &PlainExpr) -> Option<&PlainExpr>
    ensures known { IfSome result (λ x. (expr e.now).known ≡ (expr e.now).over (expr x.now).known) }
    ensures size { IfSome result (λ x. size-PlainExpr x.now < size-PlainExpr e.now) }
{
    match e.node.get() {
        PlainExprNode::Convert(of) => Some(of),
        PlainExprNode::Operate { left, .. } => Some(left),
        PlainExprNode::Choose { test, .. } => Some(test),
        _ => None,
    }
}

/// The number of an expression that is made of literals; None where it isn't.
#[cycle(constant)]
#[tactic(auto, using(crate::proofs::Chains::over_all_push, crate::proofs::Chains::carried))]
pub(crate) fn known(alloc: Global, e: &PlainExpr, room: u32) -> Result<Option<Value>, NoMemory>
    ensures known { IfOk result (λ k. IfSome k (λ v. (expr e.now).known ≡ Some v)) }
{
    let room = deeper(room)?;
    let mut spine = Vec::new(alloc);
    let mut here = e;
    while let Some(inner) = first_operand(here) {
        push(&mut spine, here)?;
        here = inner;
    }
    let mut value = leaf(alloc, here, room)?;
    while let Some(outer) = spine.pop() {
        let Some(v) = value else {
            return Ok(None);
        };
        value = over(alloc, outer, v, room)?;
    }
    Ok(value)
}

// The number of an expression without operands that stand first.
#[cycle(constant)]
fn leaf(alloc: Global, e: &PlainExpr, room: u32) -> Result<Option<Value>, NoMemory>
    ensures known { IfOk result (λ k. IfSome k (λ v. (expr e.now).known ≡ Some v)) }
{
    match e.node.get() {
        PlainExprNode::Lit(word) => Ok(Value::of(e.kind, *word)),
        PlainExprNode::Join(parts) => joined(alloc, parts.as_slice(), room),
        _ => Ok(None),
    }
}

// The number of an expression from that of the operand that stands first.
#[cycle(constant)]
fn over(alloc: Global, e: &PlainExpr, v: Value, room: u32) -> Result<Option<Value>, NoMemory>
    ensures known { IfOk result (λ k. IfSome k (λ x. (expr e.now).over (Some v) ≡ Some x)) }
{
    match e.node.get() {
        PlainExprNode::Convert(_) => Ok(v.stored(e.kind)),
        PlainExprNode::Operate { op, right, .. } => match right {
            Some(right) => match known(alloc, right, room)? {
                Some(b) => Ok(applied(*op, v, b)),
                None => Ok(None),
            },
            None => Ok(applied(*op, v, v)),
        },
        PlainExprNode::Choose { yes, no, .. } => {
            let Some(yes) = known(alloc, yes, room)? else {
                return Ok(None);
            };
            let Some(no) = known(alloc, no, room)? else {
                return Ok(None);
            };
            let chosen = if v.is_true() { yes } else { no };
            Ok(chosen.stored(e.kind))
        }
        _ => Ok(None),
    }
}

fn applied(op: Op, a: Value, b: Value) -> Option<Value>
    ensures { IfSome result (λ v. spec.answered op (Some a) (Some b) ≡ Some v) }
{
    match a.applied(op, b) {
        Ok(v) => Some(v),
        Err(_) => None,
    }
}

fn above(high: Value, low: Value) -> Option<Value>
    ensures { IfSome result (λ v. spec.above (Some high) (Some low) ≡ Some v) }
{
    match high.joined(low) {
        Ok(v) => Some(v),
        Err(_) => None,
    }
}

// The number of a concatenation.
#[cycle(constant)]
fn joined(alloc: Global, parts: &[PlainExpr], room: u32) -> Result<Option<Value>, NoMemory>
    ensures known { IfOk result (λ k. IfSome k (λ v. spec.concatenated (known_of_each (map expr parts.now)) ≡ Some v)) }
{
    match parts {
        [] => Ok(None),
        [first, rest @ ..] => match known(alloc, first, room)? {
            Some(high) => behind(alloc, high, rest, room),
            None => Ok(None),
        },
    }
}

#[cycle(constant)]
fn behind(
    alloc: Global,
    first: Value,
    parts: &[PlainExpr],
    room: u32,
) -> Result<Option<Value>, NoMemory>
    ensures known { IfOk result (λ k. IfSome k (λ v. spec.above_all (Some first) (known_of_each (map expr parts.now)) ≡ Some v)) }
{
    let mut high = first;
    for part in parts {
        let Some(low) = known(alloc, part, room)? else {
            return Ok(None);
        };
        let Some(both) = above(high, low) else {
            return Ok(None);
        };
        high = both;
    }
    Ok(Some(high))
}
