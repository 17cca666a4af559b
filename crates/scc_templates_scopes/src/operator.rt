//! Operators on constants.
ghost use Rattle.std.specs.Prelude.{◌≡◌, IfErr, true};
ghost use Rattle.scc_plain_spec.specs.Numbers.{chosen, is_shift, operated, operated_alone};
ghost use Rattle.scc_plain_spec.specs.Parts.{operator_of};
ghost use Rattle.scc_templates_scopes.specs.Applied.{taken};
ghost use Rattle.scc_templates_scopes.specs.Refusals.{MayStop};
ghost use Rattle.scc_templates_scopes.specs.Walks.{Gives};

use crate::constant::{beside, choice_kind, kind_beside, stored};
use crate::refuse::{gone, refuse};
use scc_base::{Code, Place, Stop};
use scc_bits::{Fault, Op, Value};
use scc_tree::UnaryOp;

/// The operator that stands before one operand, None where it is one on pointers.
pub fn operator_of(op: UnaryOp) -> Option<Op>
    ensures { result ≡ operator_of op }
{
    match op {
        UnaryOp::Plus => Some(Op::Plus),
        UnaryOp::Neg => Some(Op::Neg),
        UnaryOp::LogNot => Some(Op::LogNot),
        UnaryOp::Not => Some(Op::Not),
        UnaryOp::Deref | UnaryOp::Address => None,
    }
}

/// An operator on one constant.
pub fn operate_one(op: Op, a: Value, at: Place) -> Result<Value, Stop>
    ensures stop { IfErr result MayStop }
    ensures is { Gives (λ v. v) result (operated_alone at op a) }
{
    match a.applied(op, a) {
        Ok(v) => Ok(v),
        Err(Fault::NoRow) => refuse(Code::Mismatch, at), // E304
        Err(Fault::TooWide) => refuse(Code::WideLoss, at), // E310
        // No division stands before its operand.
        Err(Fault::Divisor) => gone(),
    }
}

// An operator on two constants in the kinds in which they count.
fn taken(op: Op, a: Value, b: Value, at: Place) -> Result<Value, Stop>
    ensures stop { IfErr result MayStop }
    ensures is { Gives (λ v. v) result (taken at op a b) }
{
    match a.applied(op, b) {
        Ok(v) => Ok(v),
        Err(Fault::NoRow) => refuse(Code::Mismatch, at),
        Err(Fault::TooWide) => refuse(Code::WideLoss, at),
        Err(Fault::Divisor) => refuse(Code::Divisor, at), // E311
    }
}

fn is_shift(op: Op) -> bool
    ensures { result ≡ is_shift op }
{
    matches!(op, Op::Shl | Op::Shr)
}

/// An operator on two constants. Each counts by its value beside a large one, but not in a shift.
pub fn operate(op: Op, a: Value, b: Value, at: Place) -> Result<Value, Stop>
    ensures stop { IfErr result MayStop }
    ensures is { Gives (λ v. v) result (operated at op a b) }
{
    if is_shift(op) {
        return taken(op, a, b, at);
    }
    taken(op, beside(a, b.kind()), beside(b, a.kind()), at)
}

/// `test ? a : b`.
pub fn choose(test: bool, a: Value, b: Value, at: Place) -> Result<Value, Stop>
    ensures stop { IfErr result MayStop }
    ensures is { Gives (λ v. v) result (chosen at test a b) }
{
    let left = kind_beside(a, b.kind());
    let right = kind_beside(b, a.kind());
    let Some(kind) = choice_kind(left, right) else {
        return refuse(Code::Mismatch, at);
    };
    match stored(if test { a } else { b }, kind) {
        Some(v) => Ok(v),
        None => gone(),
    }
}
