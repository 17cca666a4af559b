//! Operators on lowered operands.
ghost use Rattle.std.specs.Prelude.{◌≡◌, IfOk, Some};
ghost use Rattle.scc_svtree.specs.Term.{term_of};
ghost use Rattle.scc_lower_spec.specs.Operating.{binary_of, is_shift, operated_term, unary_of, with_signs};
ghost use Rattle.scc_lower_expressions.specs.Lowered.{number_in};
ghost use Rattle.scc_lower_laws.specs.Outcome.{alone_text, is_plus, joined_text};
ghost use Rattle.scc_lower_expressions.specs.Operated.{Chosen, IsAnswer, Makes, Operated, OperatedAlone, before_text, between_text, both_known, choice_text, picked, right_text};
ghost use Rattle.scc_lower_expressions.specs.declared.convert.Lowered.TheVariants as lowered;

use crate::built::{binary, choice, sign, unary};
use crate::convert::{Lowered, expression, stored, text_in};
use scc_base::{NoMemory, lost};
use scc_bits::{Kind, Op, Value, operand_kinds, signed};
use scc_svtree::{SvBinary, SvExpr, SvUnary};
use std::alloc::Global;

/// An operand and the kind of its value.
#[derive(Drop)]
pub struct Operand {
    pub of: Lowered,
    pub kind: Kind,
}

// A number that has to be of that kind.
fn of_kind(v: Value, kind: Kind) -> Result<Lowered, NoMemory>
    ensures { IfOk result (λ r. r ≡ lowered.Known v) }
{
    if v.kind() == kind {
        Ok(Lowered::Known(v))
    } else {
        Err(lost())
    }
}

// What an operator answers for numbers.
fn answer(op: Op, x: Value, y: Value, kind: Kind) -> Result<Lowered, NoMemory>
    ensures { IfOk result (λ r. IsAnswer op x y r) }
{
    match x.applied(op, y) {
        Ok(v) => of_kind(v, kind),
        Err(_) => Err(lost()),
    }
}

// The number of an operand that is one.
fn number_in(x: &Lowered) -> Option<Value>
    ensures { result ≡ number_in x.now }
{
    match x {
        Lowered::Known(v) => Some(*v),
        Lowered::Made(_) => None,
    }
}

fn both_known(x: &Lowered, y: &Lowered) -> Option<(Value, Value)>
    ensures { result ≡ both_known x.now y.now }
{
    match x {
        Lowered::Known(a) => match y {
            Lowered::Known(b) => Some((*a, *b)),
            Lowered::Made(_) => None,
        },
        Lowered::Made(_) => None,
    }
}

/// An operator between two operands; `kind` is that of its value.
pub fn operated(
    alloc: Global,
    op: Op,
    left: Operand,
    right: Operand,
    kind: Kind,
) -> Result<Lowered, NoMemory>
    ensures { IfOk result (λ r. Operated op left right r) }
{
    match both_known(&left.of, &right.of) {
        Some((x, y)) => answer(op, x, y, kind),
        None => between(alloc, op, left, right),
    }
}

fn between(alloc: Global, op: Op, left: Operand, right: Operand) -> Result<Lowered, NoMemory>
    ensures { IfOk result (λ r. Makes (between_text op left right) r) }
{
    let Some(kinds) = operand_kinds(op, left.kind, right.kind) else {
        return Err(lost());
    };
    let x = text_in(alloc, left.of, left.kind, kinds.left)?;
    let y = right_text(alloc, op, right, kinds.right)?;
    Ok(Lowered::Made(joined(alloc, op, signed(kinds.left), x, y)?))
}

fn right_text(alloc: Global, op: Op, right: Operand, to: Kind) -> Result<SvExpr, NoMemory>
    ensures { IfOk result (λ e. term_of e ≡ right_text op to right) }
{
    if is_shift(op) {
        expression(alloc, right.of)
    } else {
        text_in(alloc, right.of, right.kind, to)
    }
}

// The operator's text; its operands are read with a sign where `signed` says so.
fn joined(alloc: Global, op: Op, signed: bool, x: SvExpr, y: SvExpr) -> Result<SvExpr, NoMemory>
    ensures { IfOk result (λ e. joined_text op signed (term_of x) (term_of y) ≡ Some (term_of e)) }
{
    match binary_text(op, signed) {
        Some(text) => operated_text(alloc, op, signed, text, x, y),
        None => Err(lost()),
    }
}

fn operated_text(
    alloc: Global,
    op: Op,
    signed: bool,
    text: SvBinary,
    x: SvExpr,
    y: SvExpr,
) -> Result<SvExpr, NoMemory>
    ensures { IfOk result (λ e. term_of e ≡ operated_term op signed text (term_of x) (term_of y)) }
{
    if signed {
        with_signs(alloc, op, text, x, y)
    } else {
        binary(alloc, text, x, y)
    }
}

fn with_signs(
    alloc: Global,
    op: Op,
    text: SvBinary,
    x: SvExpr,
    y: SvExpr,
) -> Result<SvExpr, NoMemory>
    ensures { IfOk result (λ e. term_of e ≡ with_signs op text (term_of x) (term_of y)) }
{
    match op {
        Op::Lt | Op::Le | Op::Gt | Op::Ge => {
            let x = sign(alloc, true, x)?;
            let y = sign(alloc, true, y)?;
            binary(alloc, text, x, y)
        }
        Op::Div | Op::Rem => {
            let x = sign(alloc, true, x)?;
            let y = sign(alloc, true, y)?;
            let e = binary(alloc, text, x, y)?;
            sign(alloc, false, e)
        }
        Op::Shr => {
            let x = sign(alloc, true, x)?;
            let e = binary(alloc, text, x, y)?;
            sign(alloc, false, e)
        }
        Op::Add | Op::Sub | Op::Mul | Op::And | Op::Or | Op::Xor => binary(alloc, text, x, y),
        Op::Eq | Op::Ne | Op::Shl | Op::LogAnd | Op::LogOr => binary(alloc, text, x, y),
        Op::Plus | Op::Neg | Op::Not | Op::LogNot => binary(alloc, text, x, y),
        Op::AndReduce | Op::OrReduce | Op::XorReduce => binary(alloc, text, x, y),
    }
}

fn is_shift(op: Op) -> bool
    ensures { result ≡ is_shift op }
{
    match op {
        Op::Shl | Op::Shr => true,
        Op::Add | Op::Sub | Op::Mul | Op::Div | Op::Rem => false,
        Op::And | Op::Or | Op::Xor | Op::LogAnd | Op::LogOr => false,
        Op::Eq | Op::Ne | Op::Lt | Op::Le | Op::Gt | Op::Ge => false,
        Op::Plus | Op::Neg | Op::Not | Op::LogNot => false,
        Op::AndReduce | Op::OrReduce | Op::XorReduce => false,
    }
}

fn binary_text(op: Op, signed: bool) -> Option<SvBinary>
    ensures { result ≡ binary_of op signed }
{
    match op {
        Op::Add => Some(SvBinary::Add),
        Op::Sub => Some(SvBinary::Sub),
        Op::Mul => Some(SvBinary::Mul),
        Op::Div => Some(SvBinary::Div),
        Op::Rem => Some(SvBinary::Rem),
        Op::And => Some(SvBinary::And),
        Op::Or => Some(SvBinary::Or),
        Op::Xor => Some(SvBinary::Xor),
        Op::Eq => Some(SvBinary::Eq),
        Op::Ne => Some(SvBinary::Ne),
        Op::Lt => Some(SvBinary::Lt),
        Op::Le => Some(SvBinary::Le),
        Op::Gt => Some(SvBinary::Gt),
        Op::Ge => Some(SvBinary::Ge),
        Op::Shl => Some(SvBinary::Shl),
        Op::Shr => {
            if signed {
                Some(SvBinary::Sar)
            } else {
                Some(SvBinary::Shr)
            }
        }
        Op::LogAnd => Some(SvBinary::LogAnd),
        Op::LogOr => Some(SvBinary::LogOr),
        Op::Plus | Op::Neg | Op::Not | Op::LogNot => None,
        Op::AndReduce | Op::OrReduce | Op::XorReduce => None,
    }
}

/// An operator before its one operand.
pub fn operated_alone(alloc: Global, op: Op, of: Operand, kind: Kind) -> Result<Lowered, NoMemory>
    ensures { IfOk result (λ r. OperatedAlone op of r) }
{
    match number_in(&of.of) {
        Some(x) => answer(op, x, x, kind),
        None => before(alloc, op, of),
    }
}

fn before(alloc: Global, op: Op, of: Operand) -> Result<Lowered, NoMemory>
    ensures { IfOk result (λ r. Makes (before_text op of) r) }
{
    let Some(kinds) = operand_kinds(op, of.kind, of.kind) else {
        return Err(lost());
    };
    let x = text_in(alloc, of.of, of.kind, kinds.left)?;
    Ok(Lowered::Made(alone(alloc, op, x)?))
}

// The operator's text; `+` has none.
fn alone(alloc: Global, op: Op, x: SvExpr) -> Result<SvExpr, NoMemory>
    ensures { IfOk result (λ e. alone_text op (term_of x) ≡ Some (term_of e)) }
{
    if is_plus(op) {
        return Ok(x);
    }
    match unary_text(op) {
        Some(text) => unary(alloc, text, x),
        None => Err(lost()),
    }
}

fn is_plus(op: Op) -> bool
    ensures { result ≡ is_plus op }
{
    match op {
        Op::Plus => true,
        Op::Add | Op::Sub | Op::Mul | Op::Div | Op::Rem => false,
        Op::And | Op::Or | Op::Xor | Op::LogAnd | Op::LogOr => false,
        Op::Eq | Op::Ne | Op::Lt | Op::Le | Op::Gt | Op::Ge => false,
        Op::Shl | Op::Shr | Op::Neg | Op::Not | Op::LogNot => false,
        Op::AndReduce | Op::OrReduce | Op::XorReduce => false,
    }
}

fn unary_text(op: Op) -> Option<SvUnary>
    ensures { result ≡ unary_of op }
{
    match op {
        Op::Neg => Some(SvUnary::Neg),
        Op::Not => Some(SvUnary::Not),
        Op::LogNot => Some(SvUnary::LogNot),
        Op::AndReduce => Some(SvUnary::And),
        Op::OrReduce => Some(SvUnary::Or),
        Op::XorReduce => Some(SvUnary::Xor),
        Op::Add | Op::Sub | Op::Mul | Op::Div | Op::Rem => None,
        Op::And | Op::Or | Op::Xor | Op::LogAnd | Op::LogOr => None,
        Op::Eq | Op::Ne | Op::Lt | Op::Le | Op::Gt | Op::Ge => None,
        Op::Shl | Op::Shr | Op::Plus => None,
    }
}

/// `test ? yes : no`, whose value has a kind.
pub fn chosen(
    alloc: Global,
    test: Operand,
    yes: Operand,
    no: Operand,
    kind: Kind,
) -> Result<Lowered, NoMemory>
    ensures { IfOk result (λ r. Chosen test yes no kind r) }
{
    match picked(&test.of, &yes.of, &no.of) {
        Some(v) => Ok(Lowered::Known(stored(v, kind)?)),
        None => Ok(Lowered::Made(choice_text(alloc, test, yes, no, kind)?)),
    }
}

fn picked(test: &Lowered, yes: &Lowered, no: &Lowered) -> Option<Value>
    ensures { result ≡ picked test.now yes.now no.now }
{
    let t = number_in(test)?;
    let (a, b) = both_known(yes, no)?;
    Some(if t.is_true() { a } else { b })
}

fn choice_text(
    alloc: Global,
    test: Operand,
    yes: Operand,
    no: Operand,
    kind: Kind,
) -> Result<SvExpr, NoMemory>
    ensures { IfOk result (λ e. term_of e ≡ choice_text test yes no kind) }
{
    let t = text_in(alloc, test.of, test.kind, Kind::Bool)?;
    let a = text_in(alloc, yes.of, yes.kind, kind)?;
    let b = text_in(alloc, no.of, no.kind, kind)?;
    choice(alloc, t, a, b)
}
