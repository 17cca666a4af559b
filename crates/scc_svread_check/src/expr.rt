//! Expressions.
ghost use Rattle.std.specs.Prelude.{◌≡◌, ◌+◌, ◌&&◌, false, not, max, map, length};
ghost use Rattle.scc_svtree.specs.Classes.{class_of};
ghost use Rattle.scc_svtext.specs.ExprText.{binary_text};
ghost use Rattle.scc_svread_grammar.specs.Grammar as grammar;
ghost use Rattle.scc_svread_check.specs.Parts as parts;
ghost use Rattle.scc_svread_check.specs.Scope as scopes;
ghost use Rattle.scc_svread_check.specs.Seen.{measured_from, seen, whole_behind};
ghost use Rattle.scc_svread_check.specs.Walking as walking;

use crate::leaf::{cut, left, literal, part_bits, pass_both};
use crate::number::{decimal, hexadecimal, is_width};
use crate::scope::Scope;
use crate::walk::{Walk, first, mark};
use scc_base::Text;
use scc_svread_grammar::{RawExpr, RawLeft, RawLiteral, is_division};
use scc_svtree::{SvBinary, SvUnary};

/// What is seen of an expression.
#[derive(Clone, Copy)]
pub struct Seen {
    /// Where the walk stands behind it.
    pub walk: Walk,
    /// Its length in bits, at most 129, where each name in it is declared exactly once.
    pub bits: Option<u32>,
    /// Whether it is a literal 0, or `$signed` of one.
    pub zero: bool,
}

/// How many bytes an operator has.
pub fn operator_bytes(op: SvBinary) -> usize
    ensures { result ≡ length (binary_text op) }
{
    match op {
        SvBinary::Add | SvBinary::Sub | SvBinary::Mul | SvBinary::Div | SvBinary::Rem => 1,
        SvBinary::And | SvBinary::Or | SvBinary::Xor | SvBinary::Lt | SvBinary::Gt => 1,
        SvBinary::Shl | SvBinary::Shr | SvBinary::Eq | SvBinary::Ne => 2,
        SvBinary::Le | SvBinary::Ge | SvBinary::LogAnd | SvBinary::LogOr => 2,
        SvBinary::Sar => 3,
    }
}

// The length of an operator's answer.
fn binary_bits(op: SvBinary, a: Option<u32>, b: Option<u32>) -> Option<u32>
    ensures { result ≡ parts.with_both (parts.class_bits (class_of op)) a b }
{
    match (a, b) {
        (Some(a), Some(b)) => Some(operator_bits(op, a, b)),
        (Some(_), None) => None,
        (None, _) => None,
    }
}

fn operator_bits(op: SvBinary, a: u32, b: u32) -> u32
    ensures { result ≡ parts.class_bits (class_of op) a b }
{
    match op {
        SvBinary::Add | SvBinary::Sub | SvBinary::Mul | SvBinary::Div | SvBinary::Rem => a.max(b),
        SvBinary::And | SvBinary::Or | SvBinary::Xor => a.max(b),
        SvBinary::Shl | SvBinary::Shr | SvBinary::Sar => a,
        SvBinary::Eq | SvBinary::Ne | SvBinary::Lt | SvBinary::Le => 1,
        SvBinary::Gt | SvBinary::Ge | SvBinary::LogAnd | SvBinary::LogOr => 1,
    }
}

fn unary_bits(op: SvUnary, a: Option<u32>) -> Option<u32>
    ensures { result ≡ parts.unary_bits op a }
{
    match op {
        SvUnary::Not | SvUnary::Neg => a,
        SvUnary::LogNot | SvUnary::And | SvUnary::Or | SvUnary::Xor => a.map(|_| 1),
    }
}

// The sum of two lengths.
fn sum(a: Option<u32>, b: Option<u32>) -> Option<u32>
    ensures { result ≡ parts.with_both (λ a b. parts.cut (a + b)) a b }
{
    match (a, b) {
        (Some(a), Some(b)) => Some(a.saturating_add(b).min(129)),
        (Some(_), None) => None,
        (None, _) => None,
    }
}

// The greater length of the two that a condition chooses from.
fn chosen_bits(c: Option<u32>, a: Option<u32>, b: Option<u32>) -> Option<u32>
    ensures { result ≡ parts.with_both (λ n m. m) c (parts.with_both max a b) }
{
    match (c, a, b) {
        (Some(_), Some(a), Some(b)) => Some(a.max(b)),
        (Some(_), Some(_), None) => None,
        (Some(_), None, _) => None,
        (None, _, _) => None,
    }
}

fn cast_bits(width: u128, a: Option<u32>) -> Option<u32>
    ensures { result ≡ parts.with_one (λ n. parts.cut width) a }
{
    match a {
        Some(_) => Some(cut(width)),
        None => None,
    }
}

fn is_wrong_length(bits: Option<u32>) -> bool
    ensures { result ≡ parts.is_wrong_length bits }
{
    match bits {
        Some(n) => !is_width(u128::from(n)),
        None => false,
    }
}

// A part that may be wrong as a whole, in front of what is wrong inside.
fn whole(wrong: bool, start: Walk, end: Walk) -> Walk
    ensures { result ≡ whole_behind wrong start end }
{
    Walk {
        size: first(start.size, first(mark(wrong, start.at), end.size)),
        ..end
    }
}

// An expression with its own length, which may be wrong.
#[inline(never)]
fn measured(start: Walk, s: Seen) -> Seen
    ensures { result ≡ measured_from start s }
{
    Seen {
        walk: whole(is_wrong_length(s.bits), start, s.walk),
        ..s
    }
}

#[inline(never)]
fn number(l: &RawLiteral, w: Walk) -> Seen
    ensures { result ≡ seen (parts.literal_part l.now) w }
{
    Seen {
        walk: literal(l, w),
        bits: Some(cut(decimal(l.width.bytes()))),
        zero: hexadecimal(l.digits.bytes()) == 0,
    }
}

#[inline(never)]
fn variable(scope: &Scope, l: &RawLeft, w: Walk) -> Seen
    ensures { result ≡ seen (parts.left_part scope.now l.now) w }
{
    Seen {
        walk: left(scope, l, w),
        bits: part_bits(&l.select, scope.high(l.name.bytes())),
        zero: false,
    }
}

fn closed(walk: Walk, bits: Option<u32>, zero: bool) -> Seen
    ensures { result ≡ record { walk = walking.pass 1 walk; bits = bits; zero = zero } }
{
    Seen {
        walk: walk.pass(1),
        bits,
        zero,
    }
}

// An operator between its operands, the right one of which stands behind `before`.
#[inline(never)]
fn operated(op: SvBinary, a: Option<u32>, before: Walk, b: Seen) -> Seen
    ensures { result ≡ record { walk = walking.pass 1 (whole_behind (grammar.is_division op && b.zero) before b.walk); bits = parts.with_both (parts.class_bits (class_of op)) a b.bits; zero = false } }
{
    let end = whole(is_division(op) && b.zero, before, b.walk);
    closed(end, binary_bits(op, a, b.bits), false)
}

/// How many bytes stand before what is read with a sign, or without.
pub fn sign_bytes(signed: bool) -> usize
    ensures { result ≡ parts.sign_bytes signed }
{
    if signed { 8 } else { 10 }
}

// A cast in front of its operand.
#[inline(never)]
fn cast_front(width: &Text, w: Walk) -> Walk
    ensures { result ≡ walking.pass (length width.now + 2) (walking.size_if (not (scopes.is_width (scopes.number_in width.now))) w) }
{
    let bytes = width.bytes();
    pass_both(w.size_if(!is_width(decimal(bytes))), bytes.len(), 2)
}

// What stands behind a first operand is read by functions of their own, which are not inlined, nor are those that they call: what nests
// deep then takes little of the stack.

#[cycle(part)]
#[inline(never)]
fn unary(scope: &Scope, op: SvUnary, of: &RawExpr, w: Walk) -> Seen
    ensures { result ≡ seen (parts.unary_part op (parts.part_of scope.now of.now)) w }
{
    let a = part(scope, of, w.pass(2));
    closed(a.walk, unary_bits(op, a.bits), false)
}

// A right operand, behind the left one.
#[cycle(part)]
#[inline(never)]
fn right_of(scope: &Scope, op: SvBinary, right: &RawExpr, a: Seen) -> Seen
    ensures { result ≡ record { walk = walking.pass 1 (walking.size_of_whole (grammar.is_division op && (parts.part_of scope.now right.now).zero) (parts.part_of scope.now right.now).walk (walking.pass (length (binary_text op) + 2) a.walk)); bits = parts.with_both (parts.class_bits (class_of op)) a.bits (parts.part_of scope.now right.now).bits; zero = false } }
{
    let before = a.walk.pass(operator_bytes(op) + 2);
    let b = part(scope, right, before);
    operated(op, a.bits, before, b)
}

// The last operand of a choice, behind the two others.
#[cycle(part)]
#[inline(never)]
fn last_of(scope: &Scope, no: &RawExpr, test: Option<u32>, a: Seen) -> Seen
    ensures { result ≡ record { walk = walking.pass 1 ((parts.part_of scope.now no.now).walk (walking.pass 3 a.walk)); bits = parts.with_both (λ n m. m) test (parts.with_both max a.bits (parts.part_of scope.now no.now).bits); zero = false } }
{
    let b = part(scope, no, a.walk.pass(3));
    closed(b.walk, chosen_bits(test, a.bits, b.bits), false)
}

#[cycle(part)]
#[inline(never)]
fn cast(scope: &Scope, width: &Text, of: &RawExpr, w: Walk) -> Seen
    ensures { result ≡ seen (parts.cast_part width.now (parts.part_of scope.now of.now)) w }
{
    let a = part(scope, of, cast_front(width, w));
    closed(a.walk, cast_bits(decimal(width.bytes()), a.bits), false)
}

#[cycle(part)]
#[inline(never)]
fn sign(scope: &Scope, signed: bool, of: &RawExpr, w: Walk) -> Seen
    ensures { result ≡ seen (parts.sign_part signed (parts.part_of scope.now of.now)) w }
{
    let a = part(scope, of, w.pass(sign_bytes(signed)));
    closed(a.walk, a.bits, signed && a.zero)
}

// An expression but for its own length.
#[cycle(part)]
#[inline(never)]
fn node(scope: &Scope, e: &RawExpr, w: Walk) -> Seen
    ensures { measured_from w result ≡ seen (parts.part_of scope.now e.now) w }
{
    match e {
        RawExpr::Literal(l) => number(l, w),
        RawExpr::Left(l) => variable(scope, l, w),
        RawExpr::Unary { op, of } => unary(scope, *op, of.get(), w),
        RawExpr::Binary { op, left, right } => {
            let a = part(scope, left.get(), w.pass(1));
            right_of(scope, *op, right.get(), a)
        }
        RawExpr::Cond { test, yes, no } => {
            let c = part(scope, test.get(), w.pass(1));
            let a = part(scope, yes.get(), c.walk.pass(3));
            last_of(scope, no.get(), c.bits, a)
        }
        RawExpr::Concat(list) => concat(scope, list.as_slice(), w),
        RawExpr::Cast { width, of } => cast(scope, width, of.get(), w),
        RawExpr::Sign { signed, of } => sign(scope, *signed, of.get(), w),
    }
}

/// An expression, from where the walk stands.
#[cycle(part)]
pub fn part(scope: &Scope, e: &RawExpr, w: Walk) -> Seen
    ensures { result ≡ seen (parts.part_of scope.now e.now) w }
{
    measured(w, node(scope, e, w))
}

// A concatenation.
#[cycle(part)]
#[inline(never)]
fn concat(scope: &Scope, list: &[RawExpr], w: Walk) -> Seen
    ensures { result ≡ seen (parts.concat_part (map (parts.part_of scope.now) list.now)) w }
{
    let mut walk = w;
    let mut bits = Some(0);
    let mut lead = 1;
    for e in list {
        let p = part(scope, e, walk.pass(lead));
        walk = p.walk;
        bits = sum(bits, p.bits);
        lead = 2;
    }
    Seen {
        walk: walk.pass(1),
        bits,
        zero: false,
    }
}
