//! An operator on numbers in the kinds that it takes.
ghost use Rattle.std.specs.Prelude.{◌≡◌, ◌<◌, ◌≤◌, ◌^◌, ◌↔◌, IsTrue, Bool};
ghost use Rattle.scc_bits_kinds.specs.Kinds.{IsValid, Fits, width_of, is_signed, number_of};
ghost use Rattle.scc_bits_kinds.specs.Numbers.{low, reading};
ghost use Rattle.scc_bits_kinds.specs.Operators.{exact, Signs, Divisor};

use crate::arithmetic::{
    add, all_bits, and, at_least, at_most, div, equal, greater, is_false, is_true, less, mul, neg,
    not, odd_bits, or, plus, rem, shl, shr, some_bit, sub, unequal, word_of, xor,
};
use crate::kind::{Kind, Word, signed, width};
use crate::op::Op;
use crate::word::{cut, extend};

/// The arms of a match over all operators, each made by one rule of a macro from the operator's form and function.
macro_rules! each_operator {
    ($op:expr, $arm:ident $with:tt) => {
        match $op {
            Op::Add => $arm!(both add $with),
            Op::Sub => $arm!(both sub $with),
            Op::Mul => $arm!(both mul $with),
            Op::Div => $arm!(in_sign div $with),
            Op::Rem => $arm!(in_sign rem $with),
            Op::And => $arm!(both and $with),
            Op::Or => $arm!(both or $with),
            Op::Xor => $arm!(both xor $with),
            Op::Eq => $arm!(test equal $with),
            Op::Ne => $arm!(test unequal $with),
            Op::Lt => $arm!(order less $with),
            Op::Le => $arm!(order at_most $with),
            Op::Gt => $arm!(order greater $with),
            Op::Ge => $arm!(order at_least $with),
            Op::Shl => $arm!(both shl $with),
            Op::Shr => $arm!(in_sign shr $with),
            Op::LogAnd => $arm!(all is_true $with),
            Op::LogOr => $arm!(any is_true $with),
            Op::Plus => $arm!(one plus $with),
            Op::Neg => $arm!(one neg $with),
            Op::Not => $arm!(one not $with),
            Op::LogNot => $arm!(truth is_false $with),
            Op::AndReduce => $arm!(bits all_bits $with),
            Op::OrReduce => $arm!(bits some_bit $with),
            Op::XorReduce => $arm!(bits odd_bits $with),
        }
    };
}

/// What an operator of a form gives for words a and b: k is the kind of a's bits, s the sign.
macro_rules! compute {
    (both $f:ident ($k:expr, $s:expr, $a:expr, $b:expr)) => { $f($a, $b) };
    (in_sign $f:ident ($k:expr, $s:expr, $a:expr, $b:expr)) => { $f($s, $a, $b) };
    (test $f:ident ($k:expr, $s:expr, $a:expr, $b:expr)) => { word_of($f($a, $b)) };
    (order $f:ident ($k:expr, $s:expr, $a:expr, $b:expr)) => { word_of($f($s, $a, $b)) };
    (all $f:ident ($k:expr, $s:expr, $a:expr, $b:expr)) => { word_of($f($a) && $f($b)) };
    (any $f:ident ($k:expr, $s:expr, $a:expr, $b:expr)) => { word_of($f($a) || $f($b)) };
    (one $f:ident ($k:expr, $s:expr, $a:expr, $b:expr)) => { $f($a) };
    (truth $f:ident ($k:expr, $s:expr, $a:expr, $b:expr)) => { word_of($f($a)) };
    (bits $f:ident ($k:expr, $s:expr, $a:expr, $b:expr)) => { word_of($f(width($k), $a)) };
}

/// The low 128 bits of the operator's number for numbers of 128 bits in two's complement. The kind is that of the bits
/// of which a reduction speaks.
#[inline(always)]
fn full(op: Op, k: Kind, s: bool, a: u128, b: u128) -> u128
    requires valid { IsValid k }
    requires divisor { Divisor op b }
    ensures { (t : Bool) → Signs op s t → result ≡ low 128 (exact op (width_of k) (reading s 128 a) (reading t 128 b)) }
{
    each_operator!(op, compute(k, s, a, b))
}

/// Whether the operator may take the word on its right: a divisor isn't 0.
#[inline(always)]
pub fn takes_right(op: Op, y: Word) -> bool
    ensures { IsTrue result ↔ Divisor op y.bits }
{
    match op {
        Op::Div | Op::Rem => y.bits != 0,
        _ => true,
    }
}

/// The low bits, as many as a word of `answer` has, of the operator's exact number for a word of `left` and one of
/// `right`. This is also the word of an operator of the emitted text whose operands have these widths and signs
/// (IEEE 1800-2017, 11.4).
#[tactic(auto, using(crate::proofs::Operated::divisor_extended))]
pub fn operate(op: Op, left: Kind, x: Word, right: Kind, y: Word, answer: Kind) -> Word
    requires kinds { IsValid left × IsValid right × IsValid answer }
    requires left { Fits left x.bits }
    requires right { Fits right y.bits }
    requires signs { Signs op (is_signed left) (is_signed right) }
    requires divisor { Divisor op y.bits }
    ensures word { result.bits ≡ low (width_of answer) (exact op (width_of left) (number_of left x.bits) (number_of right y.bits)) }
    ensures fits { Fits answer result.bits }
{
    let a = extend(left, x);
    let b = extend(right, y);
    Word {
        bits: calculate(op, left, signed(left), a, b, width(answer)),
    }
}

/// The low bits of the operator's number for numbers of 128 bits in two's complement.
#[tactic(auto, using(crate::proofs::Operated::cut_exact))]
#[inline(always)]
pub fn calculate(op: Op, k: Kind, s: bool, a: u128, b: u128, answer: u32) -> u128
    requires valid { IsValid k }
    requires answer { (1 ≤ answer) × (answer ≤ 128) }
    requires divisor { Divisor op b }
    ensures word { (t : Bool) → Signs op s t → result ≡ low answer (exact op (width_of k) (reading s 128 a) (reading t 128 b)) }
    ensures fits { result < 2 ^ answer }
{
    cut(answer, full(op, k, s, a, b))
}
