//! How the rules of the operator table take their operands.
ghost use Rattle.std.specs.Prelude.{◌≡◌, ◌≤◌, ◌||◌, if◌then◌else◌, min, true, Some};
ghost use Rattle.scc_bits_kinds.specs.Kinds.{IsValid, Fits, width_of, is_signed, number_of, converted};
ghost use Rattle.scc_bits_kinds.specs.Groups.{group_of, is_small};
ghost use Rattle.scc_bits_kinds.specs.Counts.{promoted, common_of};
ghost use Rattle.scc_bits_kinds.specs.Numbers.{reading};
ghost use Rattle.scc_bits.specs.Placed.{placed_of};
ghost use Rattle.scc_bits.specs.Standing.{Stands, Small, IsOther, padded_by, room_by};
ghost use Rattle.scc_bits.specs.declared.operands.Operands.{Operands};

use crate::form::{common_form, convert, promote_number};
use crate::number::{Number, read_number};
use scc_bits_kinds::{Kind, Rule, Word, conv};

/// What an operator computes with: its operands as numbers of 128 bits in two's complement, the sign in which it takes
/// the left one, and the width of its answer.
#[derive(Clone, Copy)]
pub(crate) struct Taken {
    pub left: u128,
    pub right: u128,
    pub signed: bool,
    pub answer: u32,
}

#[inline(always)]
fn in_bits(left: u128, right: u128, signed: bool, bits: u32) -> Taken
    ensures { result ≡ record { left = left; right = right; signed = signed; answer = min bits 128 } }
{
    Taken {
        left,
        right,
        signed,
        answer: bits.min(128),
    }
}

/// The operands as the rule takes them. Those that meet in a small kind are told from others first.
#[inline(always)]
pub(crate) fn take(rule: Rule, a: Kind, x: Word, b: Kind, y: Word) -> Taken
    requires kinds { IsValid a × IsValid b }
    requires left { Fits a x.bits }
    requires right { Fits b y.bits }
    requires small { Small rule a b }
    ensures { (p : Operands) → placed_of rule a b ≡ Some p → Stands p a x.bits b y.bits result }
{
    match rule {
        Rule::Common => in_common(a, x, b, y),
        Rule::CommonTest => test(in_common(a, x, b, y)),
        Rule::Promoted => promote(a, x, read_number(b, y).bits),
        Rule::PromotedShift => promote(a, x, y.bits),
        Rule::Logical => in_bits(
            conv(a, Kind::Bool, x).bits,
            conv(b, Kind::Bool, y).bits,
            false,
            1,
        ),
        _ => in_room(rule, a, x, b, y),
    }
}

/// Both operands in their common kind.
#[inline(always)]
fn in_common(a: Kind, x: Word, b: Kind, y: Word) -> Taken
    requires kinds { IsValid a × IsValid b }
    requires left { Fits a x.bits }
    requires right { Fits b y.bits }
    requires small { (is_small (group_of a) ≡ true) × (is_small (group_of b) ≡ true) }
    ensures { Stands (record { left = common_of a b; right = common_of a b; answer = common_of a b }) a x.bits b y.bits result }
{
    let left = promote_number(a, x);
    let right = promote_number(b, y);
    let to = common_form(left.form, right.form);
    in_bits(
        convert(to, left.number.bits),
        convert(to, right.number.bits),
        to.signed,
        to.width,
    )
}

/// The left operand promoted.
#[tactic(auto, using(crate::proofs::Standing::stands_promoted))]
#[inline(always)]
fn promote(a: Kind, x: Word, right: u128) -> Taken
    requires valid { IsValid a }
    requires fits { Fits a x.bits }
    ensures left { reading (is_signed (promoted a)) 128 result.left ≡ converted (promoted a) (number_of a x.bits) }
    ensures right { result.right ≡ right }
    ensures sign { result.signed ≡ is_signed (promoted a) }
    ensures answer { result.answer ≡ width_of (promoted a) }
{
    let left = promote_number(a, x);
    in_bits(left.number.bits, right, left.form.signed, left.form.width)
}

#[inline(always)]
fn test(t: Taken) -> Taken
    ensures { result ≡ record { left = t.left; right = t.right; signed = t.signed; answer = 1 } }
{
    in_bits(t.left, t.right, t.signed, 1)
}

/// The operands of the other rules, whose kinds have room for their numbers or hold 128 bits.
#[inline(always)]
fn in_room(rule: Rule, a: Kind, x: Word, b: Kind, y: Word) -> Taken
    requires kinds { IsValid a × IsValid b }
    requires left { Fits a x.bits }
    requires right { Fits b y.bits }
    requires other { IsOther rule }
    ensures { (p : Operands) → placed_of rule a b ≡ Some p → Stands p a x.bits b y.bits result }
{
    let left = read_number(a, x);
    let right = read_number(b, y);
    let signed = some_signed(left, right);
    match rule {
        Rule::WideSum => in_bits(left.bits, right.bits, signed, room(left, right) + 1),
        Rule::WideDifference => in_bits(left.bits, right.bits, true, room(left, right) + 1),
        Rule::WideProduct => in_bits(left.bits, right.bits, signed, left.count + right.count),
        Rule::WideQuotient => in_bits(
            left.bits,
            right.bits,
            signed,
            room(left, right) + one_if(signed),
        ),
        Rule::WideBits => in_bits(left.bits, right.bits, signed, room(left, right)),
        Rule::WideTest => in_bits(left.bits, right.bits, signed, 1),
        Rule::WideLeft => in_bits(left.bits, y.bits, left.signed, 255),
        Rule::WideRight | Rule::BitsShift => in_bits(left.bits, y.bits, left.signed, left.count),
        Rule::WideNegation => in_bits(left.bits, right.bits, true, left.count + 1),
        Rule::WideComplement => in_bits(
            left.bits,
            right.bits,
            true,
            left.count + one_if(!left.signed),
        ),
        Rule::Reduction | Rule::BitsTest => in_bits(left.bits, right.bits, left.signed, 1),
        _ => in_bits(left.bits, right.bits, left.signed, left.count),
    }
}

#[inline(always)]
fn some_signed(left: Number, right: Number) -> bool
    ensures { result ≡ (left.signed || right.signed) }
{
    left.signed || right.signed
}

#[inline(always)]
fn one_if(more: bool) -> u32
    ensures { result ≡ (if more then 1 else 0) }
{
    u32::from(more)
}

/// The bits that hold both numbers.
#[inline(always)]
fn room(left: Number, right: Number) -> u32
    requires small { (left.count ≤ 255) × (right.count ≤ 255) }
    ensures is { result ≡ room_by left.count left.signed right.count right.signed }
    ensures small { result ≤ 256 }
{
    let signed = some_signed(left, right);
    padded(signed, left).max(padded(signed, right))
}

#[inline(always)]
fn padded(beside_signed: bool, number: Number) -> u32
    requires small { number.count ≤ 255 }
    ensures is { result ≡ padded_by beside_signed number.count number.signed }
    ensures small { result ≤ 256 }
{
    if beside_signed && !number.signed {
        number.count + 1
    } else {
        number.count
    }
}
