//! The kinds in which the rules of the operator table take their operands, and those of their answers.
ghost use Rattle.std.specs.Prelude.{◌≡◌, Some, None, if◌then◌else◌, nat_eq};
ghost use Rattle.scc_bits_kinds.specs.Kinds.{width_of};
ghost use Rattle.scc_bits.specs.Values.{amount_kind, passes};
ghost use Rattle.scc_bits.specs.Placed.{placed_of};

use scc_bits_kinds::{
    Kind, Rule, common, count, promoted, quotient_bits, room, signed, some_signed, wide, wide_room,
    width,
};

/// The kinds in which an operator takes its operands, and that of its answer.
#[derive(Clone, Copy, Debug, PartialEq, Eq)]
pub struct Operands {
    pub left: Kind,
    pub right: Kind,
    pub answer: Kind,
}

#[inline(always)]
fn alike(k: Kind) -> Option<Operands>
    ensures { result ≡ Some (record { left = k; right = k; answer = k }) }
{
    kinds(k, k, k)
}

#[inline(always)]
fn kinds(left: Kind, right: Kind, answer: Kind) -> Option<Operands>
    ensures { result ≡ Some (record { left = left; right = right; answer = answer }) }
{
    Some(Operands {
        left,
        right,
        answer,
    })
}

/// The kinds of a rule's operands and answer, None where bit vectors differ in width.
#[inline(always)]
pub(crate) fn placed(rule: Rule, a: Kind, b: Kind) -> Option<Operands>
    ensures { result ≡ placed_of rule a b }
{
    match rule {
        Rule::Common => alike(common(a, b)),
        Rule::CommonTest => test_in(common(a, b)),
        Rule::Promoted => kinds(promoted(a), b, promoted(a)),
        Rule::PromotedShift => kinds(promoted(a), amount_kind(b), promoted(a)),
        Rule::Logical => alike(Kind::Bool),
        Rule::Reduction => kinds(a, b, Kind::Bool),
        Rule::WideSum => alike(wide(room(a, b) + 1, some_signed(a, b))),
        Rule::WideDifference => alike(wide(room(a, b) + 1, true)),
        Rule::WideProduct => alike(wide(count(a) + count(b), some_signed(a, b))),
        Rule::WideQuotient => alike(wide(quotient_bits(a, b), some_signed(a, b))),
        Rule::WideBits => alike(wide_room(a, b)),
        Rule::WideTest => test_in(wide_room(a, b)),
        Rule::WideLeft => on_left(wide(255, signed(a)), amount_kind(b)),
        Rule::WideRight => on_left(wide(count(a), signed(a)), amount_kind(b)),
        Rule::WideSame => on_left(wide(count(a), signed(a)), b),
        Rule::WideNegation => on_left(wide(count(a) + 1, true), b),
        Rule::WideComplement => on_left(wide(count(a) + u32::from(!signed(a)), true), b),
        Rule::BitsBoth => equal_widths(a, b, bits(a)),
        Rule::BitsTest => equal_widths(a, b, Kind::Bool),
        Rule::BitsShift => kinds(a, amount_kind(b), bits(a)),
        Rule::BitsComplement => kinds(a, b, bits(a)),
    }
}

#[inline(always)]
fn test_in(k: Kind) -> Option<Operands>
    ensures { result ≡ Some (record { left = k; right = k; answer = Kind.Bool }) }
{
    kinds(k, k, Kind::Bool)
}

#[inline(always)]
fn on_left(k: Kind, right: Kind) -> Option<Operands>
    ensures { result ≡ Some (record { left = k; right = right; answer = k }) }
{
    kinds(k, right, k)
}

#[inline(always)]
fn equal_widths(a: Kind, b: Kind, answer: Kind) -> Option<Operands>
    ensures { result ≡ (if nat_eq (width_of a) (width_of b) then Some (record { left = a; right = b; answer = answer }) else None) }
{
    if width(a) == width(b) {
        kinds(a, b, answer)
    } else {
        None
    }
}

#[inline(always)]
fn bits(k: Kind) -> Kind
    ensures { result ≡ Kind.Bv (width_of k) }
{
    Kind::Bv(width(k) as u8)
}

#[inline(always)]
fn amount_kind(k: Kind) -> Kind
    ensures { result ≡ amount_kind k }
{
    let bits = width(k) as u8;
    Kind::Wide {
        bits,
        signed: false,
    }
}

/// Whether the rule demands at most 128 bits and there are more.
pub(crate) fn passes(rule: Rule, a: Kind, b: Kind) -> bool
    ensures { result ≡ passes rule a b }
{
    match rule {
        Rule::WideQuotient => quotient_bits(a, b) > 128,
        Rule::WideTest => room(a, b) > 128,
        Rule::WideRight => count(a) > 128,
        _ => false,
    }
}
