//! The operators on numbers of 128 bits in two's complement: each gives the low 128 bits of the exact number.
ghost use Rattle.std.specs.Prelude.{◌≡◌, ◌≤◌, ◌<◌, ◌^◌, ◌-◌, ◌/◌, ◌%◌, ℤ, pos, ◌+ℤ◌, ◌-ℤ◌, ◌*ℤ◌, neg_ℤ, int_div, int_rem, int_lt, nat_eq, not, count_ones, Bool, IsTrue, ◌↔◌};
ghost use Rattle.std.specs.Ordering.{int_eq};
ghost use Rattle.scc_bits_kinds.specs.Numbers.{low, reading, halved, both, either, differing, bit};
ghost use Rattle.scc_bits_kinds.specs.Operators.{truth};

use crate::word::{cut, mask};

#[tactic(auto, using(crate::proofs::Exactly::word_add))]
pub(crate) fn add(a: u128, b: u128) -> u128
    ensures { (s t : Bool) → result ≡ low 128 (reading s 128 a +ℤ reading t 128 b) }
{
    a.wrapping_add(b)
}

#[tactic(auto, using(crate::proofs::Exactly::word_sub))]
pub(crate) fn sub(a: u128, b: u128) -> u128
    ensures { (s t : Bool) → result ≡ low 128 (reading s 128 a -ℤ reading t 128 b) }
{
    a.wrapping_sub(b)
}

#[tactic(auto, using(crate::proofs::Exactly::word_mul))]
pub(crate) fn mul(a: u128, b: u128) -> u128
    ensures { (s t : Bool) → result ≡ low 128 (reading s 128 a *ℤ reading t 128 b) }
{
    a.wrapping_mul(b)
}

/// Numbers of at most 64 bits, which most are, take a processor's own division.
#[inline(always)]
pub(crate) fn div(signed: bool, a: u128, b: u128) -> u128
    requires { 0 < b }
    ensures { result ≡ low 128 (int_div (reading signed 128 a) (reading signed 128 b)) }
{
    if is_narrow(a) && is_narrow(b) {
        u128::from(low_word(a) / low_word(b))
    } else {
        wide_div(signed, a, b)
    }
}

#[tactic(auto, using(crate::proofs::Exactly::signed_reading))]
fn wide_div(signed: bool, a: u128, b: u128) -> u128
    requires { 0 < b }
    ensures { result ≡ low 128 (int_div (reading signed 128 a) (reading signed 128 b)) }
{
    if signed {
        a.cast_signed()
            .wrapping_div(b.cast_signed())
            .cast_unsigned()
    } else {
        a / b
    }
}

#[inline(always)]
pub(crate) fn rem(signed: bool, a: u128, b: u128) -> u128
    requires { 0 < b }
    ensures { result ≡ low 128 (int_rem (reading signed 128 a) (reading signed 128 b)) }
{
    if is_narrow(a) && is_narrow(b) {
        u128::from(low_word(a) % low_word(b))
    } else {
        wide_rem(signed, a, b)
    }
}

#[tactic(auto, using(crate::proofs::Exactly::signed_reading))]
fn wide_rem(signed: bool, a: u128, b: u128) -> u128
    requires { 0 < b }
    ensures { result ≡ low 128 (int_rem (reading signed 128 a) (reading signed 128 b)) }
{
    if signed {
        a.cast_signed()
            .wrapping_rem(b.cast_signed())
            .cast_unsigned()
    } else {
        a % b
    }
}

#[inline(always)]
fn is_narrow(a: u128) -> bool
    ensures { IsTrue result ↔ (a < 2 ^ 64) }
{
    a < 1 << 64
}

#[inline(always)]
fn low_word(a: u128) -> u64
    requires { a < 2 ^ 64 }
    ensures { result ≡ a }
{
    a as u64
}

#[tactic(auto, using(crate::proofs::Exactly::word_and))]
pub(crate) fn and(a: u128, b: u128) -> u128
    ensures { (s t : Bool) → result ≡ low 128 (both (reading s 128 a) (reading t 128 b)) }
{
    a & b
}

#[tactic(auto, using(crate::proofs::Exactly::word_or))]
pub(crate) fn or(a: u128, b: u128) -> u128
    ensures { (s t : Bool) → result ≡ low 128 (either (reading s 128 a) (reading t 128 b)) }
{
    a | b
}

#[tactic(auto, using(crate::proofs::Exactly::word_xor))]
pub(crate) fn xor(a: u128, b: u128) -> u128
    ensures { (s t : Bool) → result ≡ low 128 (differing (reading s 128 a) (reading t 128 b)) }
{
    a ^ b
}

#[tactic(auto, using(crate::proofs::Exactly::same_numbers))]
pub(crate) fn equal(a: u128, b: u128) -> bool
    ensures { (s : Bool) → result ≡ int_eq (reading s 128 a) (reading s 128 b) }
{
    a == b
}

pub(crate) fn unequal(a: u128, b: u128) -> bool
    ensures { (s : Bool) → result ≡ not (int_eq (reading s 128 a) (reading s 128 b)) }
{
    !equal(a, b)
}

#[tactic(auto, using(crate::proofs::Exactly::signed_reading))]
pub(crate) fn less(signed: bool, a: u128, b: u128) -> bool
    ensures { result ≡ int_lt (reading signed 128 a) (reading signed 128 b) }
{
    if signed {
        a.cast_signed() < b.cast_signed()
    } else {
        a < b
    }
}

pub(crate) fn at_most(signed: bool, a: u128, b: u128) -> bool
    ensures { result ≡ not (int_lt (reading signed 128 b) (reading signed 128 a)) }
{
    !less(signed, b, a)
}

pub(crate) fn greater(signed: bool, a: u128, b: u128) -> bool
    ensures { result ≡ int_lt (reading signed 128 b) (reading signed 128 a) }
{
    less(signed, b, a)
}

pub(crate) fn at_least(signed: bool, a: u128, b: u128) -> bool
    ensures { result ≡ not (int_lt (reading signed 128 a) (reading signed 128 b)) }
{
    !less(signed, a, b)
}

/// The amount is unsigned, and may be 128 or more.
#[tactic(auto, using(crate::proofs::Exactly::word_shl, crate::proofs::Exactly::word_shl_far))]
pub(crate) fn shl(a: u128, b: u128) -> u128
    ensures { (s : Bool) → result ≡ low 128 (reading s 128 a *ℤ pos (2 ^ b)) }
{
    if b < 128 { a << (b as u32) } else { 0 }
}

/// Rounds down. The amount is unsigned, and may be 128 or more.
#[tactic(auto, using(crate::proofs::Exactly::word_shr, crate::proofs::Exactly::word_shr_negative))]
pub(crate) fn shr(signed: bool, a: u128, b: u128) -> u128
    ensures { result ≡ low 128 (halved (reading signed 128 a) b) }
{
    if signed && a >= 1u128 << 127 {
        u128::MAX - right(u128::MAX - a, b)
    } else {
        right(a, b)
    }
}

#[tactic(auto, using(crate::proofs::Exactly::far_right))]
fn right(a: u128, b: u128) -> u128
    ensures { result ≡ a / 2 ^ b }
{
    if b < 128 { a >> (b as u32) } else { 0 }
}

#[tactic(auto, using(crate::proofs::Words::truth_reading))]
pub(crate) fn is_true(a: u128) -> bool
    ensures { (s : Bool) → result ≡ truth (reading s 128 a) }
{
    a != 0
}

pub(crate) fn is_false(a: u128) -> bool
    ensures { (s : Bool) → result ≡ not (truth (reading s 128 a)) }
{
    !is_true(a)
}

#[tactic(auto, using(crate::proofs::Exactly::word_same))]
pub(crate) fn plus(a: u128) -> u128
    ensures { (s : Bool) → result ≡ low 128 (reading s 128 a) }
{
    a
}

#[tactic(auto, using(crate::proofs::Exactly::word_neg))]
pub(crate) fn neg(a: u128) -> u128
    ensures { (s : Bool) → result ≡ low 128 (neg_ℤ (reading s 128 a)) }
{
    a.wrapping_neg()
}

#[tactic(auto, using(crate::proofs::Exactly::word_not))]
pub(crate) fn not(a: u128) -> u128
    ensures { (s : Bool) → result ≡ low 128 (neg_ℤ (reading s 128 a) -ℤ pos 1) }
{
    !a
}

/// Whether all of the low bits are set.
#[tactic(auto, using(crate::proofs::Exactly::low_bits))]
pub(crate) fn all_bits(width: u32, a: u128) -> bool
    requires { (1 ≤ width) × (width ≤ 128) }
    ensures { (s : Bool) → result ≡ nat_eq (low width (reading s 128 a)) (2 ^ width - 1) }
{
    cut(width, a) == mask(width)
}

/// Whether one of the low bits is set.
#[tactic(auto, using(crate::proofs::Exactly::low_bits))]
pub(crate) fn some_bit(width: u32, a: u128) -> bool
    requires { (1 ≤ width) × (width ≤ 128) }
    ensures { (s : Bool) → result ≡ not (nat_eq (low width (reading s 128 a)) 0) }
{
    cut(width, a) != 0
}

/// Whether the number of low bits that are set is odd.
#[tactic(auto, using(crate::proofs::Exactly::low_bits))]
pub(crate) fn odd_bits(width: u32, a: u128) -> bool
    requires { (1 ≤ width) × (width ≤ 128) }
    ensures { (s : Bool) → result ≡ nat_eq (count_ones (low width (reading s 128 a)) % 2) 1 }
{
    cut(width, a).count_ones() % 2 == 1
}

pub(crate) fn word_of(truth: bool) -> u128
    ensures { result ≡ low 128 (bit truth) }
{
    u128::from(truth)
}
