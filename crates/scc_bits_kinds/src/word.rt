//! Numbers of kinds as numbers of 128 bits in two's complement, and back.
ghost use Rattle.std.specs.Prelude.{◌≡◌, ◌<◌, ◌≤◌, ◌-◌, ◌*◌, ◌^◌, ◌%◌, Bool, true};
ghost use Rattle.scc_bits_kinds.specs.Kinds.{IsValid, Fits, width_of, is_signed, number_of};
ghost use Rattle.scc_bits_kinds.specs.Numbers.{reading};

use crate::kind::{Kind, Word, signed, width};

/// The low bits of a word.
#[tactic(auto, using(crate::proofs::Words::cut_mask, crate::proofs::Words::cut_fits))]
#[inline(always)]
pub fn cut(width: u32, x: u128) -> u128
    requires { (1 ≤ width) × (width ≤ 128) }
    ensures is { result ≡ x % 2 ^ width }
    ensures fits { result < 2 ^ width }
{
    x & mask(width)
}

/// The same for at most 64 bits.
#[tactic(auto, using(crate::proofs::Words::cut_mask))]
#[inline(always)]
pub fn cut_low(width: u32, x: u128) -> u128
    requires { (1 ≤ width) × (width ≤ 64) }
    ensures { result ≡ x % 2 ^ width }
{
    x & u128::from(mask_half(width))
}

/// The greatest word of so many bits.
/// Half of it is shifted at a time, which takes fewer instructions than 128 bits.
#[tactic(auto, using(crate::proofs::Words::mask_above))]
#[inline(always)]
pub(crate) fn mask(width: u32) -> u128
    requires { (1 ≤ width) × (width ≤ 128) }
    ensures { result ≡ 2 ^ width - 1 }
{
    if width <= 64 {
        u128::from(mask_half(width))
    } else {
        above(mask_half(width - 64)) + u128::from(u64::MAX)
    }
}

#[tactic(auto, using(crate::proofs::Words::mask_power))]
#[inline(always)]
fn mask_half(width: u32) -> u64
    requires { (1 ≤ width) × (width ≤ 64) }
    ensures { result ≡ 2 ^ width - 1 }
{
    u64::MAX >> (64 - width)
}

/// A word in the upper half.
#[inline(always)]
fn above(x: u64) -> u128
    ensures { result ≡ x * 2 ^ 64 }
{
    u128::from(x) << 64
}

/// The word of 128 bits that stands for the same number.
#[inline(always)]
pub(crate) fn extend(k: Kind, x: Word) -> u128
    requires valid { IsValid k }
    requires fits { Fits k x.bits }
    ensures { reading (is_signed k) 128 result ≡ number_of k x.bits }
{
    extend_by(signed(k), width(k), x.bits)
}

/// The word of 128 bits that stands for the same number as a word of so many bits, in either sign.
#[inline(always)]
pub fn extend_by(signed: bool, width: u32, x: u128) -> u128
    requires form { (1 ≤ width) × (width ≤ 128) }
    requires fits { x < 2 ^ width }
    ensures { reading signed 128 result ≡ reading signed width x }
{
    if signed { extend_signed(width, x) } else { x }
}

/// Adds half of the form's numbers and takes it off again once the low bits are taken, so that no branch is on the sign.
#[tactic(auto, using(crate::proofs::Words::kept_signed))]
#[inline(always)]
fn extend_signed(width: u32, x: u128) -> u128
    requires form { (1 ≤ width) × (width ≤ 128) }
    requires fits { x < 2 ^ width }
    ensures { reading true 128 result ≡ reading true width x }
{
    let half = power(width - 1);
    cut(width, x.wrapping_add(half)).wrapping_sub(half)
}

#[tactic(auto, using(crate::proofs::Words::upper))]
#[inline(always)]
fn power(k: u32) -> u128
    requires { k < 128 }
    ensures { result ≡ 2 ^ k }
{
    if k < 64 {
        u128::from(power_half(k))
    } else {
        above(power_half(k - 64))
    }
}

#[inline(always)]
fn power_half(k: u32) -> u64
    requires { k < 64 }
    ensures { result ≡ 2 ^ k }
{
    1 << k
}
