//! Bits of words.
ghost use Rattle.std.specs.Prelude.{◌≡◌, ◌<◌, ◌≤◌, ◌+◌, ◌-◌, ◌*◌, ◌^◌, ℕ};
ghost use Rattle.scc_bits_kinds.specs.Kinds.{IsValid, Fits, width_of};
ghost use Rattle.scc_bits_kinds.specs.Bits.{part, replaced, joined};

use scc_bits_kinds::{Kind, Word, cut, width};

/// Bits h down to l of a word (IEEE 1666-2011, 7.2.5 and 7.2.6: bit-select and part-select).
#[tactic(auto, using(crate::proofs::Parts::width_valid))]
pub fn select(a: Kind, x: Word, h: u32, l: u32) -> Word
    requires valid { IsValid a }
    requires fits { Fits a x.bits }
    requires range { (l ≤ h) × (h < width_of a) }
    ensures bits { result.bits ≡ part h l x.bits }
    ensures fits { result.bits < 2 ^ (h - l + 1) }
{
    Word {
        bits: part(x.bits, h, l),
    }
}

fn part(x: u128, h: u32, l: u32) -> u128
    requires { (l ≤ h) × (h < 128) }
    ensures is { result ≡ part h l x }
    ensures fits { result < 2 ^ (h - l + 1) }
{
    cut(h - l + 1, x >> l)
}

/// So many bits as stand from h down to l, there.
#[tactic(auto, using(crate::proofs::Parts::put_is))]
fn put(y: u128, h: u32, l: u32) -> u128
    requires range { (l ≤ h) × (h < 128) }
    requires part { y < 2 ^ (h - l + 1) }
    ensures { result ≡ y * 2 ^ l }
{
    y << l
}

/// The word with bits h down to l replaced by those of y.
pub fn replace(a: Kind, x: Word, h: u32, l: u32, y: Word) -> Word
    requires valid { IsValid a }
    requires fits { Fits a x.bits }
    requires range { (l ≤ h) × (h < width_of a) }
    requires part { y.bits < 2 ^ (h - l + 1) }
    ensures bits { result.bits ≡ replaced h l x.bits y.bits }
    ensures fits { Fits a result.bits }
{
    swap(width(a), x.bits, h, l, y.bits)
}

fn swap(width: u32, x: u128, h: u32, l: u32, y: u128) -> Word
    requires width { width ≤ 128 }
    requires fits { x < 2 ^ width }
    requires range { (l ≤ h) × (h < width) }
    requires part { y < 2 ^ (h - l + 1) }
    ensures bits { result.bits ≡ replaced h l x y }
    ensures fits { result.bits < 2 ^ width }
{
    let rest = x - put(part(x, h, l), h, l);
    Word {
        bits: rest + put(y, h, l),
    }
}

/// x above the low bits of y (IEEE 1666-2011, 7.2.7: concatenation).
pub fn concat(x: Word, y: Word, low: u32) -> Word
    requires low { low ≤ 128 }
    requires lower { y.bits < 2 ^ low }
    requires upper { x.bits < 2 ^ (128 - low) }
    ensures bits { result.bits ≡ joined low x.bits y.bits }
    ensures fits { (w : ℕ) → x.bits < 2 ^ w → result.bits < 2 ^ (w + low) }
{
    if low == 128 {
        y
    } else {
        Word {
            bits: (x.bits << low) + y.bits,
        }
    }
}
