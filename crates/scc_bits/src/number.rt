//! Words of kinds as numbers of 128 bits in two's complement, with all that an operator looks at of their kinds.
ghost use Rattle.std.specs.Prelude.{◌≡◌, ◌≤◌, ◌<◌, ◌^◌};
ghost use Rattle.scc_bits_kinds.specs.Kinds.{IsValid, Fits};
ghost use Rattle.scc_bits_kinds.specs.Numbers.{reading};
ghost use Rattle.scc_bits.specs.Standing.{Reads};

use scc_bits_kinds::{Kind, Word, extend_by};

/// A number of 128 bits in two's complement, with the count of bits and the sign of its kind.
#[derive(Clone, Copy)]
pub(crate) struct Number {
    pub bits: u128,
    pub count: u32,
    pub signed: bool,
}

/// The number of a word. The kind is matched once, since every other question costs a match of its own.
#[inline(always)]
pub(crate) fn read_number(k: Kind, x: Word) -> Number
    requires valid { IsValid k }
    requires fits { Fits k x.bits }
    ensures is { Reads k x.bits result }
    ensures small { result.count ≤ 255 }
{
    match k {
        Kind::Bool => plain(false, 1, x.bits),
        Kind::Native { bits, signed } => plain(signed, bits, x.bits),
        Kind::Int(w) | Kind::BigInt(w) => plain(true, w, x.bits),
        Kind::Uint(w) | Kind::Big(w) | Kind::Bv(w) => plain(false, w, x.bits),
        Kind::Wide { bits, signed } => counted(plain(signed, bits.min(128), x.bits), bits),
    }
}

#[inline(always)]
pub(crate) fn plain(signed: bool, width: u8, x: u128) -> Number
    requires form { (1 ≤ width) × (width ≤ 128) }
    requires fits { x < 2 ^ width }
    ensures value { reading signed 128 result.bits ≡ reading signed width x }
    ensures count { result.count ≡ width }
    ensures signed { result.signed ≡ signed }
{
    let count = u32::from(width);
    Number {
        bits: extend_by(signed, count, x),
        count,
        signed,
    }
}

#[inline(always)]
fn counted(held: Number, count: u8) -> Number
    ensures bits { result.bits ≡ held.bits }
    ensures count { result.count ≡ count }
    ensures signed { result.signed ≡ held.signed }
{
    Number {
        bits: held.bits,
        count: u32::from(count),
        signed: held.signed,
    }
}
