//! Words of 128 bits: how they are cut, extended and operated on.
ghost use Rattle.std.specs.Prelude.{◌≡◌, Bool, ◌&&◌, not};
ghost use Rattle.scc_machine_code.specs.Shifts.{is_shift};

use scc_bits::{Kind, Op, Word, operate, takes_right};

/// A change of a word.
#[derive(Clone, Copy)]
pub enum Form {
    /// The low bits, so many of them.
    Low(u8),
    /// The low bits in two's complement, so many of them, extended to 128.
    Extended(u8),
    /// 1 for every word but 0.
    Truth,
    /// The word itself.
    Same,
}

/// The word, changed.
#[inline(always)]
pub fn formed(form: Form, x: u128) -> u128 {
    match form {
        Form::Low(bits) => low(bits, x),
        Form::Extended(bits) => extended(bits, x),
        Form::Truth => u128::from(x != 0),
        Form::Same => x,
    }
}

/// The low bits of a word, so many of them.
#[inline(always)]
pub fn low(bits: u8, x: u128) -> u128 {
    if bits < 128 { x & ((1 << bits) - 1) } else { x }
}

#[inline(always)]
fn extended(bits: u8, x: u128) -> u128 {
    if bits == 0 || bits >= 128 {
        return x;
    }
    let sign = 1u128 << (bits - 1);
    low(bits, x.wrapping_add(sign)).wrapping_sub(sign)
}

/// The bits from one on.
#[inline(always)]
pub fn from_bit(at: u8, x: u128) -> u128 {
    if at < 128 { x >> at } else { 0 }
}

/// So many bits further up.
#[inline(always)]
pub fn up(by: u8, x: u128) -> u128 {
    if by < 128 { x << by } else { 0 }
}

/// The bit of that number, 0 past so many bits.
#[inline(always)]
pub fn bit(bits: u8, x: u128, index: u128) -> u128 {
    if index < u128::from(bits) && index < 128 {
        x >> (index as u32) & 1
    } else {
        0
    }
}

/// The word with the bits from one on replaced, so many of them.
#[inline(always)]
pub fn spliced(x: u128, at: u8, bits: u8, part: u128) -> u128 {
    let mask = up(at, low(bits, u128::MAX));
    (x & !mask) | (up(at, part) & mask)
}

/// The word with the bit of that number replaced; itself where there are no more than so many bits.
#[inline(always)]
pub fn spliced_bit(bits: u8, x: u128, index: u128, bit: u128) -> u128 {
    if index < u128::from(bits) && index < 128 {
        spliced(x, index as u8, 1, bit)
    } else {
        x
    }
}

#[inline(always)]
fn is_shift(op: Op) -> bool
    ensures { result ≡ is_shift op }
{
    match op {
        Op::Shl => true,
        Op::Shr => true,
        _ => false,
    }
}

/// The low bits of the operator's answer for numbers of 128 bits, signed or not; an amount of a shift is unsigned. A unary
/// operator takes the first number. 0 for a divisor of 0.
#[tactic(auto, using(crate::proofs::Signed::signs_of))]
#[inline(always)]
pub fn operated(op: Op, signed: bool, bits: u8, x: u128, y: u128) -> u128 {
    let right = Word { bits: y };
    if bits == 0 || !takes_right(op, right) {
        return 0;
    }
    let number = Kind::Wide { bits: 128, signed };
    let amount = Kind::Wide {
        bits: 128,
        signed: signed && !is_shift(op),
    };
    let answer = Kind::Wide {
        bits,
        signed: false,
    };
    operate(op, number, Word { bits: x }, amount, right, answer).bits
}
