//! Promotion, the common kind of small operands, and how operands count beside a large one.
ghost use Rattle.std.specs.Prelude.{◌≡◌, ◌≤◌, ◌+◌, Bool};
ghost use Rattle.scc_bits_kinds.specs.Kinds.{IsValid, width_of, is_signed};
ghost use Rattle.scc_bits_kinds.specs.Counts.{promoted, is_long, meeting, common_of, count_of, some_signed, padded, room, quotient_bits, wide, wide_room};

use crate::kind::{Kind, signed, width};

/// The kind that a small operand is promoted to (C++ \[conv.prom\]; IEEE 1666-2011, 7.5).
pub fn promoted(k: Kind) -> Kind
    ensures { result ≡ promoted k }
{
    match k {
        Kind::Bool => native(32, true),
        Kind::Native { bits, signed } => {
            if bits < 32 {
                native(32, true)
            } else {
                native(bits, signed)
            }
        }
        Kind::Int(_) => native(64, true),
        Kind::Uint(_) => native(64, false),
        _ => k,
    }
}

fn native(bits: u8, signed: bool) -> Kind
    ensures { result ≡ Kind.Native bits signed }
{
    Kind::Native { bits, signed }
}

fn is_long(k: Kind) -> bool
    ensures { result ≡ is_long k }
{
    width(k) == 64
}

/// The common kind of two small operands (C++ \[expr.arith.conv\]).
pub fn common(a: Kind, b: Kind) -> Kind
    ensures { result ≡ common_of a b }
{
    meeting(promoted(a), promoted(b))
}

fn meeting(a: Kind, b: Kind) -> Kind
    ensures { result ≡ meeting a b }
{
    let unsigned = is_long(a) && !signed(a) || is_long(b) && !signed(b);
    if is_long(a) || is_long(b) {
        native(64, !unsigned)
    } else {
        native(32, signed(a) && signed(b))
    }
}

/// The bits that a kind counts with beside a large operand.
pub fn count(k: Kind) -> u32
    ensures is { result ≡ count_of k }
    ensures small { result ≤ 255 }
{
    match k {
        Kind::Wide { bits, .. } => u32::from(bits),
        _ => width(k),
    }
}

/// Whether one of the kinds has a sign.
pub fn some_signed(a: Kind, b: Kind) -> bool
    ensures { result ≡ some_signed a b }
{
    signed(a) || signed(b)
}

fn padded(beside_signed: bool, k: Kind) -> u32
    ensures is { result ≡ padded beside_signed k }
    ensures small { result ≤ 256 }
{
    if beside_signed && !signed(k) {
        count(k) + 1
    } else {
        count(k)
    }
}

/// The bits that hold the numbers of both kinds.
pub fn room(a: Kind, b: Kind) -> u32
    ensures is { result ≡ room a b }
    ensures small { result ≤ 256 }
{
    let signed = some_signed(a, b);
    padded(signed, a).max(padded(signed, b))
}

/// The bits of the quotient of two large numbers: one more where a sign is there, since the least number over -1 needs it.
pub fn quotient_bits(a: Kind, b: Kind) -> u32
    ensures is { result ≡ quotient_bits a b }
    ensures small { result ≤ 257 }
{
    room(a, b) + u32::from(some_signed(a, b))
}

/// The kind of a large number: sums past 255 are 255.
pub fn wide(bits: u32, signed: bool) -> Kind
    ensures { result ≡ wide bits signed }
{
    let bits = bits.min(255) as u8;
    Kind::Wide { bits, signed }
}

/// The large kind that holds the numbers of both kinds.
pub fn wide_room(a: Kind, b: Kind) -> Kind
    ensures { result ≡ wide_room a b }
{
    wide(room(a, b), some_signed(a, b))
}
