//! The kinds of expressions other than operators, and which conversions there are.
ghost use Rattle.std.specs.Prelude.{◌≡◌, ◌<◌, ◌≤◌, ◌+◌, ◌-◌, Option, Some};
ghost use Rattle.scc_bits_kinds.specs.Kinds.{IsValid, width_of};
ghost use Rattle.scc_bits_kinds.specs.Groups.{group_of, is_small, is_large, is_bits};
ghost use Rattle.scc_bits_kinds.specs.Table.{has_bits};
ghost use Rattle.scc_bits_kinds.specs.Bits.{range_of, is_part, joined_kind, concat_of, mixed_of, is_convertible};

use crate::convert::is_bool;
use crate::counts::{common, wide_room};
use crate::kind::{Kind, width};

/// Whether the kind is small: one of C++'s integers, or a limited one to 64 bits (IEEE 1666-2011, 7.5).
pub fn is_small(k: Kind) -> bool
    ensures { result ≡ is_small (group_of k) }
{
    matches!(
        k,
        Kind::Bool | Kind::Native { .. } | Kind::Int(_) | Kind::Uint(_)
    )
}

/// Whether the kind is large: a finite integer to 128 bits, or a result of operators on them (IEEE 1666-2011, 7.6).
pub fn is_large(k: Kind) -> bool
    ensures { result ≡ is_large (group_of k) }
{
    matches!(k, Kind::Big(_) | Kind::BigInt(_) | Kind::Wide { .. })
}

/// Whether the kind is a bit vector (IEEE 1666-2011, 7.9).
pub fn is_bits(k: Kind) -> bool
    ensures { result ≡ is_bits (group_of k) }
{
    matches!(k, Kind::Bv(_))
}

/// Whether bits and ranges of the kind's words can be selected. A bit that is selected has the kind `Bool`.
pub fn has_bits(k: Kind) -> bool
    ensures { result ≡ has_bits (group_of k) }
{
    matches!(
        k,
        Kind::Int(_) | Kind::Uint(_) | Kind::Big(_) | Kind::BigInt(_) | Kind::Bv(_)
    )
}

/// Whether a word of the first kind may be converted to the second: `bool` is converted to from small kinds alone.
pub fn converts(from: Kind, to: Kind) -> bool
    ensures { result ≡ is_convertible from to }
{
    !is_bool(to) || is_small(from)
}

/// The kind of the range of bits h down to l, None where the kind's bits can't be selected.
pub fn range_kind(k: Kind, h: u32, l: u32) -> Option<Kind>
    requires valid { IsValid k }
    requires range { (l ≤ h) × (h < width_of k) }
    ensures { result ≡ range_of k (h - l + 1) }
{
    let bits = (h - l + 1) as u8;
    match k {
        Kind::Int(_) | Kind::Uint(_) => Some(Kind::Uint(bits)),
        Kind::Big(_) | Kind::BigInt(_) => Some(Kind::Big(bits)),
        Kind::Bv(_) => Some(Kind::Bv(bits)),
        _ => None,
    }
}

/// Whether the kind may be a part of a concatenation.
pub fn is_part(k: Kind) -> bool
    ensures { result ≡ is_part k }
{
    is_bool(k) || has_bits(k)
}

/// The kind of a concatenation of two parts, None where one of them may not be a part.
pub fn concat_kind(a: Kind, b: Kind) -> Option<Kind>
    requires { width_of a + width_of b ≤ 128 }
    ensures { result ≡ concat_of a b }
{
    let bits = (width(a) + width(b)) as u8;
    (is_part(a) && is_part(b)).then_some(joined_kind(a, b, bits))
}

fn joined_kind(a: Kind, b: Kind, bits: u8) -> Kind
    ensures { result ≡ joined_kind a b bits }
{
    if is_bits(a) || is_bits(b) {
        Kind::Bv(bits)
    } else if bits <= 64 && !(is_large(a) || is_large(b)) {
        Kind::Uint(bits)
    } else {
        Kind::Big(bits)
    }
}

/// The kind of `c ? a : b`, None where there is none: equal kinds give that kind, small ones their common kind,
/// a large one a kind with room for both.
pub fn choice_kind(a: Kind, b: Kind) -> Option<Kind>
    ensures equal { a ≡ b → result ≡ Some a }
    ensures other { ¬ (a ≡ b) → result ≡ mixed_of a b }
{
    if a == b { Some(a) } else { mixed_kind(a, b) }
}

fn mixed_kind(a: Kind, b: Kind) -> Option<Kind>
    ensures { result ≡ mixed_of a b }
{
    if is_small(a) && is_small(b) {
        Some(common(a, b))
    } else if is_bits(a) || is_bits(b) {
        None
    } else {
        Some(wide_room(a, b))
    }
}
