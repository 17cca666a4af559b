//! Conversion between kinds.
ghost use Rattle.std.specs.Prelude.{◌≡◌, ◌≤◌, IsTrue, false};
ghost use Rattle.scc_bits_kinds.specs.Kinds.{IsValid, Fits, width_of, is_signed, is_bool, number_of, stored, converted};
ghost use Rattle.scc_bits_kinds.specs.Numbers.{low, reading};

use crate::kind::{Kind, Word, signed, width};
use crate::word::{cut, extend};

/// The word of the same number converted to another kind (IEEE 1666-2011, 7.2.1 and 7.2.9; C++ \[conv\]):
/// to `bool` 1 exactly where the number isn't 0, to another kind its low bits in two's complement.
#[tactic(auto, using(crate::proofs::Words::truth_reading))]
#[inline(always)]
pub fn conv(from: Kind, to: Kind, x: Word) -> Word
    requires kinds { IsValid from × IsValid to }
    requires fits { Fits from x.bits }
    ensures word { result.bits ≡ stored to (number_of from x.bits) }
    ensures value { number_of to result.bits ≡ converted to (number_of from x.bits) }
    ensures fits { Fits to result.bits }
{
    let bits = if is_bool(to) {
        u128::from(x.bits != 0)
    } else {
        low_bits(from, to, x)
    };
    Word { bits }
}

/// The number's low bits in another kind's width.
#[tactic(auto, using(crate::proofs::Words::cut_reading))]
#[inline(always)]
pub(crate) fn low_bits(from: Kind, to: Kind, x: Word) -> u128
    requires kinds { IsValid from × IsValid to }
    requires fits { Fits from x.bits }
    ensures word { result ≡ low (width_of to) (number_of from x.bits) }
    ensures fits { Fits to result }
{
    cut(width(to), extend(from, x))
}

#[inline(always)]
pub(crate) fn is_bool(k: Kind) -> bool
    ensures { result ≡ is_bool k }
{
    matches!(k, Kind::Bool)
}
