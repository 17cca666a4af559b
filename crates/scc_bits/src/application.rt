//! An operator on words of two kinds.
ghost use Rattle.std.specs.Prelude.{◌≡◌, Some, false, IsSome, IfSome};
ghost use Rattle.scc_bits_kinds.specs.Kinds.{IsValid, Fits};
ghost use Rattle.scc_bits_kinds.specs.Operators.{Divisor};
ghost use Rattle.scc_bits.specs.Values.{kind_of, is_too_wide, applied};

use crate::result::rule_at;
use crate::taken::take;
use scc_bits_kinds::{Kind, Op, Word, calculate};

/// The word of the operator's answer for the word x of kind a and the word y of kind b: the operator on the exact
/// numbers that its row takes, converted to the kind that `result_kind` gives (C++ \[expr\]; IEEE 1666-2011, 7.5, 7.6
/// and 7.9). Needs a row that isn't too wide, and a divisor other than 0.
#[tactic(auto, using(crate::proofs::Applied::small_rule))]
#[inline(always)]
pub fn apply(op: Op, a: Kind, x: Word, b: Kind, y: Word) -> Word
    requires kinds { IsValid a × IsValid b }
    requires left { Fits a x.bits }
    requires right { Fits b y.bits }
    requires row { IsSome (kind_of op a b) }
    requires narrow { is_too_wide op a b ≡ false }
    requires divisor { Divisor op y.bits }
    ensures word { applied op a x.bits b y.bits ≡ Some result.bits }
    ensures fits { IfSome (kind_of op a b) (λ k. Fits k result.bits) }
{
    let rule = rule_at(op, a, b).unwrap();
    let taken = take(rule, a, x, b, y);
    Word {
        bits: calculate(op, a, taken.signed, taken.left, taken.right, taken.answer),
    }
}
