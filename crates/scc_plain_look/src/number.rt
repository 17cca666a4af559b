//! Kinds, and words that fit them.
ghost use Rattle.std.specs.Prelude.{◌≡◌};
ghost use Rattle.scc_plain_look.specs.Constant as spec;

use scc_bits::{Kind, Op, Word, fits, valid};

/// Whether it is one of the kinds that there are.
#[tactic(auto, using(crate::proofs::Tests::kind_told))]
pub(crate) fn is_kind(k: Kind) -> bool
    ensures kind { result ≡ spec.is_kind k }
{
    valid(k)
}

/// Whether it is a word of a kind.
#[tactic(auto, using(crate::proofs::Tests::word_told))]
pub(crate) fn is_word(k: Kind, x: Word) -> bool
    ensures word { result ≡ spec.is_word k x.bits }
{
    valid(k) && fits(k, x)
}

/// Whether it divides.
pub(crate) fn is_division(op: Op) -> bool
    ensures division { result ≡ spec.is_division op }
{
    match op {
        Op::Div | Op::Rem => true,
        _ => false,
    }
}
