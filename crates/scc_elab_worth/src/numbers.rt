//! Numbers by those of their parts.
ghost use Rattle.std.specs.Prelude.{◌≡◌, IfOk};
ghost use Rattle.scc_elab_worth.specs.Said.{Gives, Is};
ghost use Rattle.scc_elab_worth.specs.Numbers as spec;

use scc_base::{NoMemory, Place, Stop, lost};
use scc_bits::{Kind, Op, Value, Word, width};

/// The number of a word in a kind.
#[tactic(auto, using(crate::proofs::Kept::number_is))]
pub(crate) fn number(kind: Kind, bits: u128) -> Result<Value, Stop>
    ensures { Gives (λ v. v) result (Is (spec.number kind bits)) }
{
    match Value::of(kind, Word { bits }) {
        Some(value) => Ok(value),
        None => Err(Stop::from(lost())),
    }
}

/// A number in another kind.
#[tactic(auto, using(crate::proofs::Kept::kept_is))]
pub(crate) fn kept(kind: Kind, value: Value) -> Result<Value, Stop>
    ensures { Gives (λ v. v) result (Is (spec.kept kind value)) }
{
    match value.stored(kind) {
        Some(value) => Ok(value),
        None => Err(Stop::from(lost())),
    }
}

/// An operator's answer.
pub(crate) fn operated(place: Place, kind: Kind, op: Op, a: Value, b: Value) -> Result<Value, Stop>
    ensures { Gives (λ v. v) result (spec.operated place kind op a b) }
{
    match a.applied(op, b) {
        Ok(value) => number(kind, value.word().bits),
        Err(_fault) => Err(Stop::from(lost())),
    }
}

/// One of two numbers, in a kind.
pub(crate) fn choice(kind: Kind, test: Value, yes: Value, no: Value) -> Result<Value, Stop>
    ensures { Gives (λ v. v) result (Is (spec.choice kind test yes no)) }
{
    if test.is_true() {
        kept(kind, yes)
    } else {
        kept(kind, no)
    }
}

/// Bits h down to l.
pub(crate) fn range(kind: Kind, h: u32, l: u32, value: Value) -> Result<Value, Stop>
    ensures { Gives (λ v. v) result (Is (spec.range kind h l value)) }
{
    match value.selected(h, l) {
        Some(bits) => number(kind, bits.word().bits),
        None => Err(Stop::from(lost())),
    }
}

/// The bit at an index; 0 past the width.
pub(crate) fn bit(value: Value, index: Value) -> Result<Value, Stop>
    ensures { Gives (λ v. v) result (Is (spec.bit value index)) }
{
    let at = index.bits();
    let is_set = at < u128::from(width(value.kind())) && value.bit(at);
    number(Kind::Bool, u128::from(is_set))
}

/// A word above that of a number, in 128 bits.
pub(crate) fn above(word: u128, value: Value) -> Result<u128, NoMemory>
    ensures { IfOk result (λ w. w ≡ spec.above word value) }
{
    let Some(power) = 2u128.checked_pow(width(value.kind())) else {
        return Err(lost());
    };
    let Some(high) = word.checked_mul(power) else {
        return Err(lost());
    };
    match high.checked_add(value.word().bits) {
        Some(whole) => Ok(whole),
        None => Err(lost()),
    }
}
