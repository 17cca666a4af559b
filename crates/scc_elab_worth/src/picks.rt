//! The part of a number that an assignment writes.
ghost use Rattle.std.specs.Prelude.{◌≡◌, ◌-◌, ◌+◌, ◌<◌, ◌^◌, IsTrue, IfOk};
ghost use Rattle.scc_bits_kinds.specs.Bits.{replaced};
ghost use Rattle.scc_bits_kinds.specs.Kinds.{width_of};
ghost use Rattle.scc_semantics.specs.Scene.{with_bit as with_one};
ghost use Rattle.scc_elab_spec.specs.Worth.{bit_given, picked as part_picked};
ghost use Rattle.scc_elab_worth.specs.Meant.{site_of};
ghost use Rattle.scc_elab_worth.specs.Picks.{IsIndex, pick_meant};
ghost use Rattle.scc_elab_worth.specs.Sites.{around};

use crate::spots::Site;
use crate::walk::value_of;
use scc_base::{NoMemory, Stop, lost};
use scc_bits::{Kind, Value, Word, width};
use scc_plain_tree::PlainPick;

/// The bit that the pick of a left side names; None where it names no bit. Refused as `value_of`.
pub fn index_of(s: &Site, pick: &Option<PlainPick>) -> Result<Option<u128>, Stop>
    ensures { IsIndex result (bit_given (site_of (around s.now)) (pick_meant pick.now)) }
{
    match pick {
        Some(PlainPick::Bit { at, .. }) => match value_of(s, at) {
            Ok(at) => Ok(Some(at.bits())),
            Err(stop) => Err(stop),
        },
        Some(PlainPick::Range { .. }) | None => Ok(None),
    }
}

/// The word of a number of a kind after an assignment to the part that a pick names, whose bit is given.
pub fn picked(
    kind: Kind,
    pick: &Option<PlainPick>,
    index: Option<u128>,
    old: u128,
    new: u128,
) -> Result<u128, NoMemory>
    ensures { IfOk result (λ w. w ≡ part_picked kind (pick_meant pick.now) index old new) }
{
    match pick {
        None => Ok(new),
        Some(PlainPick::Range { h, l, .. }) => with_range(kind, *h, *l, old, new),
        Some(PlainPick::Bit { .. }) => match index {
            Some(i) => with_bit(kind, i, old, new),
            None => Ok(new),
        },
    }
}

// A bit past the end is none.
fn with_bit(kind: Kind, i: u128, old: u128, bit: u128) -> Result<u128, NoMemory>
    ensures { IfOk result (λ w. w ≡ with_one (width_of kind) old i bit) }
{
    if i >= u128::from(width(kind)) {
        return Ok(old);
    }
    match u32::try_from(i) {
        Ok(i) => with_range(kind, i, i, old, bit),
        Err(_) => Err(lost()),
    }
}

// Bits h down to l, where so many bits are given.
fn with_range(kind: Kind, h: u32, l: u32, old: u128, bits: u128) -> Result<u128, NoMemory>
    ensures { IfOk result (λ w. w ≡ replaced h l old bits) }
{
    if h < l || !fits(bits, h - l) {
        return Err(lost());
    }
    let Some(number) = Value::of(kind, Word { bits: old }) else {
        return Err(lost());
    };
    match number.replaced(h, l, bits) {
        Some(whole) => Ok(whole.word().bits),
        None => Err(lost()),
    }
}

// Whether a word has at most one bit more than this.
fn fits(bits: u128, len: u32) -> bool
    ensures { IsTrue result → bits < 2 ^ (len + 1) }
{
    if len >= 127 {
        return true;
    }
    match 2u128.checked_pow(len + 1) {
        Some(power) => bits < power,
        None => false,
    }
}
