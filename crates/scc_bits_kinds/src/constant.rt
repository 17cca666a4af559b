//! How a constant counts beside a large operand.
ghost use Rattle.std.specs.Prelude.{◌≡◌, ◌≤◌, ◌<◌, ◌^◌, ◌*◌, ◌+◌, pos, negsuc};
ghost use Rattle.scc_bits_kinds.specs.Kinds.{IsValid, Fits, number_of};
ghost use Rattle.scc_bits_kinds.specs.Numbers.{reading};
ghost use Rattle.scc_bits_kinds.specs.Constants.{CountsBy};

use crate::counts::wide;
use crate::kind::{Kind, Word, signed};
use crate::word::extend;

/// The kind by which a constant counts beside a large operand, from its value in place of its own kind: unsigned with
/// its binary digits where it isn't negative, else signed with the fewest bits that hold it (this project's profile).
pub fn counted(k: Kind, x: Word) -> Kind
    requires valid { IsValid k }
    requires fits { Fits k x.bits }
    ensures { CountsBy (number_of k x.bits) result }
{
    counted_word(signed(k), extend(k, x))
}

fn counted_word(signed: bool, a: u128) -> Kind
    ensures { CountsBy (reading signed 128 a) result }
{
    if signed {
        if a < 1u128 << 127 {
            counted_positive(a)
        } else {
            counted_negative(u128::MAX - a)
        }
    } else {
        counted_positive(a)
    }
}

fn counted_positive(a: u128) -> Kind
    ensures { CountsBy (pos a) result }
{
    wide(digits(a).max(1), false)
}

fn counted_negative(b: u128) -> Kind
    requires { b < 2 ^ 127 }
    ensures { CountsBy (negsuc b) result }
{
    wide(digits(b) + 1, true)
}

/// The number of a number's binary digits, 0 for 0.
#[tactic(auto, using(crate::proofs::Fewest::digits_hold, crate::proofs::Fewest::digits_least))]
fn digits(a: u128) -> u32
    ensures small { result ≤ 128 }
    ensures hold { a < 2 ^ result }
    ensures least { 2 ^ result ≤ 2 * a + 1 }
{
    128 - a.leading_zeros()
}
