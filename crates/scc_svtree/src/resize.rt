//! Words of a length in another, and operators on words of one length.
ghost use Rattle.std.specs.Prelude.{◌≡◌, ◌<◌, ◌≤◌, ◌+◌, ◌-◌, ◌^◌, false, pos};
ghost use Rattle.scc_bits_kinds.specs.Numbers.{low, reading};
ghost use Rattle.scc_bits_kinds.specs.Operators.{Divisor, Signs, exact};
ghost use Rattle.scc_svtree.specs.Sizes.{part};
ghost use Rattle.scc_svtree.specs.Variables.{IsWidth};

use scc_bits::{Kind, Op, Word, conv, operate};

// The kind of words of so many bits.
fn wide(n: u32, signed: bool) -> Kind
    requires { IsWidth n }
    ensures { result ≡ Kind.Wide n signed }
{
    Kind::Wide {
        bits: n as u8,
        signed,
    }
}

/// The word of n bits of the number that a word of w bits stands for.
#[tactic(auto, using(crate::proofs::Resized::narrow))]
pub fn resize(w: u32, n: u32, signed: bool, x: Word) -> Word
    requires widths { IsWidth w × IsWidth n }
    requires fits { x.bits < 2 ^ w }
    ensures word { result.bits ≡ low n (reading signed w x.bits) }
    ensures fits { result.bits < 2 ^ n }
{
    conv(wide(w, signed), wide(n, signed), x)
}

/// An operator on two words of n bits.
#[tactic(auto, using(crate::proofs::Resized::narrow))]
pub fn apply(op: Op, n: u32, left: bool, x: Word, right: bool, y: Word) -> Word
    requires width { IsWidth n }
    requires left { x.bits < 2 ^ n }
    requires right { y.bits < 2 ^ n }
    requires signs { Signs op left right }
    requires divisor { Divisor op y.bits }
    ensures word { result.bits ≡ low n (exact op n (reading left n x.bits) (reading right n y.bits)) }
    ensures fits { result.bits < 2 ^ n }
{
    operate(op, wide(n, left), x, wide(n, right), y, wide(n, left))
}

/// A shift of a word of n bits by a word of k bits.
#[tactic(auto, using(crate::proofs::Resized::narrow))]
pub fn shift(op: Op, n: u32, signed: bool, x: Word, k: u32, y: Word) -> Word
    requires widths { IsWidth n × IsWidth k }
    requires left { x.bits < 2 ^ n }
    requires right { y.bits < 2 ^ k }
    requires signs { Signs op signed false }
    requires divisor { Divisor op y.bits }
    ensures word { result.bits ≡ low n (exact op n (reading signed n x.bits) (pos y.bits)) }
    ensures fits { result.bits < 2 ^ n }
{
    operate(op, wide(n, signed), x, wide(k, false), y, wide(n, signed))
}

/// One bit of an operator on two words of n bits.
#[tactic(auto, using(crate::proofs::Resized::narrow))]
pub fn test(op: Op, n: u32, signed: bool, x: Word, y: Word) -> Word
    requires width { IsWidth n }
    requires left { x.bits < 2 ^ n }
    requires right { y.bits < 2 ^ n }
    requires signs { Signs op signed signed }
    requires divisor { Divisor op y.bits }
    ensures word { result.bits ≡ low 1 (exact op n (reading signed n x.bits) (reading signed n y.bits)) }
    ensures fits { result.bits < 2 ^ 1 }
{
    operate(op, wide(n, signed), x, wide(n, signed), y, wide(1, false))
}

/// Bits h down to l of a word.
pub fn select(h: u32, l: u32, x: Word) -> Word
    requires order { l ≤ h }
    requires within { h < 128 }
    ensures word { result.bits ≡ part h l x.bits }
    ensures fits { result.bits < 2 ^ (h - l + 1) }
{
    let above = x.bits >> l;
    let count = h - l + 1;
    let bits = if count == 128 {
        above
    } else {
        above % (1 << count)
    };
    Word { bits }
}
