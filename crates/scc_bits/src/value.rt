//! A number with its kind.
ghost use Rattle.std.specs.Prelude.{◌≡◌, ◌<◌, ◌≤◌, ◌^◌, ◌+◌, ◌-◌, ◌/◌, ◌%◌, ◌↔◌, pos, IsTrue, Some, None, true, false, Err, IfOk, IfSome, IsOk, IsSome, nat_eq, not, unwrap_or};
ghost use Rattle.scc_bits_kinds.specs.Kinds.{IsValid, Fits, width_of, is_signed, stored};
ghost use Rattle.scc_bits_kinds.specs.Constants.{CountsBy, is_negative};
ghost use Rattle.scc_bits_kinds.specs.Numbers.{Holds, low, reading};
ghost use Rattle.scc_bits_kinds.specs.Bits.{part, replaced, joined, range_of, concat_of, is_convertible};
ghost use Rattle.scc_bits_kinds.specs.Operators.{Divisor};
ghost use Rattle.scc_bits.specs.Values.{kind_of, is_too_wide, applied};
ghost use Rattle.scc_bits.specs.Value.{exactly, counts_beside};
ghost use Rattle.scc_bits.specs.declared.value.Fault.TheVariants as fault;
ghost use Rattle.scc_bits.specs.declared.value.JoinFault.TheVariants as join_fault;

use crate::application::apply;
use crate::bits::{concat, replace, select};
use crate::result::{result_kind, too_wide};
use scc_bits_kinds::{
    Kind, Op, Word, concat_kind, conv, converts, counted, cut, fits, is_large, is_small,
    range_kind, signed, takes_right, valid, width,
};
use std::marker::Model;

/// A number: a valid kind and a word that fits it. So no caller meets a condition on words.
#[derive(Clone, Copy, PartialEq, Eq, Hash)]
pub struct Value {
    kind: Kind,
    word: Word,
}

impl Model for Value {
    ghost use Rattle.scc_bits.specs.Value.{Number};
    ghost use Rattle.scc_bits_kinds.specs.Kinds.{IsValid, Fits};

    ghost Value = { Number };

    ghost view = { λ v. record { kind = v.kind; word = v.word.bits } };

    ghost invariant = { λ v. IsValid v.kind × Fits v.kind v.word.bits };

    ghost inverse = { λ n. record { kind = n.kind; word = record { bits = n.word } } };
}

/// Why an operator has no answer for its operands.
#[derive(Clone, Copy, Debug, PartialEq, Eq)]
pub enum Fault {
    /// The operator table has no row for their kinds.
    NoRow,
    /// The row demands at most 128 bits, and there are more.
    TooWide,
    /// The divisor is 0.
    Divisor,
}

/// Why two numbers have no concatenation.
#[derive(Clone, Copy, Debug, PartialEq, Eq)]
pub enum JoinFault {
    /// More than 128 bits together.
    TooWide,
    /// One of the kinds may be no part of a concatenation.
    NoPart,
}

impl Value {
    /// The 0 of `bool`.
    pub fn zero() -> Value
        ensures { result ≡ record { kind = Kind.Bool; word = 0 } }
    {
        Value {
            kind: Kind::Bool,
            word: Word { bits: 0 },
        }
    }

    /// The number of a word; None exactly where the kind isn't valid or the word doesn't fit it.
    pub fn of(kind: Kind, word: Word) -> Option<Value>
        ensures some { IfSome result (λ v. (v.kind ≡ kind) × (v.word ≡ word.bits)) }
        ensures is { IsValid kind → Fits kind word.bits → IsSome result }
        ensures only { IsSome result → IsValid kind × Fits kind word.bits }
    {
        if valid(kind) && fits(kind, word) {
            Some(Value { kind, word })
        } else {
            None
        }
    }

    /// The kind, which is valid.
    pub fn kind(self) -> Kind
        ensures kind { result ≡ self.kind }
        ensures valid { IsValid result }
    {
        self.kind
    }

    /// The word, which fits the kind.
    pub fn word(self) -> Word
        ensures word { result.bits ≡ self.word }
        ensures fits { Fits self.kind result.bits }
    {
        self.word
    }

    /// Whether the word isn't 0.
    pub fn is_true(self) -> bool
        ensures { result ≡ not (nat_eq self.word 0) }
    {
        self.word.bits != 0
    }

    /// The number in another kind, where it is a valid one: its low bits, or for `bool` whether it isn't 0.
    pub fn stored(self, to: Kind) -> Option<Value>
        ensures some { IfSome result (λ v. (v.kind ≡ to) × (v.word ≡ stored to (exactly self))) }
        ensures is { IsValid to → IsSome result }
        ensures only { IsSome result → IsValid to }
    {
        if !valid(to) {
            return None;
        }
        let word = conv(self.kind, to, self.word);
        Some(Value { kind: to, word })
    }

    /// The number converted to another kind; None exactly where there is no such conversion or kind.
    pub fn converted(self, to: Kind) -> Option<Value>
        ensures some { IfSome result (λ v. (v.kind ≡ to) × (v.word ≡ stored to (exactly self))) }
        ensures is { IsValid to → is_convertible self.kind to ≡ true → IsSome result }
        ensures converts { IsSome result → is_convertible self.kind to ≡ true }
        ensures only { IsSome result → IsValid to }
    {
        if !converts(self.kind, to) {
            return None;
        }
        self.stored(to)
    }

    /// The kind by which the number counts as a constant beside an operand of another kind: beside a large one a small
    /// constant counts by its value (this project's profile).
    pub fn kind_beside(self, other: Kind) -> Kind
        ensures counted { counts_beside self.kind other ≡ true → CountsBy (exactly self) result }
        ensures own { counts_beside self.kind other ≡ false → result ≡ self.kind }
        ensures valid { IsValid result }
    {
        if is_large(other) && is_small(self.kind) {
            counted(self.kind, self.word)
        } else {
            self.kind
        }
    }

    /// The number in the kind by which it counts beside an operand of another kind.
    pub fn beside(self, other: Kind) -> Value
        ensures counted { counts_beside self.kind other ≡ true → CountsBy (exactly self) result.kind }
        ensures own { counts_beside self.kind other ≡ false → result.kind ≡ self.kind }
        ensures word { result.word ≡ stored result.kind (exactly self) }
    {
        let kind = self.kind_beside(other);
        let word = conv(self.kind, kind, self.word);
        Value { kind, word }
    }

    /// The operator's answer. A unary operator takes the number itself as the second one.
    #[tactic(auto, using(crate::proofs::Valued::kind_valid, crate::proofs::Valued::narrow_without_row))]
    pub fn applied(self, op: Op, b: Value) -> Result<Value, Fault>
        ensures kind { IfOk result (λ v. kind_of op self.kind b.kind ≡ Some v.kind) }
        ensures word { IfOk result (λ v. applied op self.kind self.word b.kind b.word ≡ Some v.word) }
        ensures row { result ≡ Err fault.NoRow → kind_of op self.kind b.kind ≡ None }
        ensures wide { result ≡ Err fault.TooWide → is_too_wide op self.kind b.kind ≡ true }
        ensures no_row { kind_of op self.kind b.kind ≡ None → result ≡ Err fault.NoRow }
        ensures too_wide { is_too_wide op self.kind b.kind ≡ true → result ≡ Err fault.TooWide }
        ensures divisor { (result ≡ Err fault.Divisor) ↔ (IsSome (kind_of op self.kind b.kind) × (is_too_wide op self.kind b.kind ≡ false) × ¬ Divisor op b.word) }
        ensures is { IsOk result ↔ (IsSome (kind_of op self.kind b.kind) × (is_too_wide op self.kind b.kind ≡ false) × Divisor op b.word) }
    {
        let Some(kind) = result_kind(op, self.kind, b.kind) else {
            return Err(Fault::NoRow);
        };
        if too_wide(op, self.kind, b.kind) {
            return Err(Fault::TooWide);
        }
        if !takes_right(op, b.word) {
            return Err(Fault::Divisor);
        }
        let word = apply(op, self.kind, self.word, b.kind, b.word);
        Ok(Value { kind, word })
    }

    /// Bits h down to l; None exactly where the kind's bits can't be selected, h is below l or not below the width.
    pub fn selected(self, h: u32, l: u32) -> Option<Value>
        ensures kind { IfSome result (λ v. range_of self.kind (h - l + 1) ≡ Some v.kind) }
        ensures word { IfSome result (λ v. v.word ≡ part h l self.word) }
        ensures is { IsSome result ↔ ((l ≤ h) × (h < width_of self.kind) × IsSome (range_of self.kind (h - l + 1))) }
    {
        if h < l || width(self.kind) <= h {
            return None;
        }
        let kind = range_kind(self.kind, h, l)?;
        let word = select(self.kind, self.word, h, l);
        Value::of(kind, word)
    }

    /// Bit `i`, counted from 0 at the low end; 0 past the width.
    pub fn bit(self, i: u128) -> bool
        ensures { result ≡ nat_eq (self.word / 2 ^ i % 2) 1 }
    {
        i < 128 && self.word.bits >> i & 1 == 1
    }

    /// The number with bits h down to l replaced by the low bits of y; None where h is below l or not below the width.
    pub fn replaced(self, h: u32, l: u32, y: u128) -> Option<Value>
        ensures kind { IfSome result (λ v. v.kind ≡ self.kind) }
        ensures word { IfSome result (λ v. v.word ≡ replaced h l self.word (y % 2 ^ (h - l + 1))) }
        ensures is { IsSome result ↔ ((l ≤ h) × (h < width_of self.kind)) }
    {
        if h < l || width(self.kind) <= h {
            return None;
        }
        let low = Word {
            bits: cut(h - l + 1, y),
        };
        let word = replace(self.kind, self.word, h, l, low);
        Some(Value {
            kind: self.kind,
            word,
        })
    }

    /// The number's bits above those of another one.
    #[tactic(auto, using(crate::proofs::Valued::upper_fits))]
    pub fn joined(self, low: Value) -> Result<Value, JoinFault>
        ensures kind { IfOk result (λ v. concat_of self.kind low.kind ≡ Some v.kind) }
        ensures word { IfOk result (λ v. v.word ≡ joined (width_of low.kind) self.word low.word) }
        ensures wide { (result ≡ Err join_fault.TooWide) ↔ (128 < width_of self.kind + width_of low.kind) }
        ensures part { (result ≡ Err join_fault.NoPart) ↔ ((width_of self.kind + width_of low.kind ≤ 128) × (concat_of self.kind low.kind ≡ None)) }
        ensures is { IsOk result ↔ ((width_of self.kind + width_of low.kind ≤ 128) × IsSome (concat_of self.kind low.kind)) }
    {
        if width(self.kind) + width(low.kind) > 128 {
            return Err(JoinFault::TooWide);
        }
        let Some(kind) = concat_kind(self.kind, low.kind) else {
            return Err(JoinFault::NoPart);
        };
        let word = concat(self.word, low.word, width(low.kind));
        Ok(Value { kind, word })
    }

    /// The number in two's complement of 128 bits.
    pub fn bits(self) -> u128
        ensures low { result ≡ low 128 (exactly self) }
        ensures value { reading (is_signed self.kind) 128 result ≡ exactly self }
    {
        let to = Kind::Wide {
            bits: 128,
            signed: signed(self.kind),
        };
        conv(self.kind, to, self.word).bits
    }

    /// Whether the number is below 0.
    pub fn is_negative(self) -> bool
        ensures { result ≡ is_negative (exactly self) }
    {
        signed(self.kind) && self.bits() >> 127 == 1
    }

    /// Whether two numbers are equal, whatever their kinds.
    pub fn equals(self, other: Value) -> bool
        ensures { IsTrue result ↔ exactly self ≡ exactly other }
    {
        self.is_negative() == other.is_negative() && self.bits() == other.bits()
    }

    /// The number, where it is from 0 to 2^32 - 1.
    pub fn small(self) -> Option<u32>
        ensures some { IfSome result (λ n. exactly self ≡ pos n) }
        ensures is { IsSome result ↔ Holds false 32 (exactly self) }
    {
        if self.is_negative() {
            return None;
        }
        u32::try_from(self.bits()).ok()
    }

    /// The same number in another kind; None where that kind isn't valid or doesn't hold it.
    pub fn held(self, to: Kind) -> Option<Value>
        ensures some { IfSome result (λ v. (v.kind ≡ to) × (exactly v ≡ exactly self)) }
        ensures is { IsSome result ↔ (IsValid to × Holds (is_signed to) (width_of to) (exactly self)) }
    {
        let other = self.stored(to)?;
        other.equals(self).then_some(other)
    }
}
