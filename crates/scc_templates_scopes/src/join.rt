//! Concatenations of constants.
ghost use Rattle.std.specs.Prelude.{◌∷◌, ◌++◌, ◌≡◌, List, [], IfErr};
ghost use Rattle.scc_bits.specs.Value.{Number};
ghost use Rattle.scc_plain_spec.specs.Numbers.{concatenated};
ghost use Rattle.scc_templates_scopes.specs.Joins.{Stands};
ghost use Rattle.scc_templates_scopes.specs.declared.join.Parts.TheVariants as parts;
ghost use Rattle.scc_templates_scopes.specs.Refusals.{MayStop};
ghost use Rattle.scc_templates_scopes.specs.Walks.{Gives};

use crate::refuse::refuse;
use scc_base::{Code, Place, Stop};
use scc_bits::{JoinFault, Value, is_part};

// What is known of a concatenation's first parts.
#[derive(Clone, Copy, PartialEq, Eq)]
enum Parts {
    Nothing,
    Number,
    /// One of them may be no part.
    NoPart,
    /// They have more than 128 bits, and each may be a part.
    TooWide,
}

/// A concatenation's first parts.
#[derive(Clone, Copy)]
pub struct Joined {
    parts: Parts,
    /// Their number, where they have one.
    number: Value,
}

impl Joined {
    /// No part.
    pub fn new() -> Joined
        ensures { Stands result [] }
    {
        Joined {
            parts: Parts::Nothing,
            number: Value::zero(),
        }
    }

    fn of(number: Value) -> Joined
        ensures { result ≡ record { parts = parts.Number; number = number } }
    {
        Joined {
            parts: Parts::Number,
            number,
        }
    }

    fn spoilt(self, parts: Parts) -> Joined
        ensures { result ≡ record { parts = parts; number = self.number } }
    {
        Joined {
            parts,
            number: self.number,
        }
    }

    /// With a further part.
    pub fn with(self, low: Value) -> Joined
        ensures { (ns : List Number) → Stands self ns → Stands result (ns ++ low ∷ []) }
    {
        if !is_part(low.kind()) {
            return self.spoilt(Parts::NoPart);
        }
        match self.parts {
            Parts::Nothing => Joined::of(low),
            Parts::Number => match self.number.joined(low) {
                Ok(number) => Joined::of(number),
                Err(JoinFault::TooWide) => self.spoilt(Parts::TooWide),
                Err(JoinFault::NoPart) => self.spoilt(Parts::NoPart),
            },
            Parts::NoPart | Parts::TooWide => self,
        }
    }

    /// The number of all parts.
    pub fn value(self, at: Place) -> Result<Value, Stop>
        ensures stop { IfErr result MayStop }
        ensures is { (ns : List Number) → Stands self ns → Gives (λ v. v) result (concatenated at ns) }
    {
        match self.parts {
            Parts::Number => Ok(self.number),
            Parts::TooWide => refuse(Code::Width, at), // E303
            Parts::Nothing | Parts::NoPart => refuse(Code::Mismatch, at), // E304
        }
    }
}
