//! Constants in other kinds.
ghost use Rattle.std.specs.Prelude.{◌≡◌, IfSome, IsSome};
ghost use Rattle.scc_bits_kinds.specs.Kinds.{IsValid};
ghost use Rattle.scc_plain_spec.specs.Numbers.{choice_of, kind_beside, stored_in};

use scc_bits::{Kind, Value, choice_kind as kind_of_choice};

/// The kind by which a constant counts beside an operand of another kind.
pub fn kind_beside(v: Value, other: Kind) -> Kind
    ensures is { result ≡ kind_beside v other }
    ensures valid { IsValid result }
{
    v.kind_beside(other)
}

/// A constant in the kind by which it counts beside an operand of another kind.
pub fn beside(v: Value, other: Kind) -> Value
    ensures { result ≡ stored_in (kind_beside v other) v }
{
    v.beside(other)
}

/// A constant in another kind, None where that is no valid one.
pub fn stored(v: Value, to: Kind) -> Option<Value>
    ensures is { IfSome result (λ x. x ≡ stored_in to v) }
    ensures valid { IsValid to → IsSome result }
{
    v.stored(to)
}

/// The kind of `c ? a : b` for two kinds, None where there is none.
pub fn choice_kind(a: Kind, b: Kind) -> Option<Kind>
    ensures { result ≡ choice_of a b }
{
    kind_of_choice(a, b)
}
