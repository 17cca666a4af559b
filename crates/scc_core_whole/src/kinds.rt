//! Kinds that are the same.
ghost use Rattle.std.specs.Prelude.{◌≡◌, ◌&&◌, true};
ghost use Rattle.scc_core_spec.specs.Fit.{same_bool, same_kind};

use scc_bits::Kind;

/// Both.
pub fn both(a: bool, b: bool) -> bool
    ensures { result ≡ (a && b) }
{
    a && b
}

/// Whether two signs are one.
pub fn same_sign(a: bool, b: bool) -> bool
    ensures { result ≡ same_bool a b }
{
    if a { b } else { !b }
}

/// Whether two kinds are one.
pub fn same_kind(a: Kind, b: Kind) -> bool
    ensures same { result ≡ same_kind a b }
    ensures is { result ≡ true → a ≡ b }
{
    match a {
        Kind::Bool => match b {
            Kind::Bool => true,
            _ => false,
        },
        Kind::Native { bits: w, signed: s } => match b {
            Kind::Native { bits: v, signed: t } => w == v && same_sign(s, t),
            _ => false,
        },
        Kind::Int(w) => match b {
            Kind::Int(v) => w == v,
            _ => false,
        },
        Kind::Uint(w) => match b {
            Kind::Uint(v) => w == v,
            _ => false,
        },
        Kind::Big(w) => match b {
            Kind::Big(v) => w == v,
            _ => false,
        },
        Kind::BigInt(w) => match b {
            Kind::BigInt(v) => w == v,
            _ => false,
        },
        Kind::Bv(w) => match b {
            Kind::Bv(v) => w == v,
            _ => false,
        },
        Kind::Wide { bits: w, signed: s } => match b {
            Kind::Wide { bits: v, signed: t } => w == v && same_sign(s, t),
            _ => false,
        },
    }
}
