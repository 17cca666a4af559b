ghost use Rattle.std.specs.Prelude.{◌≡◌};
ghost use Rattle.scc_bits_kinds.specs.Groups.{group_of};

use crate::kind::Kind;

/// A group of kinds that the operator table tells apart: a kind without its width and sign.
#[derive(Clone, Copy, Debug, PartialEq, Eq)]
pub enum Group {
    Bool,
    Native,
    Int,
    Uint,
    Big,
    BigInt,
    Bv,
    Wide,
}

/// The group of a kind.
pub fn group_of(k: Kind) -> Group
    ensures { result ≡ group_of k }
{
    match k {
        Kind::Bool => Group::Bool,
        Kind::Native { .. } => Group::Native,
        Kind::Int(_) => Group::Int,
        Kind::Uint(_) => Group::Uint,
        Kind::Big(_) => Group::Big,
        Kind::BigInt(_) => Group::BigInt,
        Kind::Bv(_) => Group::Bv,
        Kind::Wide { .. } => Group::Wide,
    }
}
