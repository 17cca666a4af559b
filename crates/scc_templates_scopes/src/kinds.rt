//! Kinds that the stages name.
ghost use Rattle.std.specs.Prelude.{◌≡◌};
ghost use Rattle.scc_plain_spec.specs.Types.{family_kind, sort_kind};

use scc_bits::Kind;
use scc_tree::{Family, ParamSort};

/// `int`.
pub const INT: Kind = Kind::Native {
    bits: 32,
    signed: true,
};

const UNSIGNED: Kind = Kind::Native {
    bits: 32,
    signed: false,
};

/// The kind of a number of a family with so many bits, None where it may not have them (IEEE 1666-2011, sections 7.5,
/// 7.6 and 7.9; large numbers end at 128 bits by this project's profile).
pub fn family_kind(family: Family, bits: u32) -> Option<Kind>
    ensures { result ≡ family_kind family bits }
{
    let most = match family {
        Family::Int | Family::Uint => 64,
        Family::Big | Family::BigInt | Family::Bv => 128,
    };
    if bits < 1 || most < bits {
        return None;
    }
    let bits = bits as u8;
    Some(match family {
        Family::Int => Kind::Int(bits),
        Family::Uint => Kind::Uint(bits),
        Family::Big => Kind::Big(bits),
        Family::BigInt => Kind::BigInt(bits),
        Family::Bv => Kind::Bv(bits),
    })
}

/// The kind of a parameter that stands for a number, None where it stands for a type.
pub fn sort_kind(sort: ParamSort) -> Option<Kind>
    ensures { result ≡ sort_kind sort }
{
    match sort {
        ParamSort::Int => Some(INT),
        ParamSort::Unsigned => Some(UNSIGNED),
        ParamSort::Bool => Some(Kind::Bool),
        ParamSort::Class => None,
    }
}
