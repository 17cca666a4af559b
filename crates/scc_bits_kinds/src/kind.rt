ghost use Rattle.std.specs.Prelude.{◌≡◌, ◌<◌, ◌^◌, ◌↔◌, IsTrue};
ghost use Rattle.scc_bits_kinds.specs.Kinds.{IsValid, width_of, is_signed, Fits};

/// The kind of a number (IEEE 1666-2011, section 7: data types).
#[derive(Clone, Copy, Debug, PartialEq, Eq, Hash)]
pub enum Kind {
    /// `bool`.
    Bool,
    /// An integer of C++ with 8, 16, 32 or 64 bits.
    Native { bits: u8, signed: bool },
    /// `sc_int` of 1 to 64 bits.
    Int(u8),
    /// `sc_uint` of 1 to 64 bits.
    Uint(u8),
    /// `sc_biguint` of 1 to 128 bits.
    Big(u8),
    /// `sc_bigint` of 1 to 128 bits.
    BigInt(u8),
    /// `sc_bv` of 1 to 128 bits.
    Bv(u8),
    /// A result of operators on large numbers: 1 to 255 bits, of which the low 128 are held.
    Wide { bits: u8, signed: bool },
}

/// The bits of a number, in the low bits of 128.
#[derive(Clone, Copy, Debug, PartialEq, Eq, Hash)]
pub struct Word {
    pub bits: u128,
}

/// Whether the kind is one that numbers may have (C++ has integers of 8 to 64 bits; IEEE 1666-2011, 7.5
/// and 7.6: limited integers to 64 bits, finite ones, which end here at 128).
pub fn valid(k: Kind) -> bool
    ensures { IsTrue result ↔ IsValid k }
{
    match k {
        Kind::Bool => true,
        Kind::Native { bits, .. } => matches!(bits, 8 | 16 | 32 | 64),
        Kind::Int(w) | Kind::Uint(w) => 1 <= w && w <= 64,
        Kind::Big(w) | Kind::BigInt(w) | Kind::Bv(w) => 1 <= w && w <= 128,
        Kind::Wide { bits, .. } => 1 <= bits,
    }
}

/// The number of bits of a word of the kind, 1 to 128 where the kind is valid.
#[inline(always)]
pub fn width(k: Kind) -> u32
    ensures { result ≡ width_of k }
{
    let width = match k {
        Kind::Bool => 1,
        Kind::Native { bits, .. } => bits,
        Kind::Int(w) | Kind::Uint(w) | Kind::Big(w) | Kind::BigInt(w) | Kind::Bv(w) => w,
        Kind::Wide { bits, .. } => bits.min(128),
    };
    u32::from(width)
}

/// Whether words of the kind are read in two's complement.
#[inline(always)]
pub fn signed(k: Kind) -> bool
    ensures { result ≡ is_signed k }
{
    match k {
        Kind::Native { signed, .. } | Kind::Wide { signed, .. } => signed,
        Kind::Int(_) | Kind::BigInt(_) => true,
        Kind::Bool | Kind::Uint(_) | Kind::Big(_) | Kind::Bv(_) => false,
    }
}

/// Whether the word is one of the kind: below 2 to the kind's width.
#[inline(always)]
pub fn fits(k: Kind, x: Word) -> bool
    requires { IsValid k }
    ensures { IsTrue result ↔ Fits k x.bits }
{
    let width = width(k);
    width == 128 || x.bits < 1 << width
}
