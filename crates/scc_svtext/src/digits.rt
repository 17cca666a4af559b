//! Numbers, literals and blanks.
ghost use Rattle.std.specs.Prelude.{◌≡◌, ◌<◌, ◌+◌, ◌*◌, ◌/◌, ◌%◌, ◌^◌, ◌++◌, ◌∷◌, [], decimal, OnOk};
ghost use Rattle.scc_svtext.specs.Fixed.{fixed_text};
ghost use Rattle.scc_svtext.specs.Pieces.{blanks, digit, hex_text, literal_text};

use crate::fixed::Fixed;
use itoa::Buffer;
use scc_base::{NoMemory, Text};
use scc_bits::Word;

/// Appends a fixed piece.
pub fn fixed(out: &mut Text, piece: Fixed) -> Result<(), NoMemory>
    ensures { OnOk result (out.new ≡ out.old ++ fixed_text piece) }
{
    out.push_bytes(piece.bytes())
}

/// Appends a number in decimals.
pub fn number(out: &mut Text, n: u32) -> Result<(), NoMemory>
    ensures { OnOk result (out.new ≡ out.old ++ decimal n) }
{
    let mut buffer = Buffer::new();
    out.push_bytes(buffer.format(n).as_bytes())
}

/// Appends so many blanks.
pub fn blank(out: &mut Text, n: u32) -> Result<(), NoMemory>
    ensures { OnOk result (out.new ≡ out.old ++ blanks n) }
{
    for _ in 0..n {
        out.push_bytes(b" ")?;
    }
    Ok(())
}

// The digit of base 16 with so many digits behind it.
#[tactic(auto, using(crate::proofs::Nibble::no_digit, crate::proofs::Nibble::small_shift))]
fn nibble(value: u128, behind: u32) -> u8
    ensures is { result ≡ value / 2 ^ (4 * behind) % 16 }
    ensures small { result < 16 }
{
    if behind < 32 {
        ((value >> (4 * behind)) % 16) as u8
    } else {
        0
    }
}

// The letter of a digit.
fn letter(d: u8) -> u8
    requires { d < 16 }
    ensures { result ≡ digit d }
{
    if d < 10 { 48 + d } else { 87 + d }
}

// Appends so many digits of base 16, the highest first.
#[tactic(auto, using(crate::proofs::Nibble::hex_more, crate::proofs::Nibble::hex_none))]
fn hex(out: &mut Text, count: u32, value: u128) -> Result<(), NoMemory>
    ensures { OnOk result (out.new ≡ out.old ++ hex_text count value) }
{
    let mut left = count;
    while left > 0 {
        left -= 1;
        out.push_bytes(&[letter(nibble(value, left))])?;
    }
    Ok(())
}

// How many digits of base 16 a width has.
fn digits(width: u32) -> u32
    ensures { result ≡ (width + 3) / 4 }
{
    ((u64::from(width) + 3) / 4) as u32
}

/// Appends a literal.
pub fn literal(out: &mut Text, width: u32, value: Word) -> Result<(), NoMemory>
    ensures { OnOk result (out.new ≡ out.old ++ literal_text width value.bits) }
{
    number(out, width)?;
    fixed(out, Fixed::Hex)?;
    hex(out, digits(width), value.bits)
}
