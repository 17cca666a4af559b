//! Prints words.
ghost use Rattle.std.specs.Prelude.{◌≡◌, ◌<◌, ◌+◌, ◌*◌, ◌/◌, ◌%◌, ◌^◌, ◌++◌, ◌∷◌, [], OnOk};
ghost use Rattle.scc_trace.specs.Text.{digit, digits_of, hex_text};

use scc_base::{NoMemory, Text};
use scc_bits::Word;

// The digit of base 16 with so many digits after it.
#[tactic(auto, using(crate::proofs::Nibble::no_digit, crate::proofs::Nibble::small_shift))]
fn nibble(value: u128, behind: u32) -> u8
    ensures is { result ≡ value / 2 ^ (4 * behind) % 16 }
    ensures small { result < 16 }
{
    if behind < 32 {
        ((value >> (4 * behind)) % 16) as u8
    } else {
        0
    }
}

// The letter of a digit, in lower case.
fn letter(d: u8) -> u8
    requires { d < 16 }
    ensures { result ≡ digit d }
{
    if d < 10 { 48 + d } else { 87 + d }
}

// Appends so many digits of base 16, the highest first.
#[tactic(auto, using(crate::proofs::Nibble::hex_more, crate::proofs::Nibble::hex_none))]
fn hex_digits(out: &mut Text, count: u32, value: u128) -> Result<(), NoMemory>
    ensures { OnOk result (out.new ≡ out.old ++ hex_text count value) }
{
    let mut left = count;
    while left > 0 {
        left -= 1;
        out.push_bytes(&[letter(nibble(value, left))])?;
    }
    Ok(())
}

// How many digits of base 16 a width has.
fn digits(width: u32) -> u32
    ensures { result ≡ digits_of width }
{
    ((u64::from(width) + 3) / 4) as u32
}

/// Appends a word of so many bits, in as many digits as that width has.
pub fn word_digits(out: &mut Text, width: u32, word: Word) -> Result<(), NoMemory>
    ensures { OnOk result (out.new ≡ out.old ++ hex_text (digits_of width) word.bits) }
{
    hex_digits(out, digits(width), word.bits)
}
