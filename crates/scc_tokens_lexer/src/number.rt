//! The forms of integer literals and their kinds (C++, "Integer literals").
ghost use Rattle.std.specs.Prelude.{◌≡◌, ◌+◌, ◌*◌, ◌<◌, ◌≤◌, length, bytes_eq, SomeIff, ◌^◌};
ghost use Rattle.std.specs.List.{prefix_len, list_any};
ghost use Rattle.scc_tokens_lexer.specs.Number.{digit_of, digits_len, digits_value, is_long, is_unsigned_mark, suffix_of, radix_of, literal_kind, literal_of};

use scc_bits::{Kind, Word};

// The value of a digit, 36 where the byte is none of any base.
fn digit(b: u8) -> u8
    ensures { result ≡ digit_of b }
{
    match b {
        b'0'..=b'9' => b - b'0',
        b'a'..=b'z' => b - b'a' + 10,
        b'A'..=b'Z' => b - b'A' + 10,
        _ => 36,
    }
}

// How many digits of the base stand at the front.
fn digits_len(base: u8, bytes: &[u8]) -> usize
    ensures value { result ≡ digits_len base bytes.now }
    ensures within { result ≤ length bytes.now }
{
    bytes.iter().take_while(|b| digit(**b) < base).count()
}

// The base that a literal is written in, and where its digits begin.
fn radix(literal: &[u8]) -> (u8, &[u8])
    ensures { (result.0, result.1.now) ≡ radix_of literal.now }
{
    match literal {
        [b'0', b'x' | b'X', digits @ ..] => (16, digits),
        [b'0', b'b' | b'B', digits @ ..] => (2, digits),
        [b'0', ..] => (8, literal),
        _ => (10, literal),
    }
}

fn is_unsigned_mark(b: u8) -> bool
    ensures { result ≡ is_unsigned_mark b }
{
    b == b'u' || b == b'U'
}

fn is_long(suffix: &[u8]) -> bool
    ensures { result ≡ is_long suffix.now }
{
    suffix == b"l".as_slice()
        || suffix == b"L".as_slice()
        || suffix == b"ll".as_slice()
        || suffix == b"LL".as_slice()
}

// Whether a suffix says unsigned, and whether it says long; None where it is no suffix.
fn suffix_of(suffix: &[u8]) -> Option<(bool, bool)>
    ensures { result ≡ suffix_of suffix.now }
{
    if suffix.is_empty() {
        return Some((false, false));
    }
    if is_long(suffix) {
        return Some((false, true));
    }
    let last = suffix.len() - 1;
    if is_unsigned_mark(suffix[0]) && suffix.len() == 1 {
        return Some((true, false));
    }
    if is_unsigned_mark(suffix[0]) && is_long(&suffix[1..]) {
        return Some((true, true));
    }
    if is_unsigned_mark(suffix[last]) && is_long(&suffix[..last]) {
        return Some((true, true));
    }
    None
}

// The number that digits of the base write, where 64 bits hold it.
fn value_of(base: u8, digits: &[u8]) -> Option<u64>
    requires { 0 < base }
    ensures { SomeIff result (digits_value base 0 digits.now < 2 ^ 64) (digits_value base 0 digits.now) }
{
    let mut value: u64 = 0;
    for d in digits {
        value = value
            .checked_mul(u64::from(base))?
            .checked_add(u64::from(digit(*d)))?;
    }
    Some(value)
}

// The first kind that holds a number, of those that its base and its suffix allow.
fn literal_kind(decimal: bool, unsigned: bool, long: bool, n: u64) -> Option<Kind>
    ensures { result ≡ literal_kind decimal unsigned long n }
{
    if !unsigned && !long && n < 1 << 31 {
        return Some(Kind::Native {
            bits: 32,
            signed: true,
        });
    }
    if (unsigned || !decimal) && !long && n < 1 << 32 {
        return Some(Kind::Native {
            bits: 32,
            signed: false,
        });
    }
    if !unsigned && n < 1 << 63 {
        return Some(Kind::Native {
            bits: 64,
            signed: true,
        });
    }
    (unsigned || !decimal).then_some(Kind::Native {
        bits: 64,
        signed: false,
    })
}

/// The kind and the bits of an integer literal: the first kind of C++'s list that holds its value. None where the
/// bytes have no form of a literal, or where no kind of at most 64 bits holds the value.
#[tactic(auto, unfolding(crate::specs::Number::literal_of))]
pub fn literal_of(literal: &[u8]) -> Option<(Kind, Word)>
    ensures { result ≡ literal_of literal.now }
{
    let (base, digits) = radix(literal);
    let n = digits_len(base, digits);
    if n == 0 {
        return None;
    }
    let (unsigned, long) = suffix_of(&digits[n..])?;
    let value = value_of(base, &digits[..n])?;
    let kind = literal_kind(base == 10, unsigned, long, value)?;
    Some((
        kind,
        Word {
            bits: u128::from(value),
        },
    ))
}
