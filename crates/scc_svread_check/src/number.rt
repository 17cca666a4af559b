//! Numbers as they are written.
ghost use Rattle.std.specs.Prelude.{◌≡◌, ◌≤◌, ◌^◌, ◌*◌, ◌+◌, ◌-◌, min, nat_lt};
ghost use Rattle.scc_svread_check.specs.Numbers.{digit_value};
ghost use Rattle.scc_svread_check.specs.Scope as scopes;

use scc_svread_grammar::{RawLiteral, RawVar};

// A number with one decimal digit more, cut at the greatest that is told from others.
fn with_digit(n: u128, b: u8) -> u128
    ensures { result ≡ min (10 * n + (b - 48)) scopes.greatest }
{
    n.saturating_mul(10)
        .saturating_add(u128::from(b.saturating_sub(48)))
}

// The same with a digit of base 16.
fn with_hex_digit(n: u128, b: u8) -> u128
    ensures { result ≡ min (16 * n + digit_value b) scopes.greatest }
{
    n.saturating_mul(16)
        .saturating_add(u128::from(hex_digit(b)))
}

/// The number of decimal digits.
pub fn decimal(digits: &[u8]) -> u128
    ensures { result ≡ scopes.number_in digits.now }
{
    let mut n: u128 = 0;
    for b in digits {
        n = with_digit(n, *b);
    }
    n
}

fn hex_digit(b: u8) -> u8
    ensures { result ≡ digit_value b }
{
    if b <= 57 {
        b.saturating_sub(48)
    } else {
        b.saturating_sub(87)
    }
}

/// The number of digits of base 16.
pub fn hexadecimal(digits: &[u8]) -> u128
    ensures { result ≡ scopes.hex_in digits.now }
{
    let mut n: u128 = 0;
    for b in digits {
        n = with_hex_digit(n, *b);
    }
    n
}

/// Whether a number is a width of 1 to 128.
pub fn is_width(n: u128) -> bool
    ensures { result ≡ scopes.is_width n }
{
    1 <= n && n <= 128
}

// Whether a number has at most so many bits.
fn holds(width: u128, n: u128) -> bool
    requires width { width ≤ 128 }
    ensures { result ≡ nat_lt n (2 ^ width) }
{
    if width == 128 {
        true
    } else {
        n < 1u128 << width
    }
}

/// Whether a literal has a wrong width, or more bits than that.
pub fn is_wrong_literal(l: &RawLiteral) -> bool
    ensures { result ≡ scopes.is_wrong_literal l.now }
{
    let width = decimal(l.width.bytes());
    if is_width(width) {
        !holds(width, hexadecimal(l.digits.bytes()))
    } else {
        true
    }
}

/// The number of a variable's highest bit.
pub fn high_of(v: &RawVar) -> u128
    ensures { result ≡ scopes.high_of v.now }
{
    match &v.high {
        Some(digits) => decimal(digits.bytes()),
        None => 0,
    }
}
