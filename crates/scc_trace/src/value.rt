//! Values in hexadecimal digits.
ghost use Rattle.std.specs.Prelude.{◌≡◌, ◌<◌, ◌≤◌, ◌^◌, nat_lt, length, IfSome};
ghost use Rattle.scc_trace.specs.Stimulus.{digit_of, hex_of, number_from};

// What a digit of either case counts.
fn digit(b: u8) -> Option<u8>
    ensures is { result ≡ digit_of b }
    ensures small { IfSome result (λ d. d < 16) }
{
    if 48 <= b && b <= 57 {
        Some(b - 48)
    } else if 65 <= b && b <= 70 {
        Some(b - 55)
    } else if 97 <= b && b <= 102 {
        Some(b - 87)
    } else {
        None
    }
}

// The number that digits stand for.
#[tactic(auto, using(crate::proofs::Digits::room, crate::proofs::Digits::digits_step, crate::proofs::Digits::number_step, crate::proofs::Digits::number_stop, crate::proofs::Digits::number_end))]
fn number(digits: &[u8]) -> Option<u128>
    requires { length digits.now ≤ 32 }
    ensures { result ≡ number_from 0 digits.now }
{
    let mut n: u128 = 0;
    for b in digits {
        n = 16 * n + u128::from(digit(*b)?);
    }
    Some(n)
}

/// The number of a value; None where it isn't of 1 to 32 hexadecimal digits.
#[tactic(auto, unfolding(crate::specs::Stimulus::hex_of))]
pub fn hex(digits: &[u8]) -> Option<u128>
    ensures { result ≡ hex_of digits.now }
{
    if 1 <= digits.len() && digits.len() <= 32 {
        number(digits)
    } else {
        None
    }
}

/// Whether a word needs no more than so many bits.
#[tactic(auto, using(crate::proofs::Digits::fits_narrow, crate::proofs::Digits::fits_wide))]
pub fn fits(width: usize, word: u128) -> bool
    ensures { result ≡ nat_lt word (2 ^ width) }
{
    if width < 128 {
        word >> width == 0
    } else {
        true
    }
}
