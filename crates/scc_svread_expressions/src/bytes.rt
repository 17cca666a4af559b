//! Fixed bytes and runs of bytes.
ghost use Rattle.std.specs.Prelude.{◌≡◌, ◌∷◌, IfOk, Ok, nat_eq};
ghost use Rattle.std.specs.List.{prefix_len};
ghost use Rattle.scc_reading.specs.Reading.{is_next};
ghost use Rattle.scc_svread_grammar.specs.Answer.{Gives};
ghost use Rattle.scc_svtree.specs.Sound.{is_letter, is_word_byte};
ghost use Rattle.scc_svread_grammar.specs.Lexical.{is_digit, is_hex_digit};
ghost use Rattle.scc_svread_grammar.specs.Leaves.{is_positive_digit, run, text};
ghost use Rattle.scc_svread_grammar.specs.Reader.{begins_divisor, begins_expr, begins_name};
ghost use Rattle.scc_svread_grammar.specs.Leaves as leaves;
ghost use Rattle.scc_svread_grammar.specs.Reader as reader;
ghost use Rattle.scc_svtree.specs.Sound as sound;

use scc_base::{NoMemory, Text};
use scc_svread_grammar::Halt;
use std::alloc::Global;

/// Passes these bytes.
#[tactic(auto, unfolding(scc_svread_grammar::specs::Leaves::text))]
pub fn text<'a>(word: &[u8], ts: &'a [u8]) -> Result<((), &'a [u8]), Halt>
    ensures { Gives (λ x. (x.0, x.1.now)) result (leaves.text word.now ts.now) }
{
    match word {
        [] => Ok(((), ts)),
        [b, more @ ..] => match ts {
            [t, rest @ ..] if *t == *b => text(more, rest),
            _ => Err(Halt::Unexpected(ts.len())),
        },
    }
}

/// Whether the next byte is this one.
pub fn is_next(b: u8, ts: &[u8]) -> bool
    ensures { result ≡ Rattle.scc_reading.specs.Reading.is_next (λ c. nat_eq c b) ts.now }
{
    matches!(ts, [c, ..] if *c == b)
}

pub fn is_digit(b: u8) -> bool
    ensures { result ≡ Rattle.scc_svread_grammar.specs.Lexical.is_digit b }
{
    48 <= b && b <= 57
}

fn is_hex_digit(b: u8) -> bool
    ensures { result ≡ Rattle.scc_svread_grammar.specs.Lexical.is_hex_digit b }
{
    is_digit(b) || (97 <= b && b <= 102)
}

pub fn is_positive_digit(b: u8) -> bool
    ensures { result ≡ leaves.is_positive_digit b }
{
    49 <= b && b <= 57
}

pub fn is_letter(b: u8) -> bool
    ensures { result ≡ sound.is_letter b }
{
    (97 <= b && b <= 122) || (65 <= b && b <= 90) || b == 95
}

fn is_word_byte(b: u8) -> bool
    ensures { result ≡ sound.is_word_byte b }
{
    is_letter(b) || (48 <= b && b <= 57) || b == 36
}

pub fn begins_digit(ts: &[u8]) -> bool
    ensures { result ≡ Rattle.scc_reading.specs.Reading.is_next Rattle.scc_svread_grammar.specs.Lexical.is_digit ts.now }
{
    match ts {
        [b, ..] => is_digit(*b),
        [] => false,
    }
}

pub fn begins_name(ts: &[u8]) -> bool
    ensures { result ≡ Rattle.scc_reading.specs.Reading.is_next reader.begins_name ts.now }
{
    match ts {
        [b, ..] => is_letter(*b) || *b == 92,
        [] => false,
    }
}

pub fn begins_expr(ts: &[u8]) -> bool
    ensures { result ≡ Rattle.scc_reading.specs.Reading.is_next reader.begins_expr ts.now }
{
    match ts {
        [b, ..] => {
            is_digit(*b) || *b == 40 || *b == 123 || *b == 36 || (is_letter(*b) || *b == 92)
        }
        [] => false,
    }
}

pub fn begins_divisor(ts: &[u8]) -> bool
    ensures { result ≡ Rattle.scc_reading.specs.Reading.is_next reader.begins_divisor ts.now }
{
    match ts {
        [b, ..] => is_digit(*b) || *b == 36,
        [] => false,
    }
}

fn digits_len(ts: &[u8]) -> usize
    ensures { result ≡ prefix_len Rattle.scc_svread_grammar.specs.Lexical.is_digit ts.now }
{
    ts.iter().take_while(|b| is_digit(**b)).count()
}

fn word_len(ts: &[u8]) -> usize
    ensures { result ≡ prefix_len sound.is_word_byte ts.now }
{
    ts.iter().take_while(|b| is_word_byte(**b)).count()
}

/// How many digits of base 16 there are from here on.
pub fn hex_len(ts: &[u8]) -> usize
    ensures { result ≡ prefix_len Rattle.scc_svread_grammar.specs.Lexical.is_hex_digit ts.now }
{
    ts.iter().take_while(|b| is_hex_digit(**b)).count()
}

/// The digits from here on, and what is behind them.
#[tactic(auto, using(scc_svread_grammar::proofs::Lengths::run_split, scc_svread_grammar::proofs::Lengths::run_bound))]
pub fn digits(ts: &[u8]) -> (&[u8], &[u8])
    ensures { leaves.run Rattle.scc_svread_grammar.specs.Lexical.is_digit ts.now ≡ Ok (result.0.now, result.1.now) }
{
    ts.split_at(digits_len(ts))
}

/// The bytes of a name from here on, and what is behind them.
#[tactic(auto, using(scc_svread_grammar::proofs::Lengths::run_split, scc_svread_grammar::proofs::Lengths::run_bound))]
pub fn word_bytes(ts: &[u8]) -> (&[u8], &[u8])
    ensures { leaves.run sound.is_word_byte ts.now ≡ Ok (result.0.now, result.1.now) }
{
    ts.split_at(word_len(ts))
}

/// A copy.
pub fn copied(alloc: Global, bytes: &[u8]) -> Result<Text, NoMemory>
    ensures { IfOk result (λ t. t ≡ bytes.now) }
{
    let mut t = Text::new(alloc);
    t.push_bytes(bytes)?;
    Ok(t)
}

/// A copy of a byte and others.
pub fn joined(alloc: Global, b: u8, more: &[u8]) -> Result<Text, NoMemory>
    ensures { IfOk result (λ t. t ≡ b ∷ more.now) }
{
    let mut t = Text::new(alloc);
    t.push_bytes(&[b])?;
    t.push_bytes(more)?;
    Ok(t)
}
