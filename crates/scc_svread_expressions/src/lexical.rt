//! Reads numbers, literals, names and selects.
ghost use Rattle.std.specs.Prelude.{◌≡◌, ◌++◌, [], Some, None, Ok, min, take, drop, length, nat_le, if◌then◌else◌, ◌-◌, ◌^◌, ◌≤◌, ◌+◌, ◌*◌};
ghost use Rattle.std.specs.List.{prefix_len};
ghost use Rattle.scc_svread_grammar.specs.Answer.{Gives};
ghost use Rattle.scc_svread_grammar.specs.Lexical as lexical;
ghost use Rattle.scc_svread_grammar.specs.Leaves as leaves;

use crate::bytes::{
    copied, digits, hex_len, is_letter, is_next, is_positive_digit, joined, text, word_bytes,
};
use scc_base::Text;
use scc_svread_grammar::{Halt, RawLeft, RawLiteral, RawSelect};
use scc_svtext::{begins_reserved_word, is_reserved_word};
use std::alloc::Global;

/// A number above 0.
#[tactic(auto, unfolding(scc_svread_grammar::specs::Leaves::positive))]
pub fn positive(alloc: Global, ts: &[u8]) -> Result<(Text, &[u8]), Halt>
    ensures { Gives (λ x. (x.0, x.1.now)) result (leaves.positive ts.now) }
{
    match ts {
        [b, rest @ ..] if is_positive_digit(*b) => {
            let (more, rest) = digits(rest);
            Ok((joined(alloc, *b, more)?, rest))
        }
        _ => Err(Halt::Unexpected(ts.len())),
    }
}

/// A number.
#[tactic(auto, unfolding(scc_svread_grammar::specs::Leaves::decimal))]
pub fn decimal(alloc: Global, ts: &[u8]) -> Result<(Text, &[u8]), Halt>
    ensures { Gives (λ x. (x.0, x.1.now)) result (leaves.decimal ts.now) }
{
    if is_next(48, ts) {
        let (_, rest) = text(b"0", ts)?;
        return Ok((copied(alloc, b"0")?, rest));
    }
    positive(alloc, ts)
}

// A number with one digit more, cut at the greatest that fits.
fn appended(n: u128, b: u8) -> u128
    ensures { result ≡ min (10 * n + (b - 48)) (2 ^ 128 - 1) }
{
    n.saturating_mul(10)
        .saturating_add(u128::from(b.saturating_sub(48)))
}

// The number that digits stand for, cut at the greatest that fits.
fn number(digits: &[u8]) -> u128
    ensures { result ≡ min (lexical.number digits.now) (2 ^ 128 - 1) }
{
    let mut n: u128 = 0;
    for b in digits {
        n = appended(n, *b);
    }
    n
}

// How many digits a literal of this width has, where there are so many.
fn enough(width: &[u8], run: usize) -> Option<usize>
    ensures { result ≡ (if nat_le (lexical.digits_of width.now) run then Some (lexical.digits_of width.now) else None) }
{
    let count = number(width).saturating_add(3) / 4;
    if count <= run as u128 {
        Some(count as usize)
    } else {
        None
    }
}

/// A literal from behind the `'h` after its width.
#[tactic(auto, unfolding(scc_svread_grammar::specs::Leaves::digits_behind))]
pub fn digits_behind(alloc: Global, width: Text, ts: &[u8]) -> Result<(RawLiteral, &[u8]), Halt>
    ensures { Gives (λ x. (x.0, x.1.now)) result (leaves.digits_behind width ts.now) }
{
    let run = hex_len(ts);
    match enough(width.bytes(), run) {
        Some(count) => {
            let (found, rest) = ts.split_at(count);
            let digits = copied(alloc, found)?;
            Ok((RawLiteral { width, digits }, rest))
        }
        None => Err(Halt::Unexpected(ts.len() - run)),
    }
}

/// A literal.
#[tactic(auto, unfolding(scc_svread_grammar::specs::Leaves::literal))]
pub fn literal(alloc: Global, ts: &[u8]) -> Result<(RawLiteral, &[u8]), Halt>
    ensures { Gives (λ x. (x.0, x.1.now)) result (leaves.literal ts.now) }
{
    let (width, rest) = decimal(alloc, ts)?;
    let (_, rest) = text(b"'h", rest)?;
    digits_behind(alloc, width, rest)
}

// How many bytes from here on begin a reserved word.
#[tactic(auto, using(scc_svread_grammar::proofs::Escapes::escape_goes_on, scc_svread_grammar::proofs::Escapes::escape_stops, scc_svread_grammar::proofs::Escapes::escape_ends))]
fn keyword_len(ts: &[u8]) -> usize
    ensures bound { result ≤ length ts.now }
    ensures word { leaves.keyword_word [] ts.now ≡ take result ts.now }
    ensures rest { leaves.keyword_rest [] ts.now ≡ drop result ts.now }
{
    let mut n = 0;
    while n < ts.len() {
        if !begins_reserved_word(&ts[..n + 1]) {
            return n;
        }
        n += 1;
    }
    n
}

#[tactic(auto, unfolding(scc_svread_grammar::specs::Leaves::closed_word))]
fn closed_word<'a>(alloc: Global, w: &[u8], ts: &'a [u8]) -> Result<(Text, &'a [u8]), Halt>
    ensures { Gives (λ x. (x.0, x.1.now)) result (leaves.closed_word w.now ts.now) }
{
    if !is_reserved_word(w) {
        return Err(Halt::Unexpected(ts.len()));
    }
    let (_, rest) = text(b" ", ts)?;
    Ok((copied(alloc, w)?, rest))
}

// A reserved word and a blank.
#[tactic(auto, unfolding(scc_svread_grammar::specs::Leaves::escaped))]
fn escaped(alloc: Global, ts: &[u8]) -> Result<(Text, &[u8]), Halt>
    ensures { Gives (λ x. (x.0, x.1.now)) result (leaves.escaped ts.now) }
{
    let (w, rest) = ts.split_at(keyword_len(ts));
    closed_word(alloc, w, rest)
}

/// The first letter of a word and the others.
#[tactic(auto, unfolding(scc_svread_grammar::specs::Leaves::plain_word))]
pub fn plain_word(alloc: Global, ts: &[u8]) -> Result<(Text, &[u8]), Halt>
    ensures { Gives (λ x. (x.0, x.1.now)) result (leaves.plain_word ts.now) }
{
    match ts {
        [b, rest @ ..] if is_letter(*b) => {
            let (more, rest) = word_bytes(rest);
            Ok((joined(alloc, *b, more)?, rest))
        }
        _ => Err(Halt::Unexpected(ts.len())),
    }
}

/// A word that is to be no reserved one.
#[tactic(auto, unfolding(scc_svread_grammar::specs::Leaves::named))]
pub fn named(w: Text, ts: &[u8]) -> Result<(Text, &[u8]), Halt>
    ensures { Gives (λ x. (x.0, x.1.now)) result (leaves.named w ts.now) }
{
    if is_reserved_word(w.bytes()) {
        return Err(Halt::Unexpected(ts.len()));
    }
    Ok((w, ts))
}

#[tactic(auto, unfolding(scc_svread_grammar::specs::Leaves::plain_name))]
fn plain_name(alloc: Global, ts: &[u8]) -> Result<(Text, &[u8]), Halt>
    ensures { Gives (λ x. (x.0, x.1.now)) result (leaves.plain_name ts.now) }
{
    let (w, rest) = plain_word(alloc, ts)?;
    named(w, rest)
}

/// A name.
#[tactic(auto, unfolding(scc_svread_grammar::specs::Leaves::name))]
pub fn name(alloc: Global, ts: &[u8]) -> Result<(Text, &[u8]), Halt>
    ensures { Gives (λ x. (x.0, x.1.now)) result (leaves.name ts.now) }
{
    if is_next(92, ts) {
        let (_, rest) = text(b"\\", ts)?;
        return escaped(alloc, rest);
    }
    plain_name(alloc, ts)
}

#[tactic(auto, unfolding(scc_svread_grammar::specs::Leaves::select_behind))]
fn select_behind(alloc: Global, h: Text, ts: &[u8]) -> Result<(RawSelect, &[u8]), Halt>
    ensures { Gives (λ x. (x.0, x.1.now)) result (leaves.select_behind h ts.now) }
{
    if is_next(58, ts) {
        let (_, rest) = text(b":", ts)?;
        let (l, rest) = decimal(alloc, rest)?;
        let (_, rest) = text(b"]", rest)?;
        return Ok((RawSelect::Range { h, l }, rest));
    }
    let (_, rest) = text(b"]", ts)?;
    Ok((RawSelect::Bit(h), rest))
}

#[tactic(auto, unfolding(scc_svread_grammar::specs::Leaves::select))]
fn select(alloc: Global, ts: &[u8]) -> Result<(RawSelect, &[u8]), Halt>
    ensures { Gives (λ x. (x.0, x.1.now)) result (leaves.select ts.now) }
{
    if is_next(91, ts) {
        let (_, rest) = text(b"[", ts)?;
        let (h, rest) = decimal(alloc, rest)?;
        return select_behind(alloc, h, rest);
    }
    Ok((RawSelect::Whole, ts))
}

/// A variable or a part of it, from behind its name.
#[tactic(auto, unfolding(scc_svread_grammar::specs::Leaves::left_behind))]
pub fn left_behind(alloc: Global, name: Text, ts: &[u8]) -> Result<(RawLeft, &[u8]), Halt>
    ensures { Gives (λ x. (x.0, x.1.now)) result (leaves.left_behind name ts.now) }
{
    let (select, rest) = select(alloc, ts)?;
    Ok((RawLeft { name, select }, rest))
}

/// A variable or a part of it.
#[tactic(auto, unfolding(scc_svread_grammar::specs::Leaves::left))]
pub fn left(alloc: Global, ts: &[u8]) -> Result<(RawLeft, &[u8]), Halt>
    ensures { Gives (λ x. (x.0, x.1.now)) result (leaves.left ts.now) }
{
    let (w, rest) = name(alloc, ts)?;
    left_behind(alloc, w, rest)
}

/// The range of a declaration.
#[tactic(auto, unfolding(scc_svread_grammar::specs::Leaves::range))]
pub fn range(alloc: Global, ts: &[u8]) -> Result<(Option<Text>, &[u8]), Halt>
    ensures { Gives (λ x. (x.0, x.1.now)) result (leaves.range ts.now) }
{
    if is_next(91, ts) {
        let (_, rest) = text(b"[", ts)?;
        let (high, rest) = positive(alloc, rest)?;
        let (_, rest) = text(b":0] ", rest)?;
        return Ok((Some(high), rest));
    }
    Ok((None, ts))
}
