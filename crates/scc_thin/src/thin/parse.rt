//! Reads the tree of a thin text.
ghost use Rattle.std.specs.Prelude.{◌≡◌, length, codes, Some, None, option_map, option_copied};
ghost use Rattle.scc_thin.specs.Gives.{Gives};
ghost use Rattle.scc_thin.specs.Reading.{after_mark, after_word, after_name, name_at, is_decimal, width_of, width_at, closed_at, items, put_front, name_step, sense_step, names_at, direction_at, kind_at, group_at, group_step, read_at, op_of, op_at, second_at, target_at, write_at, write_step, named_at, all_items, head_at, body_at, senses_at, constructor_at, end_at, tree_at};

use crate::design::Bitwise;
use crate::halt::Halt;
use crate::thin::numbers;
use crate::thin::token::Token;
use crate::thin::tree::{Body, Constructor, Group, Head, Read, Tree, Write};
use scc_base::{List, Text};
use scc_bits::{Kind, Word};
use std::alloc::Global;

// The tokens after this mark.
fn mark(tokens: &[Token], m: u8) -> Option<&[Token]>
    ensures { option_copied result ≡ after_mark m tokens.now }
{
    match tokens {
        [Token::Mark(b), rest @ ..] if *b == m => Some(rest),
        _ => None,
    }
}

fn word(tokens: &[Token], w: u8) -> Option<&[Token]>
    ensures { option_copied result ≡ after_word w tokens.now }
{
    match tokens {
        [Token::Word(t), rest @ ..] if *t == w => Some(rest),
        _ => None,
    }
}

// The tokens after a name of these bytes.
fn member<'a>(tokens: &'a [Token], text: &[u8]) -> Option<&'a [Token]>
    ensures { option_copied result ≡ after_name text.now tokens.now }
{
    match tokens {
        [Token::Name(t), rest @ ..] if t.bytes() == text => Some(rest),
        _ => None,
    }
}

fn expect_mark(tokens: &[Token], m: u8) -> Result<&[Token], Halt>
    ensures { Gives (λ r. r.now) result (after_mark m tokens.now) }
{
    mark(tokens, m).ok_or(Halt::Other)
}

fn expect_word(tokens: &[Token], w: u8) -> Result<&[Token], Halt>
    ensures { Gives (λ r. r.now) result (after_word w tokens.now) }
{
    word(tokens, w).ok_or(Halt::Other)
}

fn expect_member<'a>(tokens: &'a [Token], text: &[u8]) -> Result<&'a [Token], Halt>
    ensures { Gives (λ r. r.now) result (after_name text.now tokens.now) }
{
    member(tokens, text).ok_or(Halt::Other)
}

fn name(alloc: Global, tokens: &[Token]) -> Result<(Text, &[Token]), Halt>
    ensures { Gives (λ x. (x.0, x.1.now)) result (name_at tokens.now) }
{
    match tokens {
        [Token::Name(t), rest @ ..] => {
            let mut copy = Text::new(alloc);
            copy.push_bytes(t.bytes())?;
            Ok((copy, rest))
        }
        _ => Err(Halt::Other),
    }
}

// Whether a literal of so many bytes that stands for n, 1 to 64, is written in decimal, without a suffix.
fn is_decimal(n: u128, len: u32) -> bool
    ensures { result ≡ is_decimal n len }
{
    if n < 10 { len == 1 } else { len == 2 }
}

fn number(kind: Kind, word: Word, len: u32) -> Option<u32>
    ensures { result ≡ width_of kind word len }
{
    match kind {
        Kind::Native { bits, signed } => {
            let n = word.bits;
            if bits == 32 && signed && 1 <= n && n <= 64 && is_decimal(n, len) {
                Some(n as u32)
            } else {
                None
            }
        }
        _ => None,
    }
}

fn width(tokens: &[Token]) -> Result<(u32, &[Token]), Halt>
    ensures { Gives (λ x. (x.0, x.1.now)) result (width_at tokens.now) }
{
    match tokens {
        [Token::Number { kind, word, len }, rest @ ..] => match number(*kind, *word, *len) {
            Some(n) => Ok((n, rest)),
            None => Err(Halt::Other),
        },
        _ => Err(Halt::Other),
    }
}

#[tactic(auto, unfolding(crate::specs::Reading::name_step))]
fn next_name(alloc: Global, tokens: &[Token]) -> Result<(Option<Text>, &[Token]), Halt>
    ensures { Gives (λ x. (x.0, x.1.now)) result (name_step tokens.now) }
{
    if let Some(rest) = mark(tokens, numbers::SEMICOLON) {
        return Ok((None, rest));
    }
    let (found, rest) = name(alloc, expect_mark(tokens, numbers::COMMA)?)?;
    Ok((Some(found), rest))
}

#[tactic(auto, unfolding(crate::specs::Reading::sense_step))]
fn next_sense(alloc: Global, tokens: &[Token]) -> Result<(Option<Text>, &[Token]), Halt>
    ensures { Gives (λ x. (x.0, x.1.now)) result (sense_step tokens.now) }
{
    if let Some(rest) = mark(tokens, numbers::SEMICOLON) {
        return Ok((None, rest));
    }
    let (found, rest) = name(alloc, expect_mark(tokens, numbers::SHIFT_LEFT)?)?;
    Ok((Some(found), rest))
}

#[tactic(auto, unfolding(crate::specs::Reading::direction_at))]
fn direction(tokens: &[Token]) -> Result<(bool, &[Token]), Halt>
    ensures { Gives (λ x. (x.0, x.1.now)) result (direction_at tokens.now) }
{
    if let Some(rest) = word(tokens, numbers::SC_IN) {
        return Ok((false, rest));
    }
    Ok((true, expect_word(tokens, numbers::SC_OUT)?))
}

// The tokens after the ends of two lists of arguments.
#[tactic(auto, unfolding(crate::specs::Reading::closed_at))]
fn closed(tokens: &[Token]) -> Result<&[Token], Halt>
    ensures { Gives (λ r. r.now) result (closed_at tokens.now) }
{
    if let Some(rest) = mark(tokens, numbers::SHIFT_RIGHT) {
        return Ok(rest);
    }
    let rest = expect_mark(tokens, numbers::GREATER)?;
    expect_mark(rest, numbers::GREATER)
}

#[tactic(auto, unfolding(crate::specs::Reading::kind_at))]
fn kind(tokens: &[Token]) -> Result<(u32, &[Token]), Halt>
    ensures { Gives (λ x. (x.0, x.1.now)) result (kind_at tokens.now) }
{
    let rest = expect_mark(tokens, numbers::LESS)?;
    let rest = expect_word(rest, numbers::SC_UINT)?;
    let rest = expect_mark(rest, numbers::LESS)?;
    let (bits, rest) = width(rest)?;
    let rest = closed(rest)?;
    Ok((bits, rest))
}

fn more_names(
    alloc: Global,
    mut list: List<Text>,
    tokens: &[Token],
) -> Result<(List<Text>, &[Token]), Halt>
    ensures { Gives (λ x. (x.0, x.1.now)) result (put_front list (items name_step (length tokens.now) tokens.now)) }
{
    let mut rest = tokens;
    for _ in 0..tokens.len() {
        let (found, after) = next_name(alloc, rest)?;
        match found {
            Some(x) => list.push(x)?,
            None => return Ok((list, after)),
        }
        rest = after;
    }
    Err(Halt::Other)
}

fn more_senses(
    alloc: Global,
    mut list: List<Text>,
    tokens: &[Token],
) -> Result<(List<Text>, &[Token]), Halt>
    ensures { Gives (λ x. (x.0, x.1.now)) result (put_front list (items sense_step (length tokens.now) tokens.now)) }
{
    let mut rest = tokens;
    for _ in 0..tokens.len() {
        let (found, after) = next_sense(alloc, rest)?;
        match found {
            Some(x) => list.push(x)?,
            None => return Ok((list, after)),
        }
        rest = after;
    }
    Err(Halt::Other)
}

#[tactic(auto, using(crate::proofs::Items::put_front_one))]
fn names(alloc: Global, tokens: &[Token]) -> Result<(List<Text>, &[Token]), Halt>
    ensures { Gives (λ x. (x.0, x.1.now)) result (names_at name_step tokens.now) }
{
    let (first, rest) = name(alloc, tokens)?;
    let mut list = List::new(alloc);
    list.push(first)?;
    more_names(alloc, list, rest)
}

#[tactic(auto, unfolding(crate::specs::Reading::group_at))]
fn group(alloc: Global, tokens: &[Token]) -> Result<(Group, &[Token]), Halt>
    ensures { Gives (λ x. (x.0, x.1.now)) result (group_at tokens.now) }
{
    let (output, rest) = direction(tokens)?;
    let (width, rest) = kind(rest)?;
    let (names, rest) = names(alloc, rest)?;
    Ok((
        Group {
            output,
            width,
            names,
        },
        rest,
    ))
}

#[tactic(auto, unfolding(crate::specs::Reading::group_step))]
fn next_group(alloc: Global, tokens: &[Token]) -> Result<(Option<Group>, &[Token]), Halt>
    ensures { Gives (λ x. (x.0, x.1.now)) result (group_step tokens.now) }
{
    if let Some(rest) = word(tokens, numbers::VOID) {
        return Ok((None, rest));
    }
    let (found, rest) = group(alloc, tokens)?;
    Ok((Some(found), rest))
}

fn more_groups(
    alloc: Global,
    mut list: List<Group>,
    tokens: &[Token],
) -> Result<(List<Group>, &[Token]), Halt>
    ensures { Gives (λ x. (x.0, x.1.now)) result (put_front list (items group_step (length tokens.now) tokens.now)) }
{
    let mut rest = tokens;
    for _ in 0..tokens.len() {
        let (found, after) = next_group(alloc, rest)?;
        match found {
            Some(x) => list.push(x)?,
            None => return Ok((list, after)),
        }
        rest = after;
    }
    Err(Halt::Other)
}

#[tactic(auto, unfolding(crate::specs::Reading::read_at))]
fn read(alloc: Global, tokens: &[Token]) -> Result<(Text, &[Token]), Halt>
    ensures { Gives (λ x. (x.0, x.1.now)) result (read_at tokens.now) }
{
    let (port, rest) = name(alloc, tokens)?;
    let rest = expect_mark(rest, numbers::DOT)?;
    let rest = expect_member(rest, b"read")?;
    let rest = expect_mark(rest, numbers::PAREN_OPEN)?;
    let rest = expect_mark(rest, numbers::PAREN_CLOSE)?;
    Ok((port, rest))
}

fn op(m: u8) -> Option<Bitwise>
    ensures { result ≡ op_of m }
{
    match m {
        numbers::AND => Some(Bitwise::And),
        numbers::OR => Some(Bitwise::Or),
        numbers::XOR => Some(Bitwise::Xor),
        _ => None,
    }
}

fn operator(tokens: &[Token]) -> Option<(Bitwise, &[Token])>
    ensures { option_map (λ x. (x.0, x.1.now)) result ≡ op_at tokens.now }
{
    match tokens {
        [Token::Mark(m), rest @ ..] => match op(*m) {
            Some(o) => Some((o, rest)),
            None => None,
        },
        _ => None,
    }
}

#[tactic(auto, unfolding(crate::specs::Reading::second_at))]
fn second(alloc: Global, tokens: &[Token]) -> Result<(Option<Read>, &[Token]), Halt>
    ensures { Gives (λ x. (x.0, x.1.now)) result (second_at tokens.now) }
{
    let Some((op, rest)) = operator(tokens) else {
        return Ok((None, tokens));
    };
    let (port, rest) = read(alloc, rest)?;
    Ok((Some(Read { op, port }), rest))
}

#[tactic(auto, unfolding(crate::specs::Reading::target_at))]
fn target(alloc: Global, tokens: &[Token]) -> Result<(Text, &[Token]), Halt>
    ensures { Gives (λ x. (x.0, x.1.now)) result (target_at tokens.now) }
{
    let (port, rest) = name(alloc, tokens)?;
    let rest = expect_mark(rest, numbers::DOT)?;
    let rest = expect_member(rest, b"write")?;
    let rest = expect_mark(rest, numbers::PAREN_OPEN)?;
    Ok((port, rest))
}

#[tactic(auto, unfolding(crate::specs::Reading::write_at))]
fn write(alloc: Global, tokens: &[Token]) -> Result<(Write, &[Token]), Halt>
    ensures { Gives (λ x. (x.0, x.1.now)) result (write_at tokens.now) }
{
    let (target, rest) = target(alloc, tokens)?;
    let (first, rest) = read(alloc, rest)?;
    let (second, rest) = second(alloc, rest)?;
    let rest = expect_mark(rest, numbers::PAREN_CLOSE)?;
    let rest = expect_mark(rest, numbers::SEMICOLON)?;
    Ok((
        Write {
            target,
            first,
            second,
        },
        rest,
    ))
}

#[tactic(auto, unfolding(crate::specs::Reading::write_step))]
fn next_write(alloc: Global, tokens: &[Token]) -> Result<(Option<Write>, &[Token]), Halt>
    ensures { Gives (λ x. (x.0, x.1.now)) result (write_step tokens.now) }
{
    if let Some(rest) = mark(tokens, numbers::BRACE_CLOSE) {
        return Ok((None, rest));
    }
    let (found, rest) = write(alloc, tokens)?;
    Ok((Some(found), rest))
}

fn more_writes(
    alloc: Global,
    mut list: List<Write>,
    tokens: &[Token],
) -> Result<(List<Write>, &[Token]), Halt>
    ensures { Gives (λ x. (x.0, x.1.now)) result (put_front list (items write_step (length tokens.now) tokens.now)) }
{
    let mut rest = tokens;
    for _ in 0..tokens.len() {
        let (found, after) = next_write(alloc, rest)?;
        match found {
            Some(x) => list.push(x)?,
            None => return Ok((list, after)),
        }
        rest = after;
    }
    Err(Halt::Other)
}

#[tactic(auto, unfolding(crate::specs::Reading::named_at))]
fn named_by(alloc: Global, tokens: &[Token], w: u8) -> Result<(Text, &[Token]), Halt>
    ensures { Gives (λ x. (x.0, x.1.now)) result (named_at w tokens.now) }
{
    let rest = expect_word(tokens, w)?;
    let rest = expect_mark(rest, numbers::PAREN_OPEN)?;
    let (found, rest) = name(alloc, rest)?;
    let rest = expect_mark(rest, numbers::PAREN_CLOSE)?;
    Ok((found, rest))
}

#[tactic(auto, using(crate::proofs::Items::put_front_nil), unfolding(crate::specs::Reading::head_at))]
fn head(alloc: Global, tokens: &[Token]) -> Result<(Head, &[Token]), Halt>
    ensures { Gives (λ x. (x.0, x.1.now)) result (head_at tokens.now) }
{
    let (top, rest) = named_by(alloc, tokens, numbers::SC_MODULE)?;
    let rest = expect_mark(rest, numbers::BRACE_OPEN)?;
    let (groups, rest) = more_groups(alloc, List::new(alloc), rest)?;
    Ok((Head { top, groups }, rest))
}

#[tactic(auto, using(crate::proofs::Items::put_front_nil), unfolding(crate::specs::Reading::body_at))]
fn body(alloc: Global, tokens: &[Token]) -> Result<(Body, &[Token]), Halt>
    ensures { Gives (λ x. (x.0, x.1.now)) result (body_at tokens.now) }
{
    let (function, rest) = name(alloc, tokens)?;
    let rest = expect_mark(rest, numbers::PAREN_OPEN)?;
    let rest = expect_mark(rest, numbers::PAREN_CLOSE)?;
    let rest = expect_mark(rest, numbers::BRACE_OPEN)?;
    let (writes, rest) = more_writes(alloc, List::new(alloc), rest)?;
    Ok((Body { function, writes }, rest))
}

#[tactic(auto, using(crate::proofs::Items::put_front_one), unfolding(crate::specs::Reading::senses_at))]
fn senses(alloc: Global, tokens: &[Token]) -> Result<(List<Text>, &[Token]), Halt>
    ensures { Gives (λ x. (x.0, x.1.now)) result (senses_at tokens.now) }
{
    let rest = expect_word(tokens, numbers::SENSITIVE)?;
    let rest = expect_mark(rest, numbers::SHIFT_LEFT)?;
    let (first, rest) = name(alloc, rest)?;
    let mut list = List::new(alloc);
    list.push(first)?;
    more_senses(alloc, list, rest)
}

#[tactic(auto, unfolding(crate::specs::Reading::constructor_at))]
fn constructor(alloc: Global, tokens: &[Token]) -> Result<(Constructor, &[Token]), Halt>
    ensures { Gives (λ x. (x.0, x.1.now)) result (constructor_at tokens.now) }
{
    let (class, rest) = named_by(alloc, tokens, numbers::SC_CTOR)?;
    let rest = expect_mark(rest, numbers::BRACE_OPEN)?;
    let (method, rest) = named_by(alloc, rest, numbers::SC_METHOD)?;
    let rest = expect_mark(rest, numbers::SEMICOLON)?;
    let (senses, rest) = senses(alloc, rest)?;
    let rest = expect_mark(rest, numbers::BRACE_CLOSE)?;
    Ok((
        Constructor {
            class,
            method,
            senses,
        },
        rest,
    ))
}

fn end(tokens: &[Token]) -> Result<(), Halt>
    ensures { Gives (λ x. x) result (end_at tokens.now) }
{
    if tokens.is_empty() {
        Ok(())
    } else {
        Err(Halt::Other)
    }
}

/// The tree of the tokens.
#[tactic(auto, unfolding(crate::specs::Reading::tree_at))]
pub fn tree(alloc: Global, tokens: &[Token]) -> Result<Tree, Halt>
    ensures { Gives (λ x. x) result (tree_at tokens.now) }
{
    let (head, rest) = head(alloc, tokens)?;
    let (body, rest) = body(alloc, rest)?;
    let (constructor, rest) = constructor(alloc, rest)?;
    let rest = expect_mark(rest, numbers::BRACE_CLOSE)?;
    let rest = expect_mark(rest, numbers::SEMICOLON)?;
    end(rest)?;
    Ok(Tree {
        head,
        body,
        constructor,
    })
}
