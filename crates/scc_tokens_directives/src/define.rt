//! Definitions of macros, and `#pragma once` (C++, "Macro replacement").
ghost use Rattle.std.specs.Prelude.{◌≡◌, IfOk};
ghost use Rattle.scc_tokens_directives.specs.Steps.{Does};
ghost use Rattle.scc_tokens_directives.specs.Define.{defined, undefined, with_once, adjoins};

use crate::directive::{Words, first_refusal, is_named};
use crate::halt::Halt;
use crate::macros::Macros;
use crate::numbers::PAREN_OPEN;
use scc_base::{Code, List, NoMemory};
use scc_tokens_lexer::{Token, TokenKind, Tokens};
use std::alloc::Global;

fn bad_directive(hash: Token) -> Halt
    ensures { result ≡ Halt.Refused Code.Directive hash.place }
{
    Halt::Refused {
        code: Code::Directive, // E105
        place: hash.place,
    }
}

fn copied(alloc: Global, tokens: &[Token]) -> Result<Tokens, NoMemory>
    ensures { IfOk result (λ l. l ≡ tokens.now) }
{
    let mut copy = List::new(alloc);
    for t in tokens {
        copy.push(*t)?;
    }
    Ok(copy)
}

// Whether a `(` stands right after a name.
fn adjoins(name: Token, body: &[Token]) -> bool
    ensures { result ≡ adjoins name body.now }
{
    let [first, ..] = body else {
        return false;
    };
    matches!(first.kind, TokenKind::Mark(PAREN_OPEN))
        && u64::from(first.place.at) == u64::from(name.place.at) + u64::from(name.len)
}

/// `#define`: a name, and the tokens that stand for it from here on.
///
/// Errors: E105 for a line of another form and for a macro with arguments, E103 and E104 for a token of the line.
pub fn define(alloc: Global, macros: &mut Macros, hash: Token, rest: &[Token]) -> Result<(), Halt>
    ensures { Does macros.new result (defined hash rest.now macros.old) }
{
    let [name, body @ ..] = rest else {
        return Err(bad_directive(hash));
    };
    let (TokenKind::Ident(n) | TokenKind::Outside(n)) = name.kind else {
        return Err(bad_directive(hash));
    };
    if adjoins(*name, body) {
        return Err(bad_directive(hash));
    }
    if let Some((code, place)) = first_refusal(rest) {
        return Err(Halt::Refused { code, place });
    }
    let copy = copied(alloc, body)?;
    macros.set(n, Some(copy))?;
    Ok(())
}

/// `#undef`: a name that stands for nothing from here on.
///
/// Errors: E105 for a line of another form, E104 for a word that the subset leaves out.
pub fn undefine(macros: &mut Macros, hash: Token, rest: &[Token]) -> Result<(), Halt>
    ensures { Does macros.new result (undefined hash rest.now macros.old) }
{
    let [name] = rest else {
        return Err(bad_directive(hash));
    };
    if !is_named(name.kind) {
        return Err(bad_directive(hash));
    }
    if let Some((code, place)) = first_refusal(rest) {
        return Err(Halt::Refused { code, place });
    }
    if let TokenKind::Ident(n) = name.kind {
        macros.set(n, None)?;
    }
    Ok(())
}

/// `#pragma once`: the file is not included again. E105 for a line of another form.
pub fn include_once(
    words: &Words,
    once: &mut List<u32>,
    file: u32,
    hash: Token,
    rest: &[Token],
) -> Result<(), Halt>
    ensures { Does once.new result (with_once words.now file hash rest.now once.old) }
{
    let [name] = rest else {
        return Err(bad_directive(hash));
    };
    match name.kind {
        TokenKind::Ident(n) if n.0 == words.once.0 => {
            once.push(file)?;
            Ok(())
        }
        _ => Err(bad_directive(hash)),
    }
}
