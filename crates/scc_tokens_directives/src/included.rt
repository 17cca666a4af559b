//! What an `#include` names (C++, "Source file inclusion").
ghost use Rattle.std.specs.Prelude.{◌≡◌, ◌++◌, ◌+◌, ◌<◌, ◌^◌, ◌≤◌, ◌-◌, ◌==◌, not, length, IfOk, option_map};
ghost use Rattle.std.specs.List.{suffix_len};
ghost use Rattle.scc_tokens_directives.specs.Included.{is_mark, is_ident, is_text, operand_of, quoted, folder_of, is_own, included_name};

use crate::directive::Words;
use crate::numbers::{DOT, GREATER, LESS};
use scc_base::{Name, NoMemory, Text};
use scc_tokens_lexer::{Token, TokenKind};
use std::alloc::Global;

/// What stands after `#include`.
#[derive(Clone, Copy)]
pub enum Operand {
    /// A header of SystemC's own.
    Own,
    /// A text in quotes.
    Quoted(Token),
    /// Something else.
    Other,
}

fn is_mark(t: Token, mark: u8) -> bool
    ensures { result ≡ is_mark t mark }
{
    match t.kind {
        TokenKind::Mark(i) => i == mark,
        _ => false,
    }
}

fn is_ident(t: Token, name: Name) -> bool
    ensures { result ≡ is_ident t name.0 }
{
    match t.kind {
        TokenKind::Ident(n) => n.0 == name.0,
        _ => false,
    }
}

fn is_text(t: Token) -> bool
    ensures { result ≡ is_text t }
{
    matches!(t.kind, TokenKind::Text)
}

/// What stands after `#include`: `"name"`, `<systemc>`, `<systemc.h>`, or something else.
pub fn operand_of(words: &Words, rest: &[Token]) -> Operand
    ensures { result ≡ operand_of words.now rest.now }
{
    match rest {
        [t] if is_text(*t) => Operand::Quoted(*t),
        [a, b, c] if is_mark(*a, LESS) && is_ident(*b, words.systemc) && is_mark(*c, GREATER) => {
            Operand::Own
        }
        [a, b, c, d, e]
            if is_mark(*a, LESS)
                && is_ident(*b, words.systemc)
                && is_mark(*c, DOT)
                && is_ident(*d, words.h)
                && is_mark(*e, GREATER) => { Operand::Own }
        _ => Operand::Other,
    }
}

/// The bytes between the quotes of a text of this file.
pub fn quoted(bytes: &[u8], t: Token) -> Option<&[u8]>
    ensures { option_map (λ x. x.now) result ≡ quoted bytes.now t }
{
    let from = t.place.at as usize + 1;
    let to = t.place.at as usize + t.len as usize;
    if t.len < 2 || to > bytes.len() {
        return None;
    }
    Some(&bytes[from..to - 1])
}

// The folder part of a name: all up to and with its last `/`.
fn folder_len(name: &[u8]) -> usize
    ensures value { result ≡ length name.now - suffix_len (λ b. not (b == 47)) name.now }
    ensures within { result ≤ length name.now }
{
    let file = file_len(name);
    name.len() - file
}

fn file_len(name: &[u8]) -> usize
    ensures value { result ≡ suffix_len (λ b. not (b == 47)) name.now }
    ensures within { result ≤ length name.now }
{
    name.iter().rev().take_while(|b| **b != b'/').count()
}

/// Whether a text in quotes is a header of SystemC's own.
pub fn is_own(text: &[u8]) -> bool
    ensures { result ≡ is_own text.now }
{
    text == b"systemc.h".as_slice() || text == b"systemc".as_slice()
}

/// The name that a file asks for: the folder part of its own name, and the text.
pub fn included_name(alloc: Global, own: &[u8], text: &[u8]) -> Result<Text, NoMemory>
    ensures { IfOk result (λ n. n ≡ included_name own.now text.now) }
{
    let n = folder_len(own);
    let mut name = Text::new(alloc);
    name.push_bytes(&own[..n])?;
    name.push_bytes(text)?;
    Ok(name)
}
