//! The tokens of a thin text.
ghost use Rattle.std.specs.Prelude.{◌≡◌, option_map};
ghost use Rattle.scc_thin.specs.Gives.{Gives, each};
ghost use Rattle.scc_thin.specs.Tokens.{name_of, token_of, tokens_of};

use crate::halt::Halt;
use scc_base::{List, Name, Names, NoMemory, Text};
use scc_bits::{Kind, Word};
use scc_tokens::TokenKind;
use std::alloc::Global;

/// A token.
#[derive(Drop)]
pub enum Token {
    /// A word of the source language, by its number.
    Word(u8),
    /// A mark, by its number.
    Mark(u8),
    /// An identifier.
    Name(Text),
    /// An integer literal, with the kind that it has and the number of its bytes.
    Number { kind: Kind, word: Word, len: u32 },
}

fn name(alloc: Global, names: &Names, n: Name) -> Result<Token, Halt>
    ensures { Gives (λ t. t) result (name_of names.now n) }
{
    if !names.has(n) {
        return Err(Halt::Other);
    }
    let mut text = Text::new(alloc);
    text.push_bytes(names.text(n).as_bytes())?;
    Ok(Token::Name(text))
}

fn thin_token(alloc: Global, names: &Names, token: &scc_tokens::Token) -> Result<Token, Halt>
    ensures { Gives (λ t. t) result (token_of names.now token.now) }
{
    match token.kind {
        TokenKind::Word(i) => Ok(Token::Word(i)),
        TokenKind::Mark(i) => Ok(Token::Mark(i)),
        TokenKind::Ident(n) => name(alloc, names, n),
        TokenKind::Number(kind, word) => Ok(Token::Number {
            kind,
            word,
            len: token.len,
        }),
        _ => Err(Halt::Other),
    }
}

/// The thin tokens that joined tokens are.
pub fn tokens(
    alloc: Global,
    names: &Names,
    tokens: &[scc_tokens::Token],
) -> Result<List<Token>, Halt>
    ensures { Gives (λ ts. ts) result (tokens_of names.now tokens.now) }
{
    let mut list = List::new(alloc);
    for t in tokens {
        list.push(thin_token(alloc, names, t)?)?;
    }
    Ok(list)
}
