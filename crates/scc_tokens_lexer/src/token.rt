//! Tokens.
ghost use Rattle.std.specs.Prelude.{◌≡◌, ◌+◌, ◌<◌, ◌≤◌, ◌^◌, length, IfOk, OnOk, Some, slice_get};
ghost use Rattle.std.specs.Str.{IsAscii};
ghost use Rattle.scc_base.specs.Names.{Keeps, AllDiffer, with_name};
ghost use Rattle.scc_tokens_lexer.specs.Named.{IsNamed};
ghost use Rattle.scc_tokens_lexer.specs.Numbering.{with_form};
ghost use Rattle.scc_tokens_lexer.specs.Spelled.{spelled, spelled_as};

use crate::piece::Form;
use scc_base::{List, Name, Names, NoMemory, Place};
use scc_bits::{Kind, Word};
use std::str;

/// A token of a file, or a token that stands for one in the expansion of a macro.
#[derive(Clone, Copy, PartialEq, Eq)]
pub struct Token {
    pub kind: TokenKind,
    /// Its first byte; in an expansion that of the macro's outermost use.
    pub place: Place,
    /// How many bytes it has in the file in which it is written.
    pub len: u32,
}

/// What a token is (C++, "Tokens").
#[derive(Clone, Copy, PartialEq, Eq)]
pub enum TokenKind {
    /// A keyword, a word that the subset keeps for itself, by the number of its `Keyword`.
    Word(u8),
    /// A punctuator, by the number of its `Punct`.
    Mark(u8),
    /// An identifier that is none of the words.
    Ident(Name),
    /// An integer literal, with the first kind that holds it.
    Number(Kind, Word),
    /// A run of letters, digits and points that begins with a digit and is no literal, or is too large.
    BadNumber,
    /// A text in double quotes.
    Text,
    /// A character literal.
    Character,
    /// A word of C++ or SystemC that the subset leaves out.
    Outside(Name),
    /// A `#` that begins a directive.
    LineHash,
    /// The end of a directive.
    LineEnd,
}

/// The tokens of a text.
pub type Tokens = List<Token>;

// The name that a text has, whose bytes are ASCII.
fn name_of(text: &[u8], names: &mut Names) -> Result<Name, NoMemory>
    requires ascii { IsAscii text.now }
    requires room { length names.old < 2 ^ 32 }
    ensures text { IfOk result (λ n. slice_get names.new n.0 ≡ Some text.now) }
    ensures names { OnOk result (names.new ≡ with_name names.old text.now) }
    ensures keeps { Keeps names.old names.new }
    ensures few { length names.new ≤ length names.old + 1 }
{
    match str::from_utf8(text) {
        Ok(text) => names.intern(text),
        Err(_) => unreachable!(),
    }
}

/// The token that these bytes are.
pub fn token_of(form: Form, text: &[u8], place: Place, names: &mut Names) -> Result<Token, NoMemory>
    requires named { IsNamed form text.now }
    requires room { length names.old < 2 ^ 32 }
    requires bytes { length text.now < 2 ^ 32 }
    ensures spelled { IfOk result (λ t. spelled names.new t ≡ Some (spelled_as form text.now place)) }
    ensures names { OnOk result (names.new ≡ with_form names.old form text.now) }
    ensures keeps { Keeps names.old names.new }
    ensures few { length names.new ≤ length names.old + 1 }
{
    let kind = match form {
        Form::Ident => TokenKind::Ident(name_of(text, names)?),
        Form::Outside => TokenKind::Outside(name_of(text, names)?),
        Form::Word(i) => TokenKind::Word(i),
        Form::Mark(i) => TokenKind::Mark(i),
        Form::Number(kind, word) => TokenKind::Number(kind, word),
        Form::BadNumber => TokenKind::BadNumber,
        Form::Text => TokenKind::Text,
        Form::Character => TokenKind::Character,
        Form::LineHash => TokenKind::LineHash,
        Form::LineEnd => TokenKind::LineEnd,
    };
    Ok(Token {
        kind,
        place,
        len: text.len() as u32,
    })
}
