//! Cuts a text into tokens.
ghost use Rattle.std.specs.Prelude.{◌≡◌, ◌+◌, ◌++◌, ◌<◌, ◌≤◌, ◌^◌, length, OnOk, IfOk, IfErr, Some, None};
ghost use Rattle.std.specs.Option.{ForSome};
ghost use Rattle.scc_base.specs.Names.{Keeps};
ghost use Rattle.scc_base.specs.declared.refusal.Stop.TheVariants.{Refused};
ghost use Rattle.scc_tokens_lexer.specs.Answers.{IsScanned, SpellsOne, IsStopFor};
ghost use Rattle.scc_tokens_lexer.specs.Lexes.{IsTokensOf, IsFaultOf};
ghost use Rattle.scc_tokens_lexer.specs.Named.{IsNamed};
ghost use Rattle.scc_tokens_lexer.specs.Numbering.{with_piece, names_after, NamesAre};
ghost use Rattle.scc_tokens_lexer.specs.Scan.{piece_tokens, end_tokens, scan};
ghost use Rattle.scc_tokens_lexer.specs.Spelled.{spelled_all};

use crate::piece::{Form, Line, Piece, piece_at};
use crate::token::{Token, TokenKind, Tokens, token_of};
use scc_base::{Code, List, Names, NoMemory, Place, Refusal, Stop};
use std::alloc::Global;

fn refused(code: Code, place: Place) -> Stop
    ensures { result ≡ Refused (record { code = code; place = place; other = None }) }
{
    Stop::Refused(Refusal {
        code,
        place,
        other: None,
    })
}

// Appends the token that a piece is, if it is one.
fn put_piece(
    tokens: &mut Tokens,
    form: Option<Form>,
    text: &[u8],
    place: Place,
    names: &mut Names,
) -> Result<(), NoMemory>
    requires named { ForSome form (λ f. IsNamed f text.now) }
    requires room { length names.old < 2 ^ 32 }
    requires bytes { length text.now < 2 ^ 32 }
    ensures names { OnOk result (names.new ≡ with_piece names.old form text.now) }
    ensures put { OnOk result ((done : _) → spelled_all names.old tokens.old ≡ Some done → spelled_all names.new tokens.new ≡ Some (done ++ piece_tokens form text.now place)) }
    ensures keeps { Keeps names.old names.new }
    ensures few { length names.new ≤ length names.old + 1 }
{
    if let Some(form) = form {
        let token = token_of(form, text, place, names)?;
        tokens.push(token)?;
    }
    Ok(())
}

// Ends a directive that the text leaves open.
fn put_end(tokens: &mut Tokens, line: Line, place: Place) -> Result<(), NoMemory>
    ensures put { OnOk result ((names : _) (done : _) → spelled_all names tokens.old ≡ Some done → spelled_all names tokens.new ≡ Some (done ++ end_tokens line place)) }
{
    match line {
        Line::Directive => {
            tokens.push(Token {
                kind: TokenKind::LineEnd,
                place,
                len: 0,
            })?;
            Ok(())
        }
        Line::Start | Line::Middle => Ok(()),
    }
}

/// The tokens of a text, which is file number `file`.
///
/// Errors: E101 for a byte that begins nothing or that stands in a text and cannot be printed, E102 for a comment
/// that is not closed, E103 for a text or character literal that is not closed on its line and for an identifier of
/// more than 255 bytes; the first of them in the text (C++, "Phases of translation"). `names` gains the names of
/// the tokens that were read, after an error too.
pub fn lex(alloc: Global, file: u32, text: &[u8], names: &mut Names) -> Result<Tokens, Stop>
    requires bytes { length text.now < 2 ^ 32 }
    requires room { length names.old + length text.now < 2 ^ 32 }
    ensures tokens { IfOk result (λ ts. SpellsOne names.new ts (IsTokensOf file text.now)) }
    ensures fault { IfErr result (IsStopFor (IsFaultOf file text.now)) }
    ensures names { NamesAre result names.new (names_after names.old text.now) }
    ensures keeps { Keeps names.old names.new }
    ensures few { length names.new ≤ length names.old + length text.now }
{
    scanned(alloc, file, text, names)
}

/// The tokens of a text, as they are found from its front on.
pub fn scanned(alloc: Global, file: u32, text: &[u8], names: &mut Names) -> Result<Tokens, Stop>
    requires bytes { length text.now < 2 ^ 32 }
    requires room { length names.old + length text.now < 2 ^ 32 }
    ensures value { IsScanned names.new result (scan file text.now) }
    ensures names { NamesAre result names.new (names_after names.old text.now) }
    ensures keeps { Keeps names.old names.new }
    ensures few { length names.new ≤ length names.old + length text.now }
{
    let mut tokens = List::new(alloc);
    let mut rest = text;
    let mut line = Line::Start;
    'pieces: while !rest.is_empty() {
        let place = Place {
            file,
            at: (text.len() - rest.len()) as u32,
        };
        match piece_at(line, rest) {
            Piece::Fault { code, at } => {
                return Err(refused(
                    code,
                    Place {
                        file,
                        at: place.at + at as u32,
                    },
                ));
            }
            Piece::Taken {
                form,
                len,
                line: next,
            } => {
                put_piece(&mut tokens, form, &rest[..len], place, names)?;
                rest = &rest[len..];
                line = next;
            }
        }
    }
    let end = Place {
        file,
        at: text.len() as u32,
    };
    put_end(&mut tokens, line, end)?;
    Ok(tokens)
}
