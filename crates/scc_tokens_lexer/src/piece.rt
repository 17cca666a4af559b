//! What stands at the front of a text: a blank, a comment, a token, a directive's `#`, the end of a line, or a fault.
ghost use Rattle.std.specs.Prelude.{IsTrue, take, ◌≡◌, ◌+◌, ◌<◌, ◌≤◌, length, IfSome, IsSome, position, not, option_and_then};
ghost use Rattle.scc_tokens_lexer.specs.Bytes.{is_printable};
ghost use Rattle.scc_tokens_lexer.specs.Piece.{word_form, literal_form, word_len, number_len, line_len, front_token, first_is, behind, line_end, hash_piece, comment_piece, unprintable, flaw_of, token_piece, piece_at, StaysWithin, IsNamedPiece};
ghost use Rattle.scc_tokens_lexer.specs.Named.{IsNamed};

use crate::bytes::{is_blank, is_digit, is_letter, is_number_byte, is_printable, is_word_byte};
use crate::enclosed::{comment_end, text_end};
use crate::number::literal_of;
use crate::words::{is_outside, mark_at, word_index};
use scc_base::Code;
use scc_bits::{Kind, Word};

/// Where a byte stands on its line.
#[derive(Clone, Copy, PartialEq, Eq)]
pub enum Line {
    /// After blanks and comments alone.
    Start,
    /// After a token.
    Middle,
    /// After the `#` of a directive.
    Directive,
}

/// The form of a token, without the text of its name.
#[derive(Clone, Copy, PartialEq, Eq)]
pub enum Form {
    Word(u8),
    Mark(u8),
    Ident,
    Number(Kind, Word),
    BadNumber,
    Text,
    Character,
    Outside,
    LineHash,
    LineEnd,
}

/// What the bytes at the front are.
#[derive(Clone, Copy)]
pub enum Piece {
    /// So many bytes, with the token that they are, if any, and where the byte after them stands.
    Taken {
        form: Option<Form>,
        len: usize,
        line: Line,
    },
    /// A fault, so many bytes after the front.
    Fault {
        code: Code,
        at: usize,
    },
}

/// The greatest number of bytes of an identifier.
pub const IDENT_BYTES: usize = 255;

// The form of a run of letters, digits and underscores.
fn word_form(text: &[u8]) -> Form
    requires { 0 < length text.now }
    ensures { result ≡ word_form text.now }
{
    match word_index(text) {
        Some(i) => Form::Word(i),
        None => {
            if is_outside(text) {
                Form::Outside
            } else {
                Form::Ident
            }
        }
    }
}

// The form of a run that begins with a digit.
fn literal_form(text: &[u8]) -> Form
    ensures { result ≡ literal_form text.now }
{
    match literal_of(text) {
        Some((kind, word)) => Form::Number(kind, word),
        None => Form::BadNumber,
    }
}

fn word_len(bytes: &[u8]) -> usize
    ensures value { result ≡ word_len bytes.now }
    ensures within { result ≤ length bytes.now }
{
    bytes.iter().take_while(|b| is_word_byte(**b)).count()
}

fn number_len(bytes: &[u8]) -> usize
    ensures value { result ≡ number_len bytes.now }
    ensures within { result ≤ length bytes.now }
{
    bytes.iter().take_while(|b| is_number_byte(**b)).count()
}

fn line_len(bytes: &[u8]) -> usize
    ensures value { result ≡ line_len bytes.now }
    ensures within { result ≤ length bytes.now }
{
    bytes.iter().take_while(|b| **b != b'\n').count()
}

// The longest token at the front, with its length.
#[tactic(auto, unfolding(crate::specs::Piece::front_token))]
fn front_token(text: &[u8]) -> Option<(Form, usize)>
    ensures value { result ≡ front_token text.now }
    ensures some { IfSome result (λ x. 0 < x.1) }
    ensures within { IfSome result (λ x. x.1 ≤ length text.now) }
    ensures named { IfSome result (λ x. IsNamed x.0 (take x.1 text.now)) }
{
    let [b, others @ ..] = text else {
        return None;
    };
    if is_letter(*b) {
        let n = word_len(others) + 1;
        return Some((word_form(&text[..n]), n));
    }
    if is_digit(*b) {
        let n = number_len(others) + 1;
        return Some((literal_form(&text[..n]), n));
    }
    if *b == b'"' {
        let n = text_end(b'"', others)?;
        return Some((Form::Text, n + 1));
    }
    if *b == b'\'' {
        let n = text_end(b'\'', others)?;
        return Some((Form::Character, n + 1));
    }
    let (mark, n) = mark_at(text)?;
    Some((Form::Mark(mark), n))
}

// Where the byte after a token stands.
fn behind(line: Line) -> Line
    ensures { result ≡ behind line }
{
    match line {
        Line::Directive => Line::Directive,
        Line::Start | Line::Middle => Line::Middle,
    }
}

fn first_is(b: u8, bytes: &[u8]) -> bool
    ensures value { result ≡ first_is b bytes.now }
    ensures some { IsTrue result → 0 < length bytes.now }
{
    match bytes {
        [first, ..] => *first == b,
        [] => false,
    }
}

// The end of a line, which ends a directive.
fn line_end(line: Line) -> Piece
    ensures { result ≡ line_end line }
{
    match line {
        Line::Directive => Piece::Taken {
            form: Some(Form::LineEnd),
            len: 1,
            line: Line::Start,
        },
        Line::Start | Line::Middle => Piece::Taken {
            form: None,
            len: 1,
            line: Line::Start,
        },
    }
}

// A `#`, which begins a directive at the start of a line.
fn hash_piece(line: Line) -> Piece
    ensures { result ≡ hash_piece line }
{
    match line {
        Line::Start => Piece::Taken {
            form: Some(Form::LineHash),
            len: 1,
            line: Line::Directive,
        },
        Line::Middle | Line::Directive => Piece::Fault {
            code: Code::BadByte, // E101
            at: 0,
        },
    }
}

// A comment whose bytes after its `/*` are these.
fn comment_piece(line: Line, bytes: &[u8]) -> Piece
    ensures value { result ≡ comment_piece line bytes.now }
    ensures within { StaysWithin (length bytes.now + 2) result }
{
    match comment_end(bytes) {
        Some(n) => Piece::Taken {
            form: None,
            len: n + 2,
            line,
        },
        None => Piece::Fault {
            code: Code::OpenComment, // E102
            at: 0,
        },
    }
}

// Where the first byte stands that may not stand in a text.
fn unprintable(token: &[u8]) -> Option<usize>
    ensures value { result ≡ unprintable token.now }
    ensures within { IfSome result (λ i. i < length token.now) }
{
    token.iter().position(|b| !is_printable(*b))
}

// What is wrong with a token: a byte in a text that cannot be printed, or the length of an identifier.
fn flaw_of(form: Form, token: &[u8]) -> Option<(Code, usize)>
    ensures value { result ≡ flaw_of form token.now }
    ensures within { IfSome result (λ x. x.1 ≤ length token.now) }
{
    match form {
        Form::Text => {
            let at = unprintable(token)?;
            Some((Code::BadByte, at))
        }
        Form::Ident if token.len() > IDENT_BYTES => Some((Code::BadLiteral, 0)), // E103
        _ => None,
    }
}

// A token, or what stands where none begins.
#[tactic(auto, unfolding(crate::specs::Piece::token_piece))]
fn token_piece(line: Line, text: &[u8]) -> Piece
    requires { 0 < length text.now }
    ensures value { result ≡ token_piece line text.now }
    ensures within { StaysWithin (length text.now) result }
    ensures named { IsNamedPiece text.now result }
{
    let Some((form, len)) = front_token(text) else {
        let code = if text[0] == b'"' || text[0] == b'\'' {
            Code::BadLiteral
        } else {
            Code::BadByte
        };
        return Piece::Fault { code, at: 0 };
    };
    match flaw_of(form, &text[..len]) {
        Some((code, at)) => Piece::Fault { code, at },
        None => Piece::Taken {
            form: Some(form),
            len,
            line: behind(line),
        },
    }
}

/// What stands at the front of a text that is not empty.
#[tactic(auto, unfolding(crate::specs::Piece::piece_at))]
pub fn piece_at(line: Line, text: &[u8]) -> Piece
    requires { 0 < length text.now }
    ensures value { result ≡ piece_at line text.now }
    ensures within { StaysWithin (length text.now) result }
    ensures named { IsNamedPiece text.now result }
{
    let b = text[0];
    let others = &text[1..];
    if b == b'\n' {
        return line_end(line);
    }
    if is_blank(b) {
        return Piece::Taken {
            form: None,
            len: 1,
            line,
        };
    }
    if b == b'/' && first_is(b'/', others) {
        return Piece::Taken {
            form: None,
            len: line_len(text),
            line,
        };
    }
    if b == b'/' && first_is(b'*', others) {
        return comment_piece(line, &others[1..]);
    }
    if b == b'#' {
        return hash_piece(line);
    }
    token_piece(line, text)
}
