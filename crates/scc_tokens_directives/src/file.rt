//! The files that were read, and their conditionals that are not closed.
ghost use Rattle.std.specs.Prelude.{◌≡◌, ◌+◌, ◌≤◌, ◌<◌, ◌^◌, length};
ghost use Rattle.scc_tokens_directives.specs.File.{is_hash, line_of, ends_with, ends_open, unclosed_with, first_unclosed};

use crate::directive::{Directive, Words, directive_of};
use scc_base::Text;
use scc_tokens_lexer::{Token, TokenKind, Tokens};

/// A file that was read.
#[derive(Drop)]
pub struct Source {
    /// The name by which it was asked for.
    pub name: Text,
    pub bytes: Text,
}

/// The tokens of a file.
#[derive(Drop)]
pub struct File {
    pub tokens: Tokens,
    /// The byte at which the first conditional begins that the file does not close.
    pub unclosed: Option<u32>,
}

/// Whether a token begins a directive.
pub fn is_hash(kind: TokenKind) -> bool
    ensures { result ≡ is_hash kind }
{
    matches!(kind, TokenKind::LineHash)
}

// The directive that begins here, if one does.
fn line_of(words: &Words, tokens: &[Token]) -> Directive
    ensures { result ≡ line_of words.now tokens.now }
{
    match tokens {
        [hash, first, ..] if is_hash(hash.kind) => directive_of(words, first.kind),
        _ => Directive::Unknown,
    }
}

// How many `#endif` close what stands before, one line more being read from the back.
fn ends_with(directive: Directive, ends: usize) -> usize
    requires { ends + 1 < 2 ^ 64 }
    ensures { result ≡ ends_with directive ends }
{
    match directive {
        Directive::Ifdef | Directive::Ifndef => ends.saturating_sub(1),
        Directive::Endif => ends + 1,
        _ => ends,
    }
}

fn unclosed_with(directive: Directive, ends: usize, at: u32, later: Option<u32>) -> Option<u32>
    ensures { result ≡ unclosed_with directive ends at later }
{
    match directive {
        Directive::Ifdef | Directive::Ifndef if ends == 0 => Some(at),
        _ => later,
    }
}

/// Where the first conditional begins that these tokens do not close.
pub fn first_unclosed(words: &Words, tokens: &[Token]) -> Option<u32>
    ensures { result ≡ first_unclosed words.now tokens.now }
{
    let mut i = tokens.len();
    let mut ends = 0;
    let mut unclosed = None;
    'lines: while i > 0 {
        i -= 1;
        let directive = line_of(words, &tokens[i..]);
        unclosed = unclosed_with(directive, ends, tokens[i].place.at, unclosed);
        ends = ends_with(directive, ends);
    }
    unclosed
}
