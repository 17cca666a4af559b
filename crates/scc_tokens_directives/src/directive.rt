//! The words that begin directives (C++, "Preprocessing directives").
ghost use Rattle.std.specs.Prelude.{◌≡◌, ◌<◌, ◌≤◌, ◌+◌, ◌^◌, length, IfOk, OnOk, Some, slice_get};
ghost use Rattle.scc_base.specs.Names.{Keeps, with_name};
ghost use Rattle.scc_tokens_directives.specs.Directive.{directive_of, named_directive, refusal_of, first_refusal, is_named, IsWords, HasThree, with_names, word_texts, is_line_end, line_len};

use crate::numbers::ELSE;
use scc_base::{Code, Name, Names, NoMemory, Place};
use scc_tokens_lexer::{Token, TokenKind};

/// The names of the words of directives and of SystemC's own headers.
#[derive(Clone, Copy)]
pub struct Words {
    pub include: Name,
    pub define: Name,
    pub undef: Name,
    pub ifdef: Name,
    pub ifndef: Name,
    pub endif: Name,
    pub pragma: Name,
    pub once: Name,
    pub systemc: Name,
    pub h: Name,
    /// The macro that is defined at the start.
    pub synthesis: Name,
}

/// What a directive does, by its first word.
#[derive(Clone, Copy, PartialEq, Eq)]
pub enum Directive {
    Include,
    Define,
    Undef,
    Ifdef,
    Ifndef,
    Else,
    Endif,
    Pragma,
    /// Nothing that the subset has.
    Unknown,
}

// The names of three texts.
fn three(names: &mut Names, a: &str, b: &str, c: &str) -> Result<(Name, Name, Name), NoMemory>
    requires { length names.old + 3 < 2 ^ 32 }
    ensures texts { IfOk result (λ x. HasThree names.new x a.now b.now c.now) }
    ensures names { OnOk result (names.new ≡ with_name (with_name (with_name names.old a.now) b.now) c.now) }
    ensures keeps { Keeps names.old names.new }
    ensures few { length names.new ≤ length names.old + 3 }
{
    let first = name(names, a)?;
    let second = name(names, b)?;
    let third = name(names, c)?;
    Ok((first, second, third))
}

fn name(names: &mut Names, text: &str) -> Result<Name, NoMemory>
    requires { length names.old < 2 ^ 32 }
    ensures text { IfOk result (λ n. slice_get names.new n.0 ≡ Some text.now) }
    ensures names { OnOk result (names.new ≡ with_name names.old text.now) }
    ensures keeps { Keeps names.old names.new }
    ensures few { length names.new ≤ length names.old + 1 }
{
    names.intern(text)
}

impl Words {
    /// Gives the words their names, which `names` gains.
    pub fn new(names: &mut Names) -> Result<Words, NoMemory>
        requires { length names.old + 12 < 2 ^ 32 }
        ensures words { IfOk result (IsWords names.new) }
        ensures names { OnOk result (names.new ≡ with_names names.old word_texts) }
        ensures keeps { Keeps names.old names.new }
        ensures few { length names.new ≤ length names.old + 12 }
    {
        let (include, define, undef) = three(names, "include", "define", "undef")?;
        let (ifdef, ifndef, endif) = three(names, "ifdef", "ifndef", "endif")?;
        let (pragma, once, systemc) = three(names, "pragma", "once", "systemc")?;
        let h = name(names, "h")?;
        let synthesis = name(names, "SCC_SYNTHESIS")?;
        Ok(Words {
            include,
            define,
            undef,
            ifdef,
            ifndef,
            endif,
            pragma,
            once,
            systemc,
            h,
            synthesis,
        })
    }
}

fn named_directive(words: &Words, name: Name) -> Directive
    ensures { result ≡ named_directive words.now name.0 }
{
    if name.0 == words.include.0 {
        return Directive::Include;
    }
    if name.0 == words.define.0 {
        return Directive::Define;
    }
    if name.0 == words.undef.0 {
        return Directive::Undef;
    }
    if name.0 == words.ifdef.0 {
        return Directive::Ifdef;
    }
    if name.0 == words.ifndef.0 {
        return Directive::Ifndef;
    }
    if name.0 == words.endif.0 {
        return Directive::Endif;
    }
    if name.0 == words.pragma.0 {
        return Directive::Pragma;
    }
    Directive::Unknown
}

/// What the directive does whose line begins with this token.
pub fn directive_of(words: &Words, first: TokenKind) -> Directive
    ensures { result ≡ directive_of words.now first }
{
    match first {
        TokenKind::Ident(name) => named_directive(words, name),
        TokenKind::Word(ELSE) => Directive::Else,
        _ => Directive::Unknown,
    }
}

/// The refusal of a token wherever it is active.
pub fn refusal_of(kind: TokenKind) -> Option<Code>
    ensures { result ≡ refusal_of kind }
{
    match kind {
        TokenKind::BadNumber | TokenKind::Character => Some(Code::BadLiteral), // E103
        TokenKind::Outside(_) => Some(Code::OutsideWord), // E104
        _ => None,
    }
}

/// The first refusal of tokens that are active.
pub fn first_refusal(tokens: &[Token]) -> Option<(Code, Place)>
    ensures { result ≡ first_refusal tokens.now }
{
    for t in tokens {
        if let Some(code) = refusal_of(t.kind) {
            return Some((code, t.place));
        }
    }
    None
}

/// Whether a token is spelled as an identifier is.
pub fn is_named(kind: TokenKind) -> bool
    ensures { result ≡ is_named kind }
{
    matches!(
        kind,
        TokenKind::Ident(_) | TokenKind::Word(_) | TokenKind::Outside(_)
    )
}

/// Whether a token is the end of a directive.
pub fn is_line_end(kind: TokenKind) -> bool
    ensures { result ≡ is_line_end kind }
{
    matches!(kind, TokenKind::LineEnd)
}

/// How many tokens stand before the end of the line.
pub fn line_len(tokens: &[Token]) -> usize
    ensures value { result ≡ line_len tokens.now }
    ensures within { result ≤ length tokens.now }
{
    tokens.iter().take_while(|t| !is_line_end(t.kind)).count()
}
