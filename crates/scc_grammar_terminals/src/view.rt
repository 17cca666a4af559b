//! Joined tokens as the grammar sees them.
ghost use Rattle.std.specs.Prelude.{◌≡◌, map, slice_get, IfOk};
ghost use Rattle.scc_grammar_terminals.specs.View.{or_other, word_of, mark_of, terminal_of, seen_of, seen_all};

use crate::terminal::{Holder, Seen, Terminal};
use scc_base::{List, NoMemory};
use scc_bits::Op;
use scc_tokens_lexer::{Token, TokenKind};
use scc_tree::{Family, UnaryOp};
use std::alloc::Global;

/// What the words of the source language are to the grammar, in the order of their numbers.
const WORDS: [Terminal; 69] = [
    Terminal::Bool,
    Terminal::Break,
    Terminal::Case,
    Terminal::Char,
    Terminal::Class,
    Terminal::Concat,
    Terminal::Const,
    Terminal::Continue,
    Terminal::Default,
    Terminal::Do,
    Terminal::Else,
    Terminal::Enum,
    Terminal::Explicit,
    Terminal::Truth(false),
    Terminal::For,
    Terminal::If,
    Terminal::Inline,
    Terminal::Int,
    Terminal::Long(true),
    Terminal::Namespace,
    Terminal::New,
    Terminal::Null,
    Terminal::Null,
    Terminal::Hidden,
    Terminal::Hidden,
    Terminal::Public,
    Terminal::Return,
    Terminal::Short,
    Terminal::Signed,
    Terminal::Static,
    Terminal::StaticCast,
    Terminal::Struct,
    Terminal::Switch,
    Terminal::Template,
    Terminal::This,
    Terminal::Truth(true),
    Terminal::Typedef,
    Terminal::Typename,
    Terminal::Long(false),
    Terminal::Unsigned,
    Terminal::Using,
    Terminal::Void,
    Terminal::Wait,
    Terminal::While,
    Terminal::Module,
    Terminal::Constructor,
    Terminal::HasProcess,
    Terminal::Process(false),
    Terminal::Process(true),
    Terminal::ClockedThread,
    Terminal::ModuleBase,
    Terminal::ModuleName,
    Terminal::Holder(Holder::Input),
    Terminal::ClockInput,
    Terminal::Holder(Holder::Output),
    Terminal::Holder(Holder::Signal),
    Terminal::Holder(Holder::Vector),
    Terminal::Sized(Family::Int),
    Terminal::Sized(Family::Uint),
    Terminal::Sized(Family::Big),
    Terminal::Sized(Family::Bv),
    Terminal::Library,
    Terminal::Library,
    Terminal::Library,
    Terminal::Sensitive,
    Terminal::DontInitialize,
    Terminal::Reset(false),
    Terminal::Reset(true),
    Terminal::Sized(Family::BigInt),
];

/// What marks are to the grammar, in the order of their numbers.
const MARKS: [Terminal; 47] = [
    Terminal::BraceOpen,
    Terminal::BraceClose,
    Terminal::ParenOpen,
    Terminal::ParenClose,
    Terminal::BracketOpen,
    Terminal::BracketClose,
    Terminal::Less,
    Terminal::Greater,
    Terminal::Semicolon,
    Terminal::Comma,
    Terminal::Colon,
    Terminal::Scope,
    Terminal::Dot,
    Terminal::Arrow,
    Terminal::Question,
    Terminal::Assign,
    Terminal::Plus,
    Terminal::Minus,
    Terminal::Star,
    Terminal::Divide(Op::Div),
    Terminal::Divide(Op::Rem),
    Terminal::And,
    Terminal::Or,
    Terminal::Xor,
    Terminal::Inverse(UnaryOp::Not),
    Terminal::Inverse(UnaryOp::LogNot),
    Terminal::ShiftLeft,
    Terminal::ShiftRight,
    Terminal::Order(Op::Le),
    Terminal::Order(Op::Ge),
    Terminal::Equal(Op::Eq),
    Terminal::Equal(Op::Ne),
    Terminal::LogAnd,
    Terminal::LogOr,
    Terminal::Step(Op::Add),
    Terminal::Step(Op::Sub),
    Terminal::Update(Op::Add),
    Terminal::Update(Op::Sub),
    Terminal::Update(Op::Mul),
    Terminal::Update(Op::Div),
    Terminal::Update(Op::Rem),
    Terminal::Update(Op::And),
    Terminal::Update(Op::Or),
    Terminal::Update(Op::Xor),
    Terminal::Update(Op::Shl),
    Terminal::Update(Op::Shr),
    Terminal::Other,
];

// What stands at a number of a table.
fn at(table: &[Terminal], i: u8) -> Terminal
    ensures { result ≡ or_other (slice_get table.now i) }
{
    match table.get(i as usize) {
        Some(terminal) => *terminal,
        None => Terminal::Other,
    }
}

fn word(i: u8) -> Terminal
    ensures { result ≡ word_of i }
{
    at(&WORDS, i)
}

fn mark(i: u8) -> Terminal
    ensures { result ≡ mark_of i }
{
    at(&MARKS, i)
}

fn terminal(kind: TokenKind) -> Terminal
    ensures { result ≡ terminal_of kind }
{
    match kind {
        TokenKind::Word(i) => word(i),
        TokenKind::Mark(i) => mark(i),
        TokenKind::Ident(x) => Terminal::Ident(x),
        TokenKind::Number(kind, word) => Terminal::Number(kind, word),
        TokenKind::Text => Terminal::Text,
        TokenKind::BadNumber
        | TokenKind::Character
        | TokenKind::Outside(_)
        | TokenKind::LineHash
        | TokenKind::LineEnd => Terminal::Other,
    }
}

fn seen(token: &Token) -> Seen
    ensures { result ≡ seen_of token.now }
{
    Seen {
        terminal: terminal(token.kind),
        place: token.place,
    }
}

/// What the grammar sees of joined tokens.
pub fn see(alloc: Global, tokens: &[Token]) -> Result<List<Seen>, NoMemory>
    ensures { IfOk result (λ l. l ≡ seen_all tokens.now) }
{
    let mut list = List::new(alloc);
    for token in tokens {
        list.push(seen(token))?;
    }
    Ok(list)
}
