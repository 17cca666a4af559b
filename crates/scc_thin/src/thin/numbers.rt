//! The words and marks of thin texts, by their numbers in tokens.
use scc_tokens_lexer::{Keyword, Punct};

pub const VOID: u8 = Keyword::Void as u8;

pub const SC_MODULE: u8 = Keyword::ModuleMacro as u8;

pub const SC_CTOR: u8 = Keyword::ScCtor as u8;

pub const SC_METHOD: u8 = Keyword::ScMethod as u8;

pub const SC_IN: u8 = Keyword::ScIn as u8;

pub const SC_OUT: u8 = Keyword::ScOut as u8;

pub const SC_UINT: u8 = Keyword::ScUint as u8;

pub const SENSITIVE: u8 = Keyword::Sensitive as u8;

/// `{`
pub const BRACE_OPEN: u8 = Punct::BraceOpen as u8;
/// `}`
pub const BRACE_CLOSE: u8 = Punct::BraceClose as u8;
/// `(`
pub const PAREN_OPEN: u8 = Punct::ParenOpen as u8;
/// `)`
pub const PAREN_CLOSE: u8 = Punct::ParenClose as u8;
/// `<`
pub const LESS: u8 = Punct::Less as u8;
/// `>`
pub const GREATER: u8 = Punct::Greater as u8;
/// `;`
pub const SEMICOLON: u8 = Punct::Semicolon as u8;
/// `,`
pub const COMMA: u8 = Punct::Comma as u8;
/// `.`
pub const DOT: u8 = Punct::Dot as u8;
/// `&`
pub const AND: u8 = Punct::And as u8;
/// `|`
pub const OR: u8 = Punct::Or as u8;
/// `^`
pub const XOR: u8 = Punct::Xor as u8;
/// `<<`
pub const SHIFT_LEFT: u8 = Punct::ShiftLeft as u8;
/// `>>`
pub const SHIFT_RIGHT: u8 = Punct::ShiftRight as u8;
