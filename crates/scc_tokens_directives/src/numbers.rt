//! The words and marks that directives look for, by their numbers in tokens.
use scc_tokens_lexer::{Keyword, Punct};

/// `else`
pub const ELSE: u8 = Keyword::Else as u8;
/// `sc_core`
pub const SC_CORE: u8 = Keyword::ScCore as u8;
/// `sc_dt`
pub const SC_DT: u8 = Keyword::ScDt as u8;

/// `(`
pub const PAREN_OPEN: u8 = Punct::ParenOpen as u8;
/// `<`
pub const LESS: u8 = Punct::Less as u8;
/// `>`
pub const GREATER: u8 = Punct::Greater as u8;
/// `::`
pub const SCOPE: u8 = Punct::Scope as u8;
/// `.`
pub const DOT: u8 = Punct::Dot as u8;
