//! The tokens of a text, and the joined tokens of a program's files.
//!
//! `joining` has `join`; `walk` goes over a file and those that it includes, `read` reads files, each once. What
//! the crates below have for others is given out here too.
#![tactic(auto)]

mod joining;
mod read;
mod walk;

pub use joining::{JoinFault, Joined, join};
pub use scc_tokens_directives::{Source, macros_are_expanded};
pub use scc_tokens_lexer::{
    Keyword, MARKS, Punct, Token, TokenKind, Tokens, WORDS, lex, text_has_one_reading,
};
