//! The tokens of a text (C++, "Lexical conventions").
//!
//! `piece` finds what stands at the front of a text, with `enclosed` for texts and comments and `number` for
//! literals; `lexer` cuts a whole text. `token` has the tokens, `words` the lists of words and marks with `slots`,
//! which finds a text in them, `keyword` their names with their numbers, `bytes` the classes of bytes. Of the
//! definitions `Lexes` is the relation between a text and its tokens or its first fault; `Piece` and `Scan` are the
//! functions against which the code is proved.
#![tactic(auto)]

mod bytes;
mod enclosed;
mod keyword;
mod laws;
mod lexer;
mod number;
mod piece;
mod slots;
mod token;
mod words;

pub use keyword::{Keyword, Punct};
pub use laws::text_has_one_reading;
pub use lexer::{lex, scanned};
pub use token::{Token, TokenKind, Tokens};
pub use words::{MARKS, WORDS};
