//! Whether expressions of a core are whole: kinds are as the tables of operators have them, words fit, no divisor that is known is 0.
//!
//! `kinds` compares kinds; `whole` looks at expressions, `past` at indices that lie past an end.
#![tactic(auto)]

mod kinds;
mod past;
mod whole;

pub use kinds::{both, same_kind, same_sign};
pub use past::is_past;
pub use whole::is_whole;
