//! The syntax tree of a source, by the grammar of the subset.
//!
//! `parsing` has `parse`, whose promise is `Claim` of the definitions; the other files read what they are named
//! after.
#![tactic(auto)]

mod class;
mod file;
mod function;
mod laws;
mod member;
mod outside;
mod parsing;

pub use laws::one_tree;
pub use parsing::parse;
pub use scc_grammar_terminals::terminal::{Holder, Seen, Terminal};
