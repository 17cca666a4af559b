//! Reads names, literals and expressions in the text of emitted modules (IEEE 1800-2017).
#![tactic(auto)]

pub mod bytes;
pub mod expr;
pub mod held;
pub mod lexical;
pub mod operator;
