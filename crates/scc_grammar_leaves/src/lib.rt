//! Readers of types and expressions that hold no others, and what the next token begins.
#![tactic(auto)]

pub mod first;
pub mod operands;
pub mod types;
