//! Readers of types and expressions.
#![tactic(auto)]

pub mod chain;
pub mod opening;
pub mod postfix;
pub mod primary;
pub mod types;
