//! Readers of statements.
#![tactic(auto)]

pub mod line;
pub mod local;
pub mod simple;
pub mod stmt;
