//! Copies of emitted statements and expressions with other numbers of variables.
#![tactic(auto)]

mod expr;
mod stmt;

pub use expr::{Ids, UNDECLARED, renumbered_expr, renumbered_left};
pub use stmt::renumbered;
