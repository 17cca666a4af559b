//! Bodies of processes with their calls copied.
//!
//! `process` has `inline`, process by process, `heading` a process without its body; `scope` what a copy works with,
//! numbers and cells of locals; `stmt` copies statements and calls, `locate` locations and expressions. Limits are
//! decided from the facts, so no body that passes one is ever built. The recursion goes along statements and calls
//! together, at most 1,024 levels, as the limit on nesting allows.
#![tactic(auto)]

mod elements;
mod heading;
mod laws;
mod locate;
mod process;
mod scope;
mod stmt;

pub use laws::{locals_are_named_statement_by_statement, locals_are_numbered_one_by_one};
pub use process::inline;
