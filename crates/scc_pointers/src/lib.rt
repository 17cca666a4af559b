//! Pointers and references, replaced by the objects to which they lead.
//!
//! `pass` has `Resolve`, and `stmt` statements without pointers.
#![tactic(auto)]

pub mod laws;
mod pass;
mod stmt;

pub use pass::Resolve;
