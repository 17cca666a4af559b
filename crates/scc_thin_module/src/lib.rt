//! The module of the design of a thin text, and that it does what the design does.
#![tactic(auto)]

mod emit;
mod laws;

pub use emit::module_of;
