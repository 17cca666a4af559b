//! What grows while constructors run: objects by their places, frames, bindings and processes (IEEE 1666-2011, 4.1:
//! elaboration).
#![tactic(auto)]

pub mod frames;
pub mod groups;
pub mod grown;
pub mod numbers;
pub mod objects;
pub mod program;
pub mod records;
pub mod spots;
pub mod things;
pub mod work;
