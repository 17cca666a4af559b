//! What constructors read and write: locations, and the words and targets that stand there (IEEE 1666-2011, 4.1: elaboration).
#![tactic(auto)]

mod locations;
mod store;

pub use locations::{LocalOf, Location, Part};
pub use store::{HeldTarget, HeldWord, Store};
