//! Arrays of registers in an emitted module that can be memories: at each edge at most one element gets a new value.
//!
//! `candidates` finds arrays by names and widths; `tree` reads and `write` writes by an index; `uses` and `paths`
//! look for what a memory can't have; `verdict` has `taken`.
#![tactic(auto)]

mod array;
mod candidates;
mod paths;
mod same;
mod tree;
mod uses;
mod verdict;
mod write;

pub use array::{Array, Arrays, Spot};
pub use tree::{Guard, Read, guard_of, read_of};
pub use verdict::taken;
pub use write::{Write, first_run, is_start, write_of};
