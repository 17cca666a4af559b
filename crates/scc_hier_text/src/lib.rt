//! Modules that hold instances of one another (IEEE 1800-2017, section 23.3), and their text.
#![tactic(auto)]

mod print;
mod tree;

pub use print::print_hier;
pub use tree::{Hier, HierModule, Instance};
