//! Sizes of processes, and the bound on the steps of a resume that follows from them.
#![tactic(auto)]

mod sizes;
mod steps;

pub use sizes::{Size, size_of, size_of_one};
pub use steps::step_bounds;
