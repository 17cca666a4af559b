//! The runner of the source side: a program's processes over the objects of a design, as the standard's scheduler resumes them
//! (IEEE 1666-2011, 4.2.1).
//!
//! `runner` has `Runner`, `rounds` settling, `resume` processes, `build` and `start` the beginning.
#![tactic(auto)]

mod build;
mod resume;
mod rounds;
mod runner;
mod start;

pub use runner::{RunStop, Runner};
pub use start::Start;
