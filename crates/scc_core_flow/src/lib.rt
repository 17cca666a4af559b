//! Walks over processes: what of a body lives, and what it reads and writes.
#![tactic(auto)]

mod laws;
mod liveness;
mod marks;
mod set;

pub use laws::whole_tests_are_decided;
pub use liveness::{LivePart, live, live_part};
pub use marks::{Mark, marked};
pub use set::CellSet;
