//! The parts of a thread's live body, the segments that a path along them comes to, and what they count.
#![tactic(auto)]

mod opening;
mod over;
mod parts;
mod path;
mod waits;

pub use opening::opens;
pub use over::{Count, DEEPEST, counted};
pub use parts::{Part, PartNode, parts_of};
pub use path::{Frame, Sort, again, next_part};
pub use waits::{Halt, halts};
