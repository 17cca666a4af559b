//! Threads as states: waits, and the segments between them.
//!
//! `thread` has `split`, the order of what it looks at and its limits; `reset` says what an asynchronous reset may do.
#![tactic(auto)]

mod laws;
mod reset;
mod thread;
mod types;

pub use laws::a_table_tells_of_whole_threads;
pub use thread::{split, split_known};
pub use types::Split;
