//! What is known of a plain program and its design before calls are copied: sizes of functions.
#![tactic(auto)]

mod counts;
mod extent;
mod facts;
mod order;
mod parts;
mod walk;
mod whole;

pub use counts::facts_at;
pub use extent::{DEPTH, Extent};
pub use facts::{Facts, all_facts};
pub use walk::{first_base, pointers};
pub use whole::alone;
