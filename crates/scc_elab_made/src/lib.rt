//! What makes objects while construction runs: members, arrays, vectors, `new` and constructors (IEEE 1666-2011, 4.1).
#![tactic(auto)]

mod arrays;
mod inits;
mod laws;
mod members;
mod news;
mod objects;
mod running;
mod top;
mod vectors;

pub use laws::{initialisers_run_in_order, loops_test_before_turns, statements_run_in_order};
pub use objects::make_object;
pub use running::run;
pub use top::make_top;
