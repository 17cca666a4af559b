//! Laws of unrolled bodies, apart from the code that makes them: copies with counters, and a body statement by statement.
#![tactic(auto)]

mod laws;

pub use laws::a_copy_counts;
