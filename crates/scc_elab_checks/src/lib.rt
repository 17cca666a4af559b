//! What construction asks of a program alone: of its top's constructor, and of functions that are no constructors.
#![tactic(auto)]

mod functions;
mod statements;
mod top;

pub use functions::check_functions;
pub use top::check_top;
