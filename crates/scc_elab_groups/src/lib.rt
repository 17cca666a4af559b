//! The initialisers of a constructor by the members that they fill or make (ISO C++ [class.base.init]).
#![tactic(auto)]

mod groups;
mod makes;

pub use groups::{Group, Groups, first_alone, from, groups_of};
pub use makes::{last_args, tails_at};
