//! Which initialisers of a constructor belong to which member, and what left sides name by declarations alone (ISO C++ [class.base.init]).
#![tactic(auto)]

mod inits;
mod lefts;

pub use inits::{args_of, is_make, owner_of};
pub use lefts::{Around, ends_in_vector, first_member};
