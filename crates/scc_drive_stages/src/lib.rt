//! The stages after the grammar, one after the other: from the tree of a file to the text of its module.
//!
//! `front` has `front_of`, the passes up to the segments; `processes` the rules, segments and the size of what
//! indices choose among; `emit` has `compile`; `look` the look at the text, which is read back before it is given;
//! `refusals` the look at a refusal's code.
#![tactic(auto)]

mod emit;
mod front;
mod look;
mod processes;
mod refusals;

pub use emit::{compile, compile_front, name_of};
pub use front::{Front, front_of};
pub use look::looked_at;
