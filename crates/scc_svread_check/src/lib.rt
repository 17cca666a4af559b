//! What is wrong in an emitted text: its sizes, names and drivers (IEEE 1800-2017).
#![tactic(auto)]

mod block;
mod drivers;
mod edge;
mod expr;
mod facts;
mod first;
mod labels;
mod leaf;
mod mentioned;
mod number;
mod scope;
mod stmt;
mod text_set;
mod walk;
mod within;
mod wrong;

pub use first::{first_wrong, starts};
pub use number::{decimal, hexadecimal};
pub use text_set::TextSet;
pub use wrong::Wrong;
