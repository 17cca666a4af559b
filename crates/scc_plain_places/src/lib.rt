//! Whether a place is one of a node of a source's tree.
#![tactic(auto)]

mod expressions;
mod items;
mod statements;

pub use items::is_placed;
