//! Orders and cycles of combinational blocks (IEEE 1800-2017, 9.2.2.2).
#![tactic(auto)]

mod cycles;
mod feeds;
mod groups;
mod ranks;
mod reached;
mod rows;
mod scheduling;
mod var_lists;

pub use cycles::{first_cycle, first_of};
pub use groups::group_blocks;
pub use rows::Rows;
pub use scheduling::schedule;
