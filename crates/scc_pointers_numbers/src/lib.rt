//! Cores in which cells have other numbers.
#![tactic(auto)]

mod laws;
mod numbering;

pub use laws::numbered_copies_are_renamed;
pub use numbering::Numbering;
