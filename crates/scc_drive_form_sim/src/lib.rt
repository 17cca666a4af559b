//! Running emitted texts of the forms that the commands name by a word: modules with instances, and several clocks.
#![tactic(auto)]

mod read;
mod trace;

pub use read::{Runnable, read_runnable};
pub use trace::traced;
