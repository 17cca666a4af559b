//! Running emitted texts on stimuli: the traces that they write.
#![tactic(auto)]

mod command;

pub use command::svsim;
