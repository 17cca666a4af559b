//! The trace of a module of the emitted language on a stimulus.
#![tactic(auto)]

mod clocked;
mod clocks;
mod line;
mod ports;
mod run;
mod traced;

pub use clocked::clocked_trace;
pub use traced::module_trace;
