//! Designs of several clocks: the part of each clock, and the module that joins the parts' modules.
//!
//! `homes` says to which part each process belongs, `cutting` makes the parts (`domains`), `merging` joins their
//! modules (`merge`) over the names in `joined`, and `clocked` does all three (`clocked_module`).
#![tactic(auto)]

mod clocked;
mod cutting;
mod homes;
mod joined;
mod merging;
mod parts;

pub use clocked::clocked_module;
pub use cutting::domains;
pub use merging::merge;
pub use parts::Domains;
pub use scc_trace::{ClockStep, ClockStim, clock_stimulus};
