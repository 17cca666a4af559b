//! What is looked for of processes when construction has run (IEEE 1666-2011, 5.2.9 to 5.2.14).
#![tactic(auto)]

mod all;
mod clocks;
mod processes;

pub use all::{check_after, check_each, check_processes};
pub use clocks::{check_clock, check_process, note_clock};
pub use processes::{Clock, check_asynchronous, check_reset, check_sensitivity, clock_of};
