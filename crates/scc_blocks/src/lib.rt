//! The emitted module: a block for each combinational method, and two for each process at a clock edge.
//!
//! `module` has `blocks`; `declare` the declarations, `body` what each process does, `thread` states and counters,
//! `reset` what an asynchronous reset loads, `first` first assignments and registers, `views` which cells are
//! constants and registers, `written` and `assigned` what processes write and statements assign, `stamps` in which
//! turn a cell was met last.
#![tactic(auto)]

mod assigned;
mod body;
mod declare;
mod first;
mod module;
mod reset;
mod stamps;
mod thread;
mod views;
mod written;

pub use module::{ELSEWHERE, blocks};
