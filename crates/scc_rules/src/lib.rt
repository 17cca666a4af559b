//! The rules of processes, and the order of combinational methods.
//!
//! `rules` has `check`, the rules in the order of their codes; `facts` has the live part and marks of each process;
//! `clock` clocks as data and sensitivity lists; `writers` roots with two writers and shared variables; `flow` what
//! every path has written whole; `cycles` who reads whom, the order and cycles; `whole` rules on whole bodies.
#![tactic(auto)]

mod clock;
mod cycles;
mod facts;
mod flow;
mod rules;
mod whole;
mod writers;

pub use rules::{Order, check, check_known};
