//! Why a command has no output, where, and how that is said.
//!
//! `stopped` has `Stopped`, why a command has no output; `spots` says where a place stands, by file, line and
//! column; `fault` what joining stops by; `texts` what is said on standard error.
#![tactic(auto)]

pub mod fault;
pub mod spots;
pub mod stopped;
pub mod texts;
