//! Running modules of the emitted language (IEEE 1800-2017, 9.2.2 and 9.4.2).
#![tactic(auto)]

mod edges;
mod inputs;
mod resets;
mod runner;
mod statements;
mod store;
mod sweep;

pub use runner::SvRunner;
