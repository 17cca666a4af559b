//! The system's files and outputs as `Files` and `Sink`.
#![tactic(auto)]

mod adapters;
#[cfg(test)]
mod tests;

pub use adapters::{Disk, Stream};
