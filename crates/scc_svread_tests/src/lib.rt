//! Tests of emitted texts that are read, in a crate of their own, so that `read` is proved once.
#![tactic(auto)]

#[cfg(test)]
mod tests;
