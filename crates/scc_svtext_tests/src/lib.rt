//! Tests of emitted texts and of what is told of them, in a crate of their own, so that what they test is proved once.
#![tactic(auto)]

#[cfg(test)]
mod tests;
