//! Tests of modules that hold instances of one another: printed, read back and flattened.
#![tactic(auto)]

#[cfg(test)]
mod tests;
