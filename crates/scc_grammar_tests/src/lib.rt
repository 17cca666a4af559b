//! Tests of the grammar over whole sources, in a crate of their own, so that the grammar is proved once.
#![tactic(auto)]

#[cfg(test)]
mod tests;
