//! Tests of the calls of `scc_base`, in a crate of their own, so that `scc_base` is proved once.
#![tactic(auto)]

#[cfg(test)]
mod tests;
