//! Tests of tokens and joined files, in a crate of their own, so that `scc_tokens` is proved once.
#![tactic(auto)]

#[cfg(test)]
mod tests;
