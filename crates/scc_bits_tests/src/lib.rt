//! Tests of the kinds and operators, in a crate of their own, so that `scc_bits` is proved once.
#![tactic(auto)]

#[cfg(test)]
mod tests;
#[cfg(test)]
mod values;
#[cfg(test)]
mod vectors;
