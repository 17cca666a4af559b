//! Tests of commands whose files or outputs fail, and whose sources are as deep as may be, in a crate of their own, so that `run` is
//! proved once. What other commands answer stands on the pages of `scc_drive_cases`.
#![tactic(auto)]

#[cfg(test)]
mod deepest;
#[cfg(test)]
mod tests;
