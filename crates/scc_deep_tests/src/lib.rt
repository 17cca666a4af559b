//! Trees of a million levels are made and let go within the stack. Tests alone, of the crates that have the trees.
#![tactic(auto)]

#[cfg(test)]
mod tests;
