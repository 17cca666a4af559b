//! The copied body of one process goes along with its function with calls. Lemmas alone, which other crates cite.
#![tactic(auto)]
