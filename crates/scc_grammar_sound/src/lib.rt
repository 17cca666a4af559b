//! What is read is of the grammar, and reads no further than it has to. Lemmas alone, which other crates cite.
#![tactic(auto)]
