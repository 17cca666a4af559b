//! Whatever is of the grammar is read, and has one tree. Lemmas alone, which other crates cite.
#![tactic(auto)]
