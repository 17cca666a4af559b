//! Where no name stands as a driver, a clock or a reset that may not, in what is written. Lemmas alone, which other crates
//! cite.
#![tactic(auto)]
