//! The text of a module as it is written (IEEE 1800-2017), and the module that what is written says. Definitions and lemmas
//! alone, which other crates cite.
#![tactic(auto)]
