//! What joined files are, by derivations, and that joining gives it (C++, "Preprocessing directives"). Definitions and lemmas
//! alone, over those of `scc_tokens`.
#![tactic(auto)]

mod laws;

pub use laws::{more_files_join_to_the_same, parts_are_joined};
