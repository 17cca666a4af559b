//! What resolving pointers gives of a core, and how it refuses; no code.
#![tactic(auto)]

mod laws;

pub use laws::{declared_pointers_are_resolved_alike, pointers_declared_first_are_resolved_alike};
