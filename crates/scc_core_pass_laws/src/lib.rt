//! Laws of resolved cores; no code.
#![tactic(auto)]

mod laws;

pub use laws::{
    a_resolved_body_follows, a_resolved_core_means_the_same, objects_stand_for_pointers,
    resolving_keeps_the_meaning,
};
