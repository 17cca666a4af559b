//! Both passes over a core, one after the other: laws of the definitions; no code.
#![tactic(auto)]

mod laws;

pub use laws::{both_passes_give_what_the_laws_speak_of, both_passes_keep_the_meaning};
