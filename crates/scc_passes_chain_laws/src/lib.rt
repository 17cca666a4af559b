//! Both passes over a core are the definitions': a law on what `Chain` of `Unroll` and `Resolve` answers; no code.
#![tactic(auto)]

mod laws;

pub use laws::both_passes_are_the_definitions;
