//! Resolved cores: laws of the definitions.
#![tactic(auto)]

mod laws;

pub use laws::{
    a_resolved_core_is_never_stuck, a_resolved_core_is_sound, a_resolved_core_is_steady,
    a_resolved_core_keeps_what_is_fixed, a_resolved_core_starts, bodies_of_a_resolved_core_fit,
    cells_of_a_resolved_core_are_told_apart, there_are_resolved_cores,
    threads_of_a_resolved_core_turn, what_is_named_is_told, words_of_a_resolved_core_stay_proper,
    words_of_registers_stay_fit,
};
