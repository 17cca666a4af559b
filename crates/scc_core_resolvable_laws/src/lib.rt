//! Which cores can be resolved, that unrolling leaves them so, and what holds of what is resolved; no code.
#![tactic(auto)]

mod laws;

pub use laws::{
    a_resolved_core_passes_but_for_its_statements, an_unrolled_core_is_told_sorted_and_clocked,
    cells_with_names_of_their_own_are_apart, own_code_is_kinded, resolving_leaves_a_core_named,
    unrolling_leaves_a_core_named, unrolling_leaves_a_core_resolvable,
};
