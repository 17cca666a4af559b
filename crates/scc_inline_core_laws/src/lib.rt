//! That the core which copying calls gives can be resolved; no code.
#![tactic(auto)]

mod laws;

pub use laws::{
    a_copied_core_can_be_resolved, a_copied_core_is_sorted_and_clocked, a_copied_core_is_told,
    an_elaborated_design_is_laid_out, copied_bodies_are_own,
    the_worked_program_meets_what_is_asked,
};
