//! Laws on cores: in any order the processes of a core leave the same.
#![tactic(auto)]

mod laws;

pub use laws::{
    any_order_shows_the_same, settled_words_are_a_function, settling_ends_soon,
    there_is_a_schedule, what_goes_well_comes_to_one_end, what_means_a_core_runs_in_any_order,
    worked_cores_run_in_any_order,
};
