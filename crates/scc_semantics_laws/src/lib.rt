//! Laws on how designs run: what means the same runs alike.
#![tactic(auto)]

mod laws;

pub use laws::{
    a_design_means_what_it_means, a_resume_comes_to_one_outcome, numbers_of_waits_do_not_show,
    one_pass_behind_another_keeps_the_meaning, what_means_the_same_is_shown_the_same,
    what_means_the_same_runs_alike, what_means_the_same_runs_in_any_order,
};
