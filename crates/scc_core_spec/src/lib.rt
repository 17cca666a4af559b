//! What the core means: definitions that other crates cite, each cited here by a law.
#![tactic(auto)]

mod laws;

pub use laws::{
    a_loop_that_runs_once_is_its_body, a_tail_is_copied, a_thread_with_a_local_is_measured,
    a_wait_in_a_branch_is_cut, an_index_is_read_before_its_variable, broken_rules_are_refused,
    counted_loops_are_written_out, elements_under_an_index_are_counted, no_methods_are_ordered,
    nothing_has_no_pointers, pointers_give_way_to_objects, the_counting_thread_counts,
    the_counting_thread_is_accepted, the_counting_thread_is_cut, the_counting_thread_is_measured,
    the_counting_thread_is_resolved, vectors_of_an_array_have_one_size,
    what_lives_across_a_wait_is_kept,
};
