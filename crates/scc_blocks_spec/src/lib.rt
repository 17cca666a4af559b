//! What stands between a core and its module: words by cells, valuations that show them, registers, and what a module shows of a design: definitions that other crates cite,
//! each cited here by a law.
#![tactic(auto)]

mod laws;
mod modules;
mod told;

pub use laws::{
    a_reader_stands_behind_its_writer, a_variable_is_lowered_as_itself,
    an_edge_is_that_of_its_process, an_element_is_read_early, modules_are_built_of_processes,
    passes_keep_shapes, registers_count, registers_wait_and_are_reset,
    the_line_of_a_generated_design, the_list_of_the_counting_thread, the_trace_of_a_design,
    valuations_show_stores, waits_have_frames,
};
pub use modules::{blocks_are_renamed, modules_show_designs};
pub use told::{
    a_list_is_whole, a_reset_that_reads_is_refused, a_schedule_runs, clocks_and_resets_act,
    cycles_are_told, first_answers_are_told, kept_cells_are_told, limits_of_threads_have_places,
    paths_are_told, what_is_past_the_end,
};
