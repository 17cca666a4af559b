//! Arrays that can be memories, and what modules with memories do: definitions that other crates cite, each cited here by a law.
#![tactic(auto)]

mod laws;

pub use laws::{
    a_memory_is_read_and_written, an_edge_chooses_an_element, arrays_are_found_by_name,
    arrays_that_a_reset_clears_are_not_taken, buffers_are_taken, memories_are_written_as_text,
    modules_with_memories_are_right, modules_with_memories_show_designs,
};
