//! What a plain program means, and the design that its constructors leave: definitions that other crates cite, each cited here by a law.
#![tactic(auto)]

mod laws;

pub use laws::{
    a_method_with_calls_runs, a_parameter_leads_to_a_local, a_pointer_leads_past_the_end,
    a_port_has_one_binding, a_start_gives_words_in_construction_order, a_top_has_no_parameter,
    an_element_leads_to_a_vector, constructors_and_processes_agree,
    constructors_and_processes_have_the_same_values, nothing_is_held_at_first,
    pointers_lead_to_what_is_made, the_index_of_a_bit_comes_first, the_top_is_elaborated,
    the_top_is_made, two_clocks_are_refused_unless_allowed,
};
