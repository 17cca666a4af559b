//! Laws of copied bodies; no code.
#![tactic(auto)]

mod laws;

pub use laws::{
    a_cell_stands_at_its_name, a_copied_core_is_named, a_copied_process_means_the_same,
    a_counter_behind_a_pointer_does_not_count, a_number_leads_back, a_static_value_holds,
    a_worked_method_is_sound, an_object_stays, an_object_that_is_not_refused_stays,
    an_untyped_value_differs, numbers_lead_home, the_worked_program_means_the_same,
    what_is_inlined_means_the_same,
};
