//! Laws of lowering: which text and code show what expressions and statements of a core do.
#![tactic(auto)]

mod laws;

pub use laws::{
    an_element_is_lowered_to_a_choice, assignments_are_lowered,
    bits_at_unknown_indices_are_written, bits_of_values_are_read, cells_are_written,
    concatenations_are_lowered, elements_are_read_by_halves, elements_are_written_in_arms,
    indices_stand_in_variables, literals_and_conversions_are_lowered, locations_are_read,
    lowered_expressions_give_their_values, lowered_expressions_stand_one_behind_the_other,
    lowered_statements_leave_what_they_leave, lowered_statements_may_leave_more,
    operators_and_choices_are_lowered, picks_take_bits, statements_are_lowered,
    what_is_known_is_a_number,
};
