//! What lowering means for texts, words and operators: definitions and laws, which the code of `scc_lower` meets.
#![tactic(auto)]

mod laws;

pub use laws::{
    bits_give_their_words, conversions_give_converted_words, names_are_identifiers,
    names_have_no_double_mark, names_tell_their_parts, operators_give_their_answers,
    operators_of_one_operand_give_their_answers,
};
