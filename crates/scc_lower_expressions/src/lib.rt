//! Expressions and locations of the core as text, with the temporaries of indices.
#![tactic(auto)]

pub mod built;
pub mod convert;
pub mod expr;
pub mod index;
pub mod known;
mod laws;
pub mod lowering;
pub mod operator;
pub mod place;
pub mod read;
pub mod select;
pub mod tree;

pub use laws::{
    choices_answer_on_lowered_operands, conversions_keep_numbers,
    operators_answer_on_lowered_operands, reads_give_the_words_of_cells,
};
