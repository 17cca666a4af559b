//! How many elements stand under indices that aren't static, for the limit on them (E605).
//!
//! `elements` counts them in an expression, `sum` (`index_sum`) over the live parts of methods and the segments of threads.
#![tactic(auto)]

mod elements;
mod laws;
mod sum;

pub use laws::{
    elements_are_those_of_patterns, elements_of_a_core_are_those_of_its_program,
    elements_of_statements_are_those_of_code,
};
pub use sum::{index_sum, index_sum_known};
