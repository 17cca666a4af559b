//! How many statements copied bodies have, and how deep they nest, told by functions; no code.
#![tactic(auto)]

mod laws;

pub use laws::{
    a_function_comes_to_what_it_calls, counts_past_limits_are_alike, counts_that_stand_still_tell,
    heights_are_told_by_functions, sizes_are_told_by_functions,
    too_large_is_told_by_counts_that_stand_still, too_large_is_told_by_functions,
};
