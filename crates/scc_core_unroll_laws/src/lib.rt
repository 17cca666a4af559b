//! Laws of unrolled cores; no code.
#![tactic(auto)]

mod laws;

pub use laws::{
    an_unrolled_core_means_the_same, counters_stand_as_literals, static_values_hold,
    unrolling_keeps_the_meaning,
};
