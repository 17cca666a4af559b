//! What a run of a design means, for the whole source language: definitions that other crates cite, each cited here by a law.
#![tactic(auto)]

mod laws;

pub use laws::{
    a_design_at_one_clock_shows_the_same, a_design_without_processes_shows_its_ports,
    nothing_is_shown_alike,
};
