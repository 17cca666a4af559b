//! What modules with instances are together, and their text: definitions that other crates cite, each cited here by a law.
#![tactic(auto)]

mod laws;

pub use laws::{
    blocks_are_at_home_in_objects, modules_show_what_their_flattening_shows,
    two_inverters_are_flattened, two_inverters_are_laid_out, two_inverters_have_their_ports,
};
