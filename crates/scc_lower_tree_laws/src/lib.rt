//! Laws of lowering over the trees of a core: what stands in an expression is lowered one behind the other, each node by its rule.
#![tactic(auto)]

mod laws;

pub use laws::{
    elements_are_read_as_they_are_seen, indices_are_kept, literals_are_sound,
    locations_are_read_where_they_are_found, operators_become_text, reads_become_text,
    what_expressions_become_gives_their_values,
};
