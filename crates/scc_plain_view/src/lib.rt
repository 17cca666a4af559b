//! What the trees of plain programs and the designs of construction stand for, as the programs and designs of the definitions; no code.
#![tactic(auto)]

mod laws;

pub use laws::{a_bit_is_one_of_its_variable, a_design_is_its_objects, a_program_is_its_tree};
