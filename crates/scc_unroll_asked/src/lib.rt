//! What is asked of cores whose loops are unrolled, and what copies are made of: definitions and laws, apart from the code that unrolls.
#![tactic(auto)]

mod laws;

pub use laws::{values_of_whole_expressions_are_static, whole_cores_are_asked};
