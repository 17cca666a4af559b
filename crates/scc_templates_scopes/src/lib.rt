//! What the evaluation of templates goes by: declarations by their names, types and arguments, chains of instances, and
//! operators on constants (C++, [basic.lookup], [temp], [expr.const]).
//!
//! `entry` says what a name means, `index` puts the declarations of a file by name, once, `layers` has locals, `ty`
//! types and arguments, `chain` the chains of instances, `kinds`, `constant`, `operator` and `join` constants and
//! operators on them, `laws` a law.
#![tactic(auto)]

pub mod chain;
pub mod constant;
pub mod entry;
pub mod index;
pub mod join;
pub mod kinds;
pub mod laws;
pub mod layers;
pub mod operator;
pub mod refuse;
pub mod ty;
