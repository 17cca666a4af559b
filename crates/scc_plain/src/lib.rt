//! The plain program of a source: names are looked up, templates and constants are worked out, and what breaks a rule of the
//! language is refused.
//!
//! `stage` has `plain` and the order of what is looked at: `duplicates` over the whole text, `top`, the walk over
//! an instance (`instance`, `outside`), and `last`, calls by a class's name and recursion, over `graph`. `write`
//! has the program that is written in the end, at which `scc_plain_look` looks.
#![tactic(auto)]

mod duplicates;
mod graph;
mod instance;
mod last;
mod outside;
mod stage;
mod top;
mod write;

pub use stage::plain;
