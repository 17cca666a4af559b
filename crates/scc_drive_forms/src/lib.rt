//! The forms of a module's text that the commands name by a word: a module for each module object, several clocks, memories.
//!
//! `form` has `form_text`; `hier`, with `plans` and `found`, a module for each module object, read back and made
//! one module again; `clocks` a module with several clocks; `memory` one with memories, which is made one without
//! them again; `variables` variables by name.
#![tactic(auto)]

mod clocks;
mod form;
mod found;
mod hier;
mod memory;
mod plans;
mod variables;

pub use form::{TextForm, form_text, has_clocks};
