//! Emitted text as the module that it says (IEEE 1800-2017).
//!
//! `reading` has `read` and `read_many`; `module` has `module_of`, with `tree` for expressions and statements and
//! `names` for variables by their names.
#![tactic(auto)]

mod laws;
mod module;
mod names;
mod reading;
mod tree;

pub use laws::{
    a_module_is_read_as_it_is_written, a_text_is_one_module, a_text_with_nothing_wrong_is_sound,
    nothing_is_wrong_in_a_sound_module, walks_count_the_bytes, what_is_written_says_which_module,
};
pub use module::module_of;
pub use reading::{read, read_many};
