//! The text of emitted modules (IEEE 1800-2017): printing it.
#![tactic(auto)]

mod block;
mod digits;
mod expr;
mod fixed;
mod header;
mod keyword;
mod laws;
mod module;
mod part;
pub mod pieces;
mod spelling;
mod split;
mod stmt;
mod task;

pub use keyword::{begins_reserved_word, is_reserved_word};
pub use laws::a_module_has_one_text;
pub use module::print;
