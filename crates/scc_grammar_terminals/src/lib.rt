//! The terminals of the grammar: what a token is to it, and readers of single keywords, punctuators and names.
#![tactic(auto)]

pub mod halt;
mod macros;
pub mod marks;
pub mod next;
pub mod nodes;
pub mod part;
pub mod reader;
pub mod table;
pub mod terminal;
pub mod view;
pub mod words;
