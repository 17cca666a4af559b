//! Readers of what declarations have beside statements.
#![tactic(auto)]

pub mod class_head;
pub mod enumeration;
pub mod front;
pub mod function;
pub mod initialisers;
pub mod parameters;
pub mod template;
