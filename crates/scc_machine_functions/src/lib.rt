//! Flat code of a program's functions, in which names are slots.
//!
//! A function's code is made when it is first entered: `walk` and `statement` have statements, `value`, `convert`,
//! `locate` and `target` expressions and locations, `layout` where things lie.
#![tactic(auto)]

mod code;
mod coder;
mod convert;
mod layout;
mod locate;
mod statement;
mod target;
mod value;
mod walk;
mod way;

pub use code::coded;
pub use layout::{Layout, member_of, plus, product};
