//! Statements of constructors that make nothing: assignments, pointers, and processes (IEEE 1666-2011, 4.1,
//! and 5.2).
#![tactic(auto)]

mod assigns;
mod frame;
mod locals;
mod points;
mod processes;
mod thing;

pub use assigns::assign;
pub use frame::{Frame, given, location, target, value};
pub use points::point;
pub use processes::{declare, reset, sense};
pub use thing::thing_of;
