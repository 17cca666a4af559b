//! Thin texts: the joined tokens of one module with one combinational method, as the design that they denote.
//!
//! `thin` has `read_design`: the tokens (`thin::token`, `thin::numbers`), their tree (`thin::tree`, `thin::parse`,
//! `halt`), the ports that names mean and their conditions (`thin::resolve`, `thin::index`, `thin::reserved`), and
//! the design (`design`).
#![tactic(auto)]

mod design;
mod halt;
mod thin;

pub use design::{Bitwise, Design, Port, Put, Second};
pub use halt::Halt;
pub use thin::read_design;
