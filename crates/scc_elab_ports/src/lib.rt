//! Ports while construction runs: the module around each, their bindings, and the ends of chains of bindings (IEEE 1666-2011, 5.12).
#![tactic(auto)]

mod binding;
mod home;
mod roots;
mod unbound;

pub use binding::{bind_at, is_top};
pub use home::{home_at, home_of, path_of};
pub use roots::{is_top_input, root_of};
pub use unbound::check_ports;
