//! The design that is left when construction has run (IEEE 1666-2011, 4.1): what pointers lead to, roots of ports, processes.
#![tactic(auto)]

mod design;
mod objects;
mod paths;
mod processes;
mod reached;

pub use design::design_of;
pub use objects::{node_left, objects_of, targets_of};
pub use paths::{kept_path, path_in};
pub use processes::{process_of, processes_of};
pub use reached::{Reached, reached_by, reached_in};
