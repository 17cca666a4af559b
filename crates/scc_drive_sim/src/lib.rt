//! The commands of the source side as functions: a design's trace for a stimulus, and the list of its registers and bounds.
//!
//! `simulation` has `Simulation`, `steps` the stimulus, `ports` the ports, `order` other orders of processes,
//! `bounds` and `constants` bounds and constants, `list` lists.
#![tactic(auto)]

mod bounds;
mod constants;
mod list;
mod order;
mod ports;
mod simulation;
mod steps;

pub use bounds::segments_size;
pub use constants::constants_of;
pub use list::list_text;
pub use ports::SimPorts;
pub use scc_core_bounds::{Size, size_of, step_bounds};
pub use simulation::Simulation;
pub use steps::{Steps, read_steps};
