//! What the commands write of a design that the stages take: the list of its registers and bounds, its trace on a stimulus, and the
//! line of a generated design.
#![tactic(auto)]

mod generated;
mod list;
mod trace;

pub use generated::generated_line;
pub use list::listed;
pub use trace::{Way, simulated};
