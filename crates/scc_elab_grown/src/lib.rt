//! What construction has made so far: objects, what they hold, bindings, vectors and processes, within the limits (IEEE 1666-2011,
//! 4.1: elaboration).
#![tactic(auto)]

mod bounds;
mod grown;
mod objects;
mod records;
mod turns;

pub use bounds::{BoundTo, Bounds, News};
pub use grown::{Grown, VectorAt};
pub use objects::{Node, Object, Objects};
pub use records::{Item, Record, Records, ResetItem};
pub use turns::Turns;
