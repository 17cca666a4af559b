//! Reads the text of modules that hold instances of one another (IEEE 1800-2017, section 23.3).
//!
//! `raw` reads the text by the readers of `scc_svread_raw`; `checked`, `sized` and `connected` look for what is
//! wrong in it; `made` makes the modules; `reading` has `read_hier` and `read_flattened`; `refusals` looks at what
//! is refused.
#![tactic(auto)]

mod checked;
mod connected;
mod made;
mod raw;
mod reading;
mod refusals;
mod sized;

pub use reading::{read_flattened, read_hier};
