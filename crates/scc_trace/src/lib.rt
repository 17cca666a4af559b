//! Stimuli and traces as texts, and the source of generated designs.
//!
//! `stim` has ports and steps; `steps` has `stimulus` for texts of versions 1 and 2, `clock_steps` has
//! `clock_stimulus` for version 3. Both go over lines and words by `span`, read the first lines by `head` and the
//! values of a line by `found` and `value`; `refuse` makes refusals. `written` has `stim_text`, `trace` has
//! `trace_line`, over `hex` and `fitting`; `generated` has `generate`.
#![tactic(auto)]

mod clock_steps;
mod fitting;
mod found;
mod generated;
mod head;
mod hex;
mod laws;
mod names;
mod refuse;
mod span;
mod steps;
mod stim;
mod trace;
mod value;
mod written;

pub use clock_steps::clock_stimulus;
pub use generated::generate;
pub use head::version;
pub use laws::a_written_stimulus_reads_back;
pub use steps::stimulus;
pub use stim::{ClockStep, ClockStim, Stim, StimPort, StimStep, Version};
pub use trace::trace_line;
pub use written::stim_text;
