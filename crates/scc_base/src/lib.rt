//! What every other crate stands on: places and refusals, lists and texts, and the outside as traits.
#![tactic(auto)]

mod boxed;
mod code;
mod entries;
mod grow;
mod list;
mod memory_files;
mod memory_sinks;
mod names;
mod no_memory;
mod outside;
mod path;
mod plan;
mod refusal;
mod status;
mod tally;
mod text;

pub use boxed::Boxed;
pub use code::Code;
pub use grow::push;
pub use list::List;
pub use memory_files::{CalmFiles, MemFiles};
pub use memory_sinks::{CalmSink, MemSink};
pub use names::{Name, Names};
pub use no_memory::{NoMemory, lost};
pub use outside::{FileFault, Files, Sink, SinkFault, put_all};
pub use path::{Path, PathPart};
pub use refusal::{Place, Refusal, Stop};
pub use status::Status;
pub use tally::Tally;
pub use text::Text;
