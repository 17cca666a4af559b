//! Stimuli of all versions.
ghost use Rattle.std.specs.Prelude.{◌<◌, ◌^◌, length};

use crate::ports::SimPorts;
use scc_base::{Stop, lost};
use scc_trace::{ClockStim, Stim, Version, clock_stimulus, stimulus, version};
use std::alloc::Global;

/// The steps of a stimulus.
#[derive(Drop)]
pub enum Steps {
    /// Of one clock, and the stimulus's version.
    One { version: Version, steps: Stim },
    /// Of several clocks.
    Many(ClockStim),
}

/// The steps of a stimulus for a design with these ports; of several clocks where `many` says so. Refused as E801 to E803; `file`
/// is the text's number in places.
pub fn read_steps(
    alloc: Global,
    file: u32,
    bytes: &[u8],
    ports: &SimPorts,
    many: bool,
) -> Result<Steps, Stop>
    requires { length bytes.now < 2 ^ 32 }
{
    if many {
        let clocks = ports.clocks.as_slice();
        let steps = clock_stimulus(alloc, file, bytes, clocks, ports.inputs.as_slice())?;
        return Ok(Steps::Many(steps));
    }
    let steps = stimulus(alloc, file, bytes, ports.inputs.as_slice())?;
    match version(bytes) {
        Some(version) => Ok(Steps::One { version, steps }),
        None => Err(Stop::from(lost())),
    }
}
