//! What stops where files are joined and read.
ghost use Rattle.scc_drive_errors.specs.Stops.{Stops, StoppedBy};

use crate::spots::locate;
use crate::stopped::Stopped;
use scc_base::{Code, NoMemory, Place, Refusal, Stop};
use scc_tokens::{JoinFault, Source};
use std::alloc::Global;

/// By what joining stops.
pub fn stopped_by(alloc: Global, sources: &[Source], fault: JoinFault) -> Stopped
    ensures { StoppedBy sources.now fault result }
{
    match fault {
        JoinFault::Stop(Stop::Refused(Refusal { code, place, .. })) => {
            refused(alloc, sources, place, code)
        }
        JoinFault::Stop(Stop::NoMemory) => Stopped::NoMemory,
        JoinFault::Missing(name) => Stopped::Missing(name),
        JoinFault::Failed(name) => Stopped::Failed(name),
    }
}

/// A refusal at a place of the files that were read.
pub fn refused(alloc: Global, sources: &[Source], place: Place, code: Code) -> Stopped
    ensures { Stops sources.now place code result }
{
    match locate(alloc, sources, place) {
        Ok(spot) => Stopped::Refused {
            code,
            spot,
            other: None,
        },
        Err(NoMemory) => Stopped::NoMemory,
    }
}
