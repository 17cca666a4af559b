//! What the stages after the grammar answer, as a command says it.
ghost use Rattle.std.specs.Prelude.{◌≡◌, true, IfOk, IfErr};
ghost use Rattle.scc_drive_stages.specs.Refusals.{is_later};
ghost use Rattle.scc_drive_errors.specs.Spots.{IsOtherOf};
ghost use Rattle.scc_drive.specs.Stops.{IsLater};

use crate::joining::Read;
use scc_base::{NoMemory, Place, Refusal, Stop};
use scc_drive_errors::spots::{Spot, locate_in};
use scc_drive_errors::stopped::Stopped;
use scc_drive_stages::{Front, front_of, name_of};
use scc_tokens::Source;
use std::alloc::Global;

/// A refusal of a stage after the grammar.
pub fn refused_later(alloc: Global, many: bool, sources: &[Source], refusal: Refusal) -> Stopped
    requires { is_later many refusal.code ≡ true }
    ensures { IsLater many sources.now result }
{
    let code = refusal.code;
    let Ok(spot) = locate_in(alloc, sources, refusal.place) else {
        return Stopped::NoMemory;
    };
    let Ok(other) = locate_other(alloc, sources, refusal.other) else {
        return Stopped::NoMemory;
    };
    Stopped::Refused { code, spot, other }
}

fn locate_other(
    alloc: Global,
    sources: &[Source],
    place: Option<Place>,
) -> Result<Option<Spot>, NoMemory>
    ensures { IfOk result (IsOtherOf sources.now) }
{
    match place {
        Some(place) => {
            let spot = locate_in(alloc, sources, place)?;
            Ok(Some(spot))
        }
        None => Ok(None),
    }
}

/// What the stages make of the class `top`, with several clocks where `many` says so.
pub fn front_at(alloc: Global, top: &[u8], read: &Read, many: bool) -> Result<Front, Stopped>
    ensures { IfErr result (IsLater many read.now.sources) }
{
    let name = name_of(&read.names, top);
    match front_of(alloc, &read.tree, name, many) {
        Ok(front) => Ok(front),
        Err(Stop::Refused(refusal)) => Err(refused_later(
            alloc,
            many,
            read.sources.as_slice(),
            refusal,
        )),
        Err(Stop::NoMemory) => Err(Stopped::NoMemory),
    }
}
