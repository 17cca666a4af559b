//! Where a place stands in its file, as a refusal says it.
ghost use Rattle.std.specs.Prelude.{◌≡◌, ◌≤◌, ◌<◌, ◌^◌, length, take, IfOk, Some, true, ◌∷◌, []};
ghost use Rattle.scc_drive_errors.specs.Spots.{moved, position_at, spot_of, IsPlaceOf, IsSpotOf};
ghost use Rattle.scc_drive_errors.specs.Spots as spots;

use scc_base::{NoMemory, Place, Text, lost};
use scc_tokens::Source;
use std::alloc::Global;

/// A place by its file's name, its line and its column, both from 1.
#[derive(Drop)]
pub struct Spot {
    pub file: Text,
    pub line: usize,
    pub column: usize,
}

// The line and the column after these bytes.
fn behind(front: &[u8]) -> (usize, usize)
    ensures { (result.0, result.1) ≡ moved 1 1 front.now }
{
    let (mut line, mut column) = (1, 1);
    for b in front {
        if *b == b'\n' {
            line += 1;
            column = 1;
        } else {
            column += 1;
        }
    }
    (line, column)
}

fn position(bytes: &[u8], at: u32) -> (usize, usize)
    ensures { (result.0, result.1) ≡ position_at bytes.now at }
{
    let end = bytes.len().min(at as usize);
    behind(&bytes[..end])
}

/// Where a byte of a file stands.
pub fn spot_in(alloc: Global, source: &Source, at: u32) -> Result<Spot, NoMemory>
    ensures spot { IfOk result (λ s. s ≡ spots.spot_in (Some source.now) at) }
{
    let file = Text::from_bytes(alloc, source.name.bytes())?;
    let (line, column) = position(source.bytes.bytes(), at);
    Ok(Spot { file, line, column })
}

/// Where a byte of a file stands, or its end.
pub fn spot_within(alloc: Global, source: &Source, at: u32) -> Result<Spot, NoMemory>
    ensures spot { IfOk result (IsSpotOf (source.now ∷ [])) }
{
    if at as usize > source.bytes.bytes().len() {
        return Err(lost());
    }
    spot_in(alloc, source, at)
}

/// Where a place stands.
pub fn locate(alloc: Global, sources: &[Source], place: Place) -> Result<Spot, NoMemory>
    ensures spot { IfOk result (λ s. s ≡ spot_of sources.now place) }
{
    match sources.get(place.file as usize) {
        Some(source) => spot_in(alloc, source, place.at),
        None => Ok(Spot {
            file: Text::new(alloc),
            line: 1,
            column: 1,
        }),
    }
}

fn is_place_of(sources: &[Source], place: Place) -> bool
    ensures { result ≡ true → IsPlaceOf sources.now place }
{
    match sources.get(place.file as usize) {
        Some(source) => place.at as usize <= source.bytes.bytes().len(),
        None => false,
    }
}

/// Where a place of these files stands.
pub fn locate_in(alloc: Global, sources: &[Source], place: Place) -> Result<Spot, NoMemory>
    ensures spot { IfOk result (IsSpotOf sources.now) }
{
    if !is_place_of(sources, place) {
        return Err(lost());
    }
    locate(alloc, sources, place)
}
