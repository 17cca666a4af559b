//! A file beside those that are joined: an emitted text or a stimulus.
ghost use Rattle.std.specs.Prelude.{◌≡◌, ◌≤◌, length, true};
ghost use Rattle.scc_base.specs.declared.code.Code.TheVariants as code;
ghost use Rattle.scc_drive_errors.specs.Spots.{first_spot};
ghost use Rattle.scc_drive.specs.Stops as stops;
ghost use Rattle.scc_drive.specs.Stops.{IsOfText};
ghost use Rattle.scc_drive_errors.specs.Stops.{StopsAt};
ghost use Rattle.scc_drive.specs.Stages.{Asked, IsFound, IsOfStimulus};
ghost use Rattle.scc_drive_form_sim.specs.Forms.{is_of_text};

use scc_base::{Code, FileFault, Files, NoMemory, Refusal, Text, lost};
use scc_drive_errors::spots::{Spot, spot_within};
use scc_drive_errors::stopped::Stopped;
use scc_tokens::Source;
use std::alloc::Global;

/// How many bytes of a file are asked for: one more than a file may have.
const ASKED_BYTES: u64 = 1_048_577;

/// A file of that name. One of more than 1,048,576 bytes is refused at its first byte.
pub fn ask<F: Files>(alloc: Global, files: &mut F, name: &str) -> Result<Source, Stopped>
    ensures asked { Asked name.now (F.held files.old) (F.misses files.old) (F.misses files.new) (F.faults files.old) (F.faults files.new) result }
    ensures kept { F.held files.new ≡ F.held files.old }
    ensures no_fewer_misses { F.misses files.old ≤ F.misses files.new }
    ensures no_fewer_faults { F.faults files.old ≤ F.faults files.new }
{
    let copy = Text::from_bytes(alloc, name.as_bytes())?;
    match files.read(alloc, name, ASKED_BYTES) {
        Ok(bytes) => found(alloc, copy, bytes.as_slice()),
        Err(FileFault::Missing) => Err(Stopped::Missing(copy)),
        Err(FileFault::Failed) => Err(Stopped::Failed(copy)),
        Err(FileFault::NoMemory) => Err(Stopped::NoMemory),
    }
}

/// What was read by that name.
pub fn found(alloc: Global, name: Text, bytes: &[u8]) -> Result<Source, Stopped>
    requires { length bytes.now ≤ 1048577 }
    ensures { IsFound name bytes.now result }
{
    if bytes.len() as u64 >= ASKED_BYTES {
        return Err(too_long(name));
    }
    let bytes = Text::from_bytes(alloc, bytes)?;
    Ok(Source { name, bytes })
}

fn too_long(name: Text) -> Stopped
    ensures { StopsAt code.FileTooLong (first_spot name) result }
{
    Stopped::Refused {
        code: Code::FileTooLong, // E108
        spot: Spot {
            file: name,
            line: 1,
            column: 1,
        },
        other: None,
    }
}

fn is_of_stimulus(code: Code) -> bool
    ensures { result ≡ stops.is_of_stimulus code }
{
    let number = code.number();
    number == 108 || (801 <= number && number <= 803)
}

/// A refusal of a stimulus.
pub fn refused_stimulus(alloc: Global, stimulus: &Source, refusal: Refusal) -> Stopped
    ensures { IsOfStimulus stimulus.now.name result }
{
    let code = refusal.code;
    if !is_of_stimulus(code) {
        return Stopped::from(lost());
    }
    match spot_within(alloc, stimulus, refusal.place.at) {
        Ok(spot) => Stopped::Refused {
            code,
            spot,
            other: None,
        },
        Err(NoMemory) => Stopped::NoMemory,
    }
}

/// A refusal of an emitted text of another form than one module.
pub fn refused_text(alloc: Global, text: &Source, refusal: Refusal) -> Stopped
    requires { is_of_text refusal.code ≡ true }
    ensures { IsOfText text.now result }
{
    match spot_within(alloc, text, refusal.place.at) {
        Ok(spot) => Stopped::Refused {
            code: refusal.code,
            spot,
            other: None,
        },
        Err(NoMemory) => Stopped::NoMemory,
    }
}
