//! Says on the second output why the program does not end with status 0.
ghost use Rattle.std.specs.Prelude.{◌≡◌, ◌≤◌, ◌⊎◌, ℕ, List, IfOk, OnErr};
ghost use Rattle.scc_base.specs.Outside.{AppendsPart, Rose};
ghost use Rattle.scc_drive.specs.Said.{Said, SaysFaults, SaysPart};
ghost use Rattle.scc_drive.specs.Answer.{Tells, stopped_text};
ghost use Rattle.scc_drive_errors.specs.Texts.{output_text};

use scc_base::{NoMemory, Sink, SinkFault, Status, Text, put_all};
use scc_drive_errors::stopped::Stopped;
use scc_drive_errors::texts;
use std::alloc::Global;

/// Ends with status 5, whether or not the text could be written.
#[tactic(auto, using(crate::proofs::Saying::whole))]
pub fn output_failed<E: Sink>(err: &mut E) -> Status
    ensures status { result ≡ 5 }
    ensures parts { AppendsPart (E.taken err.old) (E.taken err.new) output_text }
    ensures no_fewer_faults { E.faults err.old ≤ E.faults err.new }
{
    match put_all(err, texts::output_failed()) {
        Ok(()) => Status::new(5),
        Err(_) => Status::new(5),
    }
}

/// Ends with status 4, or with 5 where its text failed.
#[tactic(auto, using(crate::proofs::Saying::memory_whole, crate::proofs::Saying::memory_part, crate::proofs::Saying::memory_more))]
pub fn no_memory<E: Sink>(err: &mut E) -> Status
    ensures status { (result ≡ 4) ⊎ ((result ≡ 5) × Rose (E.faults err.old) (E.faults err.new)) }
    ensures parts { SaysFaults (E.taken err.old) (E.taken err.new) }
    ensures no_fewer_faults { E.faults err.old ≤ E.faults err.new }
{
    match put_all(err, texts::no_memory()) {
        Ok(()) => Status::new(4),
        Err(SinkFault::Failed) => output_failed(err),
        Err(SinkFault::NoMemory) => Status::new(4),
    }
}

#[tactic(auto, using(crate::proofs::Saying::part_whole, crate::proofs::Saying::part_faults, crate::proofs::Saying::part_output))]
fn say<E: Sink>(err: &mut E, text: &[u8], status: u8) -> Status
    requires { status ≤ 5 }
    ensures said { Said status text.now (E.taken err.old) (E.taken err.new) (E.faults err.old) (E.faults err.new) result }
    ensures parts { SaysPart text.now (E.taken err.old) (E.taken err.new) }
    ensures no_fewer_faults { E.faults err.old ≤ E.faults err.new }
{
    match put_all(err, text) {
        Ok(()) => Status::new(status),
        Err(SinkFault::Failed) => output_failed(err),
        Err(SinkFault::NoMemory) => no_memory(err),
    }
}

fn say_made<E: Sink>(err: &mut E, text: Result<Text, NoMemory>, status: u8) -> Status
    requires { status ≤ 5 }
    ensures said { IfOk text (λ t. Said status t (E.taken err.old) (E.taken err.new) (E.faults err.old) (E.faults err.new) result) }
    ensures memory { OnErr text ((result ≡ 4) ⊎ ((result ≡ 5) × Rose (E.faults err.old) (E.faults err.new))) }
    ensures parts { (said : List ℕ) → IfOk text (λ t. t ≡ said) → SaysPart said (E.taken err.old) (E.taken err.new) }
    ensures no_fewer_faults { E.faults err.old ≤ E.faults err.new }
{
    match text {
        Ok(text) => say(err, text.bytes(), status),
        Err(_) => no_memory(err),
    }
}

/// Says why a command has no output.
pub fn tell<E: Sink>(alloc: Global, err: &mut E, stopped: Stopped) -> Status
    ensures told { Tells stopped (E.taken err.old) (E.taken err.new) (E.faults err.old) (E.faults err.new) result }
    ensures parts { SaysPart (stopped_text stopped) (E.taken err.old) (E.taken err.new) }
    ensures no_fewer_faults { E.faults err.old ≤ E.faults err.new }
{
    match stopped {
        Stopped::BadWords => say(err, texts::bad_words(), 2),
        Stopped::Refused { code, spot, other } => {
            say_made(err, texts::refusal(alloc, code, &spot, &other), 1)
        }
        Stopped::Missing(name) => say_made(err, texts::missing(alloc, name.bytes()), 3),
        Stopped::Failed(name) => say_made(err, texts::failed(alloc, name.bytes()), 3),
        Stopped::NoMemory => no_memory(err),
    }
}
