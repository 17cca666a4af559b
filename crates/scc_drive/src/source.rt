//! `list` and `sim`: the commands that look at a design.
ghost use Rattle.std.specs.Prelude.{◌≡◌, ◌≤◌, ◌<◌, ◌+◌, length, IfErr};
ghost use Rattle.scc_grammar.specs.Claim.{IsReadFile};
ghost use Rattle.scc_drive.specs.Answer.{AnswersBy};
ghost use Rattle.scc_drive.specs.CommandOutcome as outcome;
ghost use Rattle.scc_drive.specs.CommandOutcome.{RootsOutcome};
ghost use Rattle.scc_drive.specs.Outcome.{listing, simulating};
ghost use Rattle.scc_drive.specs.Stages.{Gives, Asking, ReadOutcome, IsOfStimulus};
ghost use Rattle.scc_drive_spec.specs.Words.{word_at, roots_of};

use crate::files::{ask, refused_stimulus};
use crate::joining::{Read, read_files};
use crate::later::front_at;
use crate::words::word;
use scc_base::{Files, NoMemory, Stop, Text};
use scc_drive_commands as commands;
use scc_drive_commands::Way;
use scc_drive_errors::stopped::Stopped;
use scc_drive_stages::Front;
use scc_drive_words::SimWay;
use scc_tokens::Source;
use std::alloc::Global;

/// The list of the class that word 1 names, of so many files from word 2 on.
pub fn listed<F: Files>(
    alloc: Global,
    words: &[String],
    count: usize,
    files: &mut F,
) -> Result<Text, Stopped>
    requires some { 0 < count }
    requires few { count ≤ 64 }
    requires within { count + 2 ≤ length words.now }
    ensures { AnswersBy (RootsOutcome listing (word_at words.now 1) (roots_of words.now count)) (word_at words.now 1) (F.held files.old) (F.misses files.old) (F.misses files.new) (F.faults files.old) (F.faults files.new) result }
{
    let read = read_files(alloc, words, count, files)?;
    list_of(alloc, word(words, 1).as_bytes(), &read)
}

fn list_of(alloc: Global, top: &[u8], read: &Read) -> Result<Text, Stopped>
    requires { IsReadFile read.now.joined read.now.tree }
    ensures { Gives (ReadOutcome listing top.now read.now) top.now result }
{
    let front = front_at(alloc, top, read, false)?;
    match commands::listed(alloc, &read.names, &front) {
        Ok(text) => Ok(text),
        Err(NoMemory) => Err(Stopped::NoMemory),
    }
}

fn way_of(way: SimWay) -> Way {
    match way {
        SimWay::Whole => Way::Trace(None),
        SimWay::Order(number) => Way::Trace(Some(number)),
        SimWay::Migrate => Way::Stimulus,
        SimWay::Clocks => Way::ClocksTrace,
    }
}

fn has_clocks(way: SimWay) -> bool
    ensures { result ≡ outcome.has_clocks way }
{
    match way {
        SimWay::Whole => false,
        SimWay::Order(_) => false,
        SimWay::Migrate => false,
        SimWay::Clocks => true,
    }
}

/// What `sim` writes of the class that word 1 names, of so many files from word 2 on, and of the stimulus that the word of the number
/// `stim` names.
pub fn simulated<F: Files>(
    alloc: Global,
    words: &[String],
    count: usize,
    stim: usize,
    way: SimWay,
    files: &mut F,
) -> Result<Text, Stopped>
    requires some { 0 < count }
    requires few { count ≤ 64 }
    requires within { count + 2 ≤ length words.now }
    ensures { AnswersBy (RootsOutcome (simulating (outcome.has_clocks way) (word_at words.now stim)) (word_at words.now 1) (roots_of words.now count)) (word_at words.now 1) (F.held files.old) (F.misses files.old) (F.misses files.new) (F.faults files.old) (F.faults files.new) result }
{
    let read = read_files(alloc, words, count, files)?;
    let top = word(words, 1).as_bytes();
    run_on(alloc, top, &read, word(words, stim), way, files)
}

fn run_on<F: Files>(
    alloc: Global,
    top: &[u8],
    read: &Read,
    name: &str,
    way: SimWay,
    files: &mut F,
) -> Result<Text, Stopped>
    requires { IsReadFile read.now.joined read.now.tree }
    ensures { Asking (ReadOutcome (simulating (outcome.has_clocks way) name.now) top.now read.now) top.now (F.held files.old) (F.misses files.old) (F.misses files.new) (F.faults files.old) (F.faults files.new) result }
{
    let front = front_at(alloc, top, read, has_clocks(way))?;
    let stimulus = ask(alloc, files, name)?;
    trace_of(alloc, read, &front, way, &stimulus)
}

fn trace_of(
    alloc: Global,
    read: &Read,
    front: &Front,
    way: SimWay,
    stimulus: &Source,
) -> Result<Text, Stopped>
    requires { length stimulus.now.bytes ≤ 1048576 }
    ensures { IfErr result (IsOfStimulus stimulus.now.name) }
{
    let bytes = stimulus.bytes.bytes();
    match commands::simulated(alloc, &read.names, front, way_of(way), 0, bytes) {
        Ok(text) => Ok(text),
        Err(Stop::Refused(refusal)) => Err(refused_stimulus(alloc, stimulus, refusal)),
        Err(Stop::NoMemory) => Err(Stopped::NoMemory),
    }
}
