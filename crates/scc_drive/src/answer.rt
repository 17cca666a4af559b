//! What a command answers over files.
ghost use Rattle.std.specs.Prelude.{length};
ghost use Rattle.scc_drive.specs.Answer.{Answers, AnswersBy};
ghost use Rattle.scc_drive.specs.CommandOutcome.{CommandOutcomeBy};
ghost use Rattle.scc_drive_spec.specs.Words.{word_at};
ghost use Rattle.scc_drive_words.specs.Within.{Within};

use crate::compile::compiled;
use crate::generated::generated;
use crate::source::{listed, simulated};
use crate::svsim::svsim;
use scc_base::{Files, Text};
use scc_drive_errors::stopped::Stopped;
use scc_drive_words::{Command, read_command};
use std::alloc::Global;

/// The output of a command, or why there is none.
pub fn answer<F: Files>(alloc: Global, words: &[String], files: &mut F) -> Result<Text, Stopped>
    ensures answers { Answers words.now (F.held files.old) (F.misses files.old) (F.misses files.new) (F.faults files.old) (F.faults files.new) result }
{
    let Ok(command) = read_command(alloc, words) else {
        return Err(Stopped::NoMemory);
    };
    match command {
        Some(command) => done(alloc, words, command, files),
        None => Err(Stopped::BadWords),
    }
}

fn done<F: Files>(
    alloc: Global,
    words: &[String],
    command: Command,
    files: &mut F,
) -> Result<Text, Stopped>
    requires { Within command (length words.now) }
    ensures answers { AnswersBy (CommandOutcomeBy command words.now) (word_at words.now 1) (F.held files.old) (F.misses files.old) (F.misses files.new) (F.faults files.old) (F.faults files.new) result }
{
    match command {
        Command::Compile { files: count, form } => compiled(alloc, words, count, form, files),
        Command::List { files: count } => listed(alloc, words, count, files),
        Command::Sim {
            files: count,
            stim,
            way,
        } => simulated(alloc, words, count, stim, way, files),
        Command::Svsim { stim, form } => svsim(alloc, words, stim, form, files),
        Command::Gen { stages, source } => generated(alloc, stages, source),
    }
}
