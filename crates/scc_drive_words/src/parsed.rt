//! Words by clap.
ghost use Rattle.std.specs.Prelude.{◌≡◌, IfOk, IfSome, length, map, string_bytes};
ghost use Rattle.scc_drive_words.specs.Commands.{command_of};
ghost use Rattle.scc_drive_words.specs.Within.{Within};

use crate::command::{Command, command_of};
use clap::{Arg, ArgAction, ArgMatches, Command as Parser};
use scc_base::{NoMemory, lost};
use std::alloc::Global;

// How an argument is written: as a word, as any number of words, as an option with a value, or as a flag.
#[derive(Clone, Copy)]
enum Argument {
    Word,
    Words,
    Value,
    Flag,
}

const ARGUMENTS: [(&str, Argument); 10] = [
    ("ACTION", Argument::Word),
    ("TOP", Argument::Word),
    ("FILE", Argument::Words),
    ("stim", Argument::Value),
    ("order", Argument::Value),
    ("source", Argument::Flag),
    ("migrate", Argument::Flag),
    ("hier", Argument::Flag),
    ("clocks", Argument::Flag),
    ("memory", Argument::Flag),
];

fn clap_argument<'a>(alloc: Global, name: &'a str, argument: Argument) -> Arg<'a> {
    let arg = Arg::new(alloc, name);
    match argument {
        Argument::Word => arg.required(true).action(ArgAction::Set),
        Argument::Words => arg.num_args(0..).action(ArgAction::Append),
        Argument::Value => arg.long(name).action(ArgAction::Set),
        Argument::Flag => arg.long(name).action(ArgAction::SetTrue),
    }
}

// One command without subcommands.
fn parser<'a>(alloc: Global) -> Result<Parser<'a>, NoMemory> {
    let mut parser = Parser::new(alloc, "scc")
        .no_binary_name(true)
        .disable_help_flag(true)
        .disable_version_flag(true);
    for (name, argument) in ARGUMENTS {
        parser = parser.arg(clap_argument(alloc, name, argument))?;
    }
    Ok(parser)
}

// Whether the stimulus is the word of that number.
fn is_stim(m: &ArgMatches<'_>, words: &[String], stim: usize) -> bool {
    match (m.get_str("stim"), words.get(stim)) {
        (Some(a), Some(b)) => a == b.as_str(),
        _ => false,
    }
}

// Whether clap reads the words as the command says.
fn agrees(m: &ArgMatches<'_>, words: &[String], command: Command) -> bool {
    match command {
        Command::Sim { stim, .. } => is_stim(m, words, stim),
        Command::Svsim { stim, .. } => is_stim(m, words, stim),
        Command::Gen { source, .. } => m.get_flag("source") == source,
        Command::Compile { .. } => true,
        Command::List { .. } => true,
    }
}

/// The command that words make; None where they break the rules on words. Clap reads words that keep the rules, and takes all
/// such words.
#[tactic(auto, using(crate::proofs::Counted::within_words))]
pub fn read_command(alloc: Global, words: &[String]) -> Result<Option<Command>, NoMemory>
    ensures value { IfOk result (λ c. c ≡ command_of (map string_bytes words.now)) }
    ensures within { IfOk result (λ c. IfSome c (λ d. Within d (length words.now))) }
{
    let Some(command) = command_of(words) else {
        return Ok(None);
    };
    match parser(alloc)?.try_get_matches_from(words) {
        Ok(m) => {
            if agrees(&m, words, command) {
                Ok(Some(command))
            } else {
                Err(lost())
            }
        }
        Err(_) => Err(NoMemory),
    }
}
