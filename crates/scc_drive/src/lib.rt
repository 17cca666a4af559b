//! The whole program, over files and outputs that are handed in.
//!
//! `command` has `run`; `answer` the output of a command over files, or why there is none; `words` the words of a
//! command; `joining` and `files` the files that it names and those that it asks for later; `compile`, `thin`,
//! `source` and `later` have `compile`, by thin texts, by the stages, or in another form, `sim` and `list`, and
//! what the stages answer; `svsim` and `generated` their commands; `say` what is said on standard error, and with
//! which status.
#![tactic(auto)]

mod answer;
mod command;
mod compile;
mod files;
mod generated;
mod joining;
mod later;
mod laws;
mod say;
mod source;
mod svsim;
mod thin;
mod words;

pub use command::run;
pub use laws::what_a_command_comes_to_is_one;
