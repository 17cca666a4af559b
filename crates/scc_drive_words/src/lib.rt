//! The words of all commands.
//!
//! `command` has `Command` and `command_of`, `options` and `classes` what words are; `parsed` reads them by `clap`.
#![tactic(auto)]

mod classes;
mod command;
mod options;
mod parsed;

pub use command::{Command, Form, SimWay, SvForm, command_of};
pub use parsed::read_command;
