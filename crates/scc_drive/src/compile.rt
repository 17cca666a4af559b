//! `compile`: the text of a module, or of another form.
ghost use Rattle.std.specs.Prelude.{◌≡◌, ◌≤◌, ◌<◌, ◌+◌, length, false, IfOk, IfErr};
ghost use Rattle.scc_drive_stages.specs.Emitted.{IsEmitted};
ghost use Rattle.scc_thin_module.specs.Identifiers.{AreIdentifiers};
ghost use Rattle.scc_grammar.specs.Claim.{IsReadFile};
ghost use Rattle.scc_drive.specs.Answer.{AnswersBy};
ghost use Rattle.scc_drive.specs.CommandOutcome as outcome;
ghost use Rattle.scc_drive.specs.CommandOutcome.{RootsOutcome, task_of};
ghost use Rattle.scc_drive.specs.Outcome.{compiling, forming};
ghost use Rattle.scc_drive.specs.Stages.{Gives, ReadOutcome};
ghost use Rattle.scc_drive.specs.Stops.{IsLater};
ghost use Rattle.scc_drive_spec.specs.Words.{word_at, roots_of};

use crate::joining::{Read, read_files};
use crate::later::{front_at, refused_later};
use crate::thin::printed;
use crate::words::word;
use scc_base::{Files, NoMemory, Stop, Text};
use scc_drive_errors::stopped::Stopped;
use scc_drive_forms::{TextForm, form_text, has_clocks};
use scc_drive_stages::compile;
use scc_drive_words::Form;
use scc_thin::{Halt, read_design};
use std::alloc::Global;

/// The text of the module of the class that word 1 names, of so many files from word 2 on.
pub fn compiled<F: Files>(
    alloc: Global,
    words: &[String],
    count: usize,
    form: Form,
    files: &mut F,
) -> Result<Text, Stopped>
    requires some { 0 < count }
    requires few { count ≤ 64 }
    requires within { count + 2 ≤ length words.now }
    ensures { AnswersBy (RootsOutcome (task_of form) (word_at words.now 1) (roots_of words.now count)) (word_at words.now 1) (F.held files.old) (F.misses files.old) (F.misses files.new) (F.faults files.old) (F.faults files.new) result }
{
    let read = read_files(alloc, words, count, files)?;
    formed(alloc, word(words, 1).as_bytes(), &read, form)
}

fn formed(alloc: Global, top: &[u8], read: &Read, form: Form) -> Result<Text, Stopped>
    requires read { IsReadFile read.now.joined read.now.tree }
    requires identifiers { AreIdentifiers read.now.names }
    ensures { Gives (ReadOutcome (task_of form) top.now read.now) top.now result }
{
    match form_of(form) {
        Some(form) => in_form(alloc, top, read, form),
        None => whole(alloc, top, read),
    }
}

fn form_of(form: Form) -> Option<TextForm>
    ensures { result ≡ outcome.form_of form }
{
    match form {
        Form::Whole => None,
        Form::Hier => Some(TextForm::Hier),
        Form::Clocks => Some(TextForm::Clocks),
        Form::Memory => Some(TextForm::Memory),
    }
}

fn in_form(alloc: Global, top: &[u8], read: &Read, form: TextForm) -> Result<Text, Stopped>
    requires { IsReadFile read.now.joined read.now.tree }
    ensures { Gives (ReadOutcome (forming form) top.now read.now) top.now result }
{
    let front = front_at(alloc, top, read, has_clocks(form))?;
    match form_text(alloc, &read.names, top, front, form) {
        Ok(text) => Ok(text),
        Err(NoMemory) => Err(Stopped::NoMemory),
    }
}

// By what is proved of thin texts where the files are one, else by the later stages.
fn whole(alloc: Global, top: &[u8], read: &Read) -> Result<Text, Stopped>
    requires read { IsReadFile read.now.joined read.now.tree }
    requires identifiers { AreIdentifiers read.now.names }
    ensures { Gives (ReadOutcome compiling top.now read.now) top.now result }
{
    match read_design(alloc, top, &read.names, read.joined.tokens.as_slice()) {
        Ok(design) => printed(alloc, &design),
        Err(Halt::Other) => compiled_later(alloc, top, read),
        Err(Halt::Memory) => Err(Stopped::NoMemory),
    }
}

// The text of the module of a file of the grammar.
fn compiled_later(alloc: Global, top: &[u8], read: &Read) -> Result<Text, Stopped>
    ensures text { IfOk result (λ t. IsEmitted false top.now t) }
    ensures stopped { IfErr result (IsLater false read.now.sources) }
{
    match compile(alloc, &read.names, &read.tree, top) {
        Ok(text) => Ok(text),
        Err(Stop::Refused(refusal)) => Err(refused_later(
            alloc,
            false,
            read.sources.as_slice(),
            refusal,
        )),
        Err(Stop::NoMemory) => Err(Stopped::NoMemory),
    }
}
