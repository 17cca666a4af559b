//! `svsim`: the trace of an emitted text on a stimulus.
ghost use Rattle.std.specs.Prelude.{◌≡◌, ◌≤◌, ℕ, List, true, false, length, IfOk, IfErr, Some};
ghost use Rattle.scc_base.specs.declared.code.Code.TheVariants as code;
ghost use Rattle.scc_drive_form_sim.specs.Forms.{CanRun};
ghost use Rattle.scc_svread.specs.Read.{ReadAs};
ghost use Rattle.scc_drive_errors.specs.declared.stopped.Stopped.TheVariants as stopped;
ghost use Rattle.scc_drive.specs.Answer.{AnswersBy};
ghost use Rattle.scc_drive.specs.CommandOutcome as outcome;
ghost use Rattle.scc_drive.specs.CommandOutcome.{TextsOutcome, outcome_of_stimulus};
ghost use Rattle.scc_drive_errors.specs.Spots as spots;
ghost use Rattle.scc_drive.specs.Stages.{Asked, Gives, IsHeld, IsNoModule, IsOfStimulus};
ghost use Rattle.scc_drive.specs.Stops.{IsOfText};
ghost use Rattle.scc_drive_errors.specs.Stops.{StopsAt, StoppedIn};
ghost use Rattle.scc_drive_spec.specs.Words.{word_at};

use crate::files::{ask, found, refused_stimulus, refused_text};
use crate::words::word;
use scc_base::{Code, Files, NoMemory, Stop, Text};
use scc_drive_errors::spots::spot_in;
use scc_drive_errors::stopped::Stopped;
use scc_drive_form_sim::{Runnable, read_runnable, traced as traced_in_form};
use scc_drive_words::SvForm;
use scc_svread::read;
use scc_svrun_trace::module_trace;
use scc_svtree::SvModule;
use scc_tokens::Source;
use std::alloc::Global;

/// The trace of the emitted text that word 2 names, of a module that word 1 names, on the stimulus that the word of the number `stim`
/// names.
pub fn svsim<F: Files>(
    alloc: Global,
    words: &[String],
    stim: usize,
    form: SvForm,
    files: &mut F,
) -> Result<Text, Stopped>
    ensures { AnswersBy (TextsOutcome (outcome.is_plain form) (word_at words.now 1) (word_at words.now 2) (word_at words.now stim)) (word_at words.now 1) (F.held files.old) (F.misses files.old) (F.misses files.new) (F.faults files.old) (F.faults files.new) result }
{
    let text = ask(alloc, files, word(words, 2))?;
    let top = word(words, 1).as_bytes();
    let name = word(words, stim);
    if is_plain(form) {
        on_text(alloc, top, &text, name, files)
    } else {
        on_form(alloc, top, &text, name, has_clocks(form), files)
    }
}

fn is_plain(form: SvForm) -> bool
    ensures { result ≡ outcome.is_plain form }
{
    match form {
        SvForm::Whole => true,
        SvForm::Hier => false,
        SvForm::Clocks => false,
    }
}

fn has_clocks(form: SvForm) -> bool {
    match form {
        SvForm::Whole => false,
        SvForm::Hier => false,
        SvForm::Clocks => true,
    }
}

// What a text answers that was read.
fn on_text<F: Files>(
    alloc: Global,
    top: &[u8],
    text: &Source,
    name: &str,
    files: &mut F,
) -> Result<Text, Stopped>
    requires short { length text.now.bytes ≤ 1048576 }
    requires held { IsHeld (F.held files.old) text.now.name text.now.bytes }
    ensures answers { AnswersBy (TextsOutcome true top.now text.now.name name.now) top.now (F.held files.old) (F.misses files.old) (F.misses files.new) (F.faults files.old) (F.faults files.new) result }
    ensures no_fewer_misses { F.misses files.old ≤ F.misses files.new }
    ensures no_fewer_faults { F.faults files.old ≤ F.faults files.new }
{
    let module = module_in(alloc, top, text)?;
    let stimulus = stimulus_of(alloc, name, text, files)?;
    traced(alloc, &module, &stimulus)
}

// The module of this name that a text says.
fn module_in(alloc: Global, top: &[u8], text: &Source) -> Result<SvModule, Stopped>
    ensures read { IfOk result (λ m. ReadAs false text.now.bytes m) }
    ensures named { IfOk result (λ m. m.name ≡ top.now) }
    ensures refused { IfErr result (IsNoModule top.now text.now) }
{
    match read(alloc, text.bytes.bytes()) {
        Ok(module) => {
            if module.name.bytes() == top {
                Ok(module)
            } else {
                // the name stands after the word `module` and a blank
                Err(refused(alloc, text, Code::SvName, 7)) // E703
            }
        }
        Err(stop) => Err(stopped_in(alloc, text, stop)),
    }
}

// The stimulus; a file that was asked for as the text isn't asked for again.
fn stimulus_of<F: Files>(
    alloc: Global,
    name: &str,
    text: &Source,
    files: &mut F,
) -> Result<Source, Stopped>
    requires short { length text.now.bytes ≤ 1048576 }
    requires held { IsHeld (F.held files.old) text.now.name text.now.bytes }
    ensures asked { Asked name.now (F.held files.old) (F.misses files.old) (F.misses files.new) (F.faults files.old) (F.faults files.new) result }
    ensures again { name.now ≡ text.now.name → IfOk result (λ s. s.bytes ≡ text.now.bytes) }
    ensures never { name.now ≡ text.now.name → IfErr result (λ s. s ≡ stopped.NoMemory) }
    ensures kept { F.held files.new ≡ F.held files.old }
    ensures no_fewer_misses { F.misses files.old ≤ F.misses files.new }
    ensures no_fewer_faults { F.faults files.old ≤ F.faults files.new }
{
    if name.as_bytes() == text.name.bytes() {
        let copy = Text::from_bytes(alloc, name.as_bytes())?;
        return found(alloc, copy, text.bytes.bytes());
    }
    ask(alloc, files, name)
}

fn traced(alloc: Global, m: &SvModule, stimulus: &Source) -> Result<Text, Stopped>
    requires read { (bytes : List ℕ) × ReadAs false bytes m.now × (length bytes ≤ 1048576) }
    requires short { length stimulus.now.bytes ≤ 1048576 }
    ensures { (top : List ℕ) → Gives (λ o. o ≡ outcome_of_stimulus m.now stimulus.now false) top result }
{
    match module_trace(alloc, m, 0, stimulus.bytes.bytes()) {
        Ok(text) => Ok(text),
        Err(stop) => Err(stopped_in(alloc, stimulus, stop)),
    }
}

// What a text of another form answers that was read.
fn on_form<F: Files>(
    alloc: Global,
    top: &[u8],
    text: &Source,
    name: &str,
    many: bool,
    files: &mut F,
) -> Result<Text, Stopped>
    requires short { length text.now.bytes ≤ 1048576 }
    requires held { IsHeld (F.held files.old) text.now.name text.now.bytes }
    ensures { AnswersBy (TextsOutcome false top.now text.now.name name.now) top.now (F.held files.old) (F.misses files.old) (F.misses files.new) (F.faults files.old) (F.faults files.new) result }
{
    let module = module_in_form(alloc, top, text, many)?;
    let stimulus = stimulus_of(alloc, name, text, files)?;
    trace_in_form(alloc, &module, &stimulus)
}

// The module of this name that a text of another form says.
fn module_in_form(alloc: Global, top: &[u8], text: &Source, many: bool) -> Result<Runnable, Stopped>
    ensures runs { IfOk result CanRun }
    ensures refused { IfErr result (IsOfText text.now) }
{
    match read_runnable(alloc, top, text.bytes.bytes(), many) {
        Ok(module) => Ok(module),
        Err(Stop::Refused(refusal)) => Err(refused_text(alloc, text, refusal)),
        Err(Stop::NoMemory) => Err(Stopped::NoMemory),
    }
}

fn trace_in_form(alloc: Global, r: &Runnable, stimulus: &Source) -> Result<Text, Stopped>
    requires runs { CanRun r.now }
    requires short { length stimulus.now.bytes ≤ 1048576 }
    ensures { IfErr result (IsOfStimulus stimulus.now.name) }
{
    match traced_in_form(alloc, r, 0, stimulus.bytes.bytes()) {
        Ok(text) => Ok(text),
        Err(Stop::Refused(refusal)) => Err(refused_stimulus(alloc, stimulus, refusal)),
        Err(Stop::NoMemory) => Err(Stopped::NoMemory),
    }
}

fn stopped_in(alloc: Global, source: &Source, stop: Stop) -> Stopped
    ensures { StoppedIn source.now stop result }
{
    match stop {
        Stop::Refused(refusal) => refused(alloc, source, refusal.code, refusal.place.at),
        Stop::NoMemory => Stopped::NoMemory,
    }
}

// A refusal at a byte of a file.
fn refused(alloc: Global, source: &Source, code: Code, at: u32) -> Stopped
    ensures { StopsAt code (spots.spot_in (Some source.now) at) result }
{
    match spot_in(alloc, source, at) {
        Ok(spot) => Stopped::Refused {
            code,
            spot,
            other: None,
        },
        Err(NoMemory) => Stopped::NoMemory,
    }
}
