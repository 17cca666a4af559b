//! Writes stimuli.
ghost use Rattle.std.specs.Prelude.{◌≡◌, ◌++◌, true, flat_map, codes, IfOk, OnOk};
ghost use Rattle.std.specs.List.{list_all};
ghost use Rattle.scc_trace.specs.Text.{all_fit, edge_text, step_text, stim_text_of, value_text, values_text, version_text};

use crate::fitting::fitting;
use crate::hex::word_digits;
use crate::names::ports_line;
use crate::stim::{Stim, StimPort, StimStep};
use scc_base::{NoMemory, Text};
use scc_bits::Word;
use std::alloc::Global;

// The first line.
#[tactic(auto, unfolding(crate::specs::Text::version_text))]
fn version_bytes() -> &'static [u8]
    ensures { result.now ≡ version_text }
{
    b"scc-stim 2\n"
}

fn edge(edge: bool) -> &'static [u8]
    ensures { result.now ≡ edge_text edge }
{
    if edge { b"step" } else { b"hold" }
}

// Appends a value after a blank.
fn value(out: &mut Text, port: &StimPort, word: Word) -> Result<(), NoMemory>
    ensures { OnOk result (out.new ≡ out.old ++ value_text port.now word) }
{
    out.push_bytes(b" ")?;
    word_digits(out, port.width, word)?;
    Ok(())
}

// Appends the values of a step.
fn step_values(out: &mut Text, ports: &[StimPort], words: &[Word]) -> Result<(), NoMemory>
    ensures { OnOk result (out.new ≡ out.old ++ values_text ports.now words.now) }
{
    let mut rest = words;
    for port in ports {
        let [word, more @ ..] = rest else {
            return Ok(());
        };
        value(out, port, *word)?;
        rest = more;
    }
    Ok(())
}

// Appends the line of a step.
fn step_line(out: &mut Text, ports: &[StimPort], step: &StimStep) -> Result<(), NoMemory>
    ensures fitting { OnOk result (all_fit ports.now step.now.words ≡ true) }
    ensures text { OnOk result (out.new ≡ out.old ++ step_text ports.now step.now) }
{
    if !fitting(ports, step.words.as_slice()) {
        return Err(NoMemory);
    }
    out.push_bytes(edge(step.edge))?;
    step_values(out, ports, step.words.as_slice())?;
    out.push_bytes(b"\n")?;
    Ok(())
}

// Appends the lines of steps.
fn step_lines(out: &mut Text, ports: &[StimPort], steps: &[StimStep]) -> Result<(), NoMemory>
    ensures fitting { OnOk result (list_all (λ s. all_fit ports.now s.words) steps.now ≡ true) }
    ensures text { OnOk result (out.new ≡ out.old ++ flat_map (step_text ports.now) steps.now) }
{
    for step in steps {
        step_line(out, ports, step)?;
    }
    Ok(())
}

/// The stimulus text of version 2 that says these steps, each value in as many hexadecimal digits as its width has.
/// A step has a word for each port, with no more bits than the port has; were it otherwise, the answer would be want of memory.
#[tactic(auto, unfolding(crate::specs::Text::stim_text_of))]
pub fn stim_text(alloc: Global, ports: &[StimPort], s: &Stim) -> Result<Text, NoMemory>
    ensures fitting { OnOk result (list_all (λ s. all_fit ports.now s.words) s.now ≡ true) }
    ensures text { IfOk result (λ t. t ≡ stim_text_of ports.now s.now) }
{
    let names = ports_line(alloc, ports)?;
    let mut out = Text::new(alloc);
    out.push_bytes(version_bytes())?;
    out.push_bytes(names.bytes())?;
    out.push_bytes(b"\n")?;
    step_lines(&mut out, ports, s.as_slice())?;
    Ok(out)
}
