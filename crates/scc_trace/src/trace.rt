//! Lines of traces.
ghost use Rattle.std.specs.Prelude.{◌≡◌, ◌++◌, true, decimal, IfOk, OnOk};
ghost use Rattle.scc_trace.specs.Text.{all_fit, output_text, sign_text, shown, trace_text};

use crate::fitting::fitting;
use crate::hex::word_digits;
use crate::names::name;
use crate::stim::StimPort;
use itoa::Buffer;
use scc_base::{NoMemory, Text};
use scc_bits::Word;
use std::alloc::Global;

// Appends the number of a step.
fn number(out: &mut Text, step: u64) -> Result<(), NoMemory>
    ensures { OnOk result (out.new ≡ out.old ++ decimal step) }
{
    let mut buffer = Buffer::new();
    out.push_bytes(buffer.format(step).as_bytes())
}

fn sign(after: bool) -> &'static [u8]
    ensures { result.now ≡ sign_text after }
{
    if after { b"+" } else { b"-" }
}

// Appends the word of an output after its name.
fn output(out: &mut Text, port: &StimPort, word: Word) -> Result<(), NoMemory>
    ensures { OnOk result (out.new ≡ out.old ++ output_text port.now word) }
{
    name(out, &port.name)?;
    out.push_bytes(b"=")?;
    word_digits(out, port.width, word)?;
    Ok(())
}

// Appends the words of the outputs.
fn outputs(out: &mut Text, ports: &[StimPort], words: &[Word]) -> Result<(), NoMemory>
    ensures { OnOk result (out.new ≡ out.old ++ shown ports.now words.now) }
{
    let mut rest = words;
    for port in ports {
        let [word, more @ ..] = rest else {
            return Ok(());
        };
        output(out, port, *word)?;
        rest = more;
    }
    Ok(())
}

/// The line of a step, counted from 0, before its edge or after it: the words of the outputs in the order of the ports, each in as
/// many hexadecimal digits as its width has. There is a word for each port, with no more bits than the port has; were it otherwise, the answer
/// would be want of memory.
#[tactic(auto, unfolding(crate::specs::Text::trace_text))]
pub fn trace_line(
    alloc: Global,
    step: u64,
    after: bool,
    ports: &[StimPort],
    values: &[Word],
) -> Result<Text, NoMemory>
    ensures fitting { OnOk result (all_fit ports.now values.now ≡ true) }
    ensures text { IfOk result (λ t. t ≡ trace_text step after ports.now values.now) }
{
    if !fitting(ports, values) {
        return Err(NoMemory);
    }
    let mut out = Text::new(alloc);
    number(&mut out, step)?;
    out.push_bytes(sign(after))?;
    outputs(&mut out, ports, values)?;
    out.push_bytes(b"\n")?;
    Ok(out)
}
