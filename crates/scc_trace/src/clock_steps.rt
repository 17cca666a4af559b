//! Stimuli of version 3, for more than one clock.
ghost use Rattle.std.specs.Prelude.{◌≡◌, ◌<◌, ◌^◌, length, IfOk};
ghost use Rattle.scc_trace.specs.Answer.{Answers};
ghost use Rattle.scc_trace.specs.Clocks.{clock_stim_of, clock_step_of, clock_steps_of, masked_of};
ghost use Rattle.scc_trace.specs.Spans.{piece_of, lines_in, words_behind_in};
ghost use Rattle.scc_trace.specs.Stimulus.{widths_of};

use crate::found::{Found, note, values};
use crate::head::{clocked_line, next_line, this_line};
use crate::names::{clocks_line, ports_line};
use crate::refuse::refuse;
use crate::span::Span;
use crate::stim::{ClockStep, ClockStim, StimPort};
use crate::value::hex;
use scc_base::{Code, List, NoMemory, Stop, Text};
use scc_bits::Word;
use std::alloc::Global;

/// A mask of clocks and the values after it.
#[derive(Drop)]
pub struct Masked {
    mask: Word,
    found: Found,
}

// The mask of a line and its values, from after the word before them. None where they are of no form, or more or fewer.
#[tactic(auto, unfolding(crate::specs::Clocks::masked_of))]
fn masked_values(
    alloc: Global,
    clocks: usize,
    ports: &[StimPort],
    line: Span<'_>,
) -> Result<Option<Masked>, NoMemory>
    ensures { IfOk result (λ m. m ≡ masked_of clocks (widths_of ports.now) (words_behind_in line.entry)) }
{
    let Some(text) = line.behind() else {
        return Ok(None);
    };
    let (value, rest) = text.first_word();
    let Some(bits) = hex(value.bytes) else {
        return Ok(None);
    };
    let Some(found) = values(alloc, ports, rest)? else {
        return Ok(None);
    };
    let wide = match note(None, clocks, value.at, bits) {
        Some(at) => Some(at),
        None => found.wide,
    };
    Ok(Some(Masked {
        mask: Word { bits },
        found: Found {
            words: found.words,
            wide,
        },
    }))
}

// The step of a line.
#[tactic(auto, unfolding(crate::specs::Clocks::clock_step_of))]
fn clock_step(
    alloc: Global,
    file: u32,
    clocks: usize,
    ports: &[StimPort],
    line: Span<'_>,
) -> Result<ClockStep, Stop>
    ensures { Answers (λ s. s) result (clock_step_of file clocks (widths_of ports.now) (piece_of line.entry)) }
{
    let (word, rest) = line.first_word();
    if word.bytes != b"step".as_slice() {
        return refuse(file, Code::StimText, line.at); // E801
    }
    let Some(step) = masked_values(alloc, clocks, ports, rest)? else {
        return refuse(file, Code::StimText, line.at);
    };
    if let Some(wide) = step.found.wide {
        return refuse(file, Code::StimValue, wide); // E803
    }
    Ok(ClockStep {
        mask: step.mask,
        words: step.found.words,
    })
}

// The steps of the lines from here on.
fn clock_steps(
    alloc: Global,
    file: u32,
    clocks: usize,
    ports: &[StimPort],
    text: Span<'_>,
) -> Result<ClockStim, Stop>
    ensures { Answers (λ s. s) result (clock_steps_of file clocks (widths_of ports.now) (lines_in text.entry)) }
{
    let mut steps = List::new(alloc);
    let mut rest = text;
    while !rest.bytes.is_empty() {
        let (line, more) = rest.first_line();
        steps.push(clock_step(alloc, file, clocks, ports, line)?)?;
        rest = more;
    }
    Ok(steps)
}

/// The steps of a stimulus text of version 3 with fewer than 2^32 bytes. The ports are the inputs but the clocks. Clocks and
/// ports are in the order in which they are declared, and bit i of a mask stands for the i-th clock. `file` is the number of the text in places.
///
/// It refuses by `StimText` at a line's first byte where the first line isn't that of version 3, the second or third doesn't begin with
/// the words `clocks` and `ports`, or a later one has no form or more or fewer values than ports, and at the end of the text
/// where one of the first three lines lacks; by `StimPort` at the first byte of the second or third line where that names other clocks or
/// ports; by `StimValue` at a mask with a bit for no clock, and at a value that needs more bits than its port has. The
/// first of them all decides.
#[tactic(auto, unfolding(crate::specs::Clocks::clock_stim_of))]
pub fn clock_stimulus(
    alloc: Global,
    file: u32,
    bytes: &[u8],
    clocks: &[Text],
    ports: &[StimPort],
) -> Result<ClockStim, Stop>
    requires { length bytes.now < 2 ^ 32 }
    ensures { Answers (λ s. s) result (clock_stim_of file clocks.now ports.now bytes.now) }
{
    let (first, rest) = next_line(file, Span { at: 0, bytes })?;
    clocked_line(file, first)?;
    let (second, rest) = next_line(file, rest)?;
    let wanted = clocks_line(alloc, clocks)?;
    this_line(file, second, b"clocks", &wanted)?;
    let (third, rest) = next_line(file, rest)?;
    let wanted = ports_line(alloc, ports)?;
    this_line(file, third, b"ports", &wanted)?;
    clock_steps(alloc, file, clocks.len(), ports, rest)
}
