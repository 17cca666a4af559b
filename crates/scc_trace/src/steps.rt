//! Stimuli of versions 1 and 2.
ghost use Rattle.std.specs.Prelude.{◌≡◌, ◌<◌, ◌^◌, length, map};
ghost use Rattle.scc_trace.specs.Answer.{Answers};
ghost use Rattle.scc_trace.specs.Spans.{piece_of, lines_in, end_of};
ghost use Rattle.scc_trace.specs.Stimulus.{edge_of, step_of, steps_of, stim_of, widths_of};

use crate::found::values;
use crate::head::{next_line, this_line, version_line};
use crate::names::ports_line;
use crate::refuse::refuse;
use crate::span::Span;
use crate::stim::{Stim, StimPort, StimStep, Version};
use scc_base::{Code, List, Stop};
use std::alloc::Global;

// Whether a step has an edge, by the first word of its line.
fn edge(version: Version, word: &[u8]) -> Option<bool>
    ensures { result ≡ edge_of version word.now }
{
    if word == b"step".as_slice() {
        Some(true)
    } else if word == b"hold".as_slice() {
        match version {
            Version::One => None,
            Version::Two => Some(false),
        }
    } else {
        None
    }
}

// The step of a line.
#[tactic(auto, unfolding(crate::specs::Stimulus::step_of))]
fn step(
    alloc: Global,
    file: u32,
    version: Version,
    ports: &[StimPort],
    line: Span<'_>,
) -> Result<StimStep, Stop>
    ensures { Answers (λ s. s) result (step_of file version (widths_of ports.now) (piece_of line.entry)) }
{
    let (word, rest) = line.first_word();
    let Some(edge) = edge(version, word.bytes) else {
        return refuse(file, Code::StimText, line.at); // E801
    };
    let Some(found) = values(alloc, ports, rest)? else {
        return refuse(file, Code::StimText, line.at);
    };
    if let Some(wide) = found.wide {
        return refuse(file, Code::StimValue, wide); // E803
    }
    Ok(StimStep {
        edge,
        words: found.words,
    })
}

// The steps of the lines from here on.
fn steps(
    alloc: Global,
    file: u32,
    version: Version,
    ports: &[StimPort],
    text: Span<'_>,
) -> Result<Stim, Stop>
    ensures { Answers (λ s. s) result (steps_of file version (widths_of ports.now) (lines_in text.entry)) }
{
    let mut steps = List::new(alloc);
    let mut rest = text;
    while !rest.bytes.is_empty() {
        let (line, more) = rest.first_line();
        steps.push(step(alloc, file, version, ports, line)?)?;
        rest = more;
    }
    Ok(steps)
}

/// The steps of a stimulus text of version 1 or 2 with fewer than 2^32 bytes. The ports are the inputs but the clock, in the order
/// in which they are declared. `file` is the number of the text in places.
///
/// It refuses by `StimText` at a line's first byte where the first line names no version, the second doesn't begin with
/// the word `ports`, or a later one has no form of its version or more or fewer values than ports, and at the end of the text
/// where one of the first two lines lacks; by `StimPort` at the first byte of the second line where that names other ports; by
/// `StimValue` at a value that needs more bits than its port has. The first of them all decides.
#[tactic(auto, unfolding(crate::specs::Stimulus::stim_of))]
pub fn stimulus(alloc: Global, file: u32, bytes: &[u8], ports: &[StimPort]) -> Result<Stim, Stop>
    requires { length bytes.now < 2 ^ 32 }
    ensures { Answers (λ s. s) result (stim_of file ports.now bytes.now) }
{
    let (first, rest) = next_line(file, Span { at: 0, bytes })?;
    let version = version_line(file, first)?;
    let (second, rest) = next_line(file, rest)?;
    let wanted = ports_line(alloc, ports)?;
    this_line(file, second, b"ports", &wanted)?;
    steps(alloc, file, version, ports, rest)
}
