//! The lines before the steps.
ghost use Rattle.std.specs.Prelude.{◌≡◌, ◌++◌, IfOk};
ghost use Rattle.scc_trace.specs.Answer.{Answers};
ghost use Rattle.scc_trace.specs.Clocks.{clocked_at};
ghost use Rattle.scc_trace.specs.Cut.{first};
ghost use Rattle.scc_trace.specs.Head as head;
ghost use Rattle.scc_trace.specs.Spans.{piece_of, lines_in, end_of};

use crate::refuse::refuse;
use crate::span::{Span, before};
use crate::stim::Version;
use scc_base::{Code, Stop, Text};

/// The next line, and what is after it.
#[tactic(auto, unfolding(crate::specs::Head::next_line))]
pub fn next_line<'a>(file: u32, text: Span<'a>) -> Result<(Span<'a>, Span<'a>), Stop>
    ensures next { Answers (λ x. (piece_of x.0, lines_in x.1)) result (head.next_line file (end_of text.entry) (lines_in text.entry)) }
    ensures end { IfOk result (λ x. end_of x.1 ≡ end_of text.entry) }
{
    if text.bytes.is_empty() {
        return refuse(file, Code::StimText, text.at); // E801
    }
    Ok(text.first_line())
}

// The version that a first line names.
fn version_named(line: &[u8]) -> Option<Version>
    ensures { result ≡ head.version_of line.now }
{
    if line == b"scc-stim 1".as_slice() {
        Some(Version::One)
    } else if line == b"scc-stim 2".as_slice() {
        Some(Version::Two)
    } else {
        None
    }
}

/// The version of a stimulus, by its first line.
#[tactic(auto, unfolding(crate::specs::Head::version_at))]
pub fn version_line(file: u32, line: Span<'_>) -> Result<Version, Stop>
    ensures { Answers (λ v. v) result (head.version_at file (piece_of line.entry)) }
{
    match version_named(line.bytes) {
        Some(version) => Ok(version),
        None => refuse(file, Code::StimText, line.at),
    }
}

/// The first line of a stimulus for more than one clock.
#[tactic(auto, unfolding(crate::specs::Clocks::clocked_at))]
pub fn clocked_line(file: u32, line: Span<'_>) -> Result<(), Stop>
    ensures { Answers (λ _. tt) result (clocked_at file (piece_of line.entry)) }
{
    if line.bytes == b"scc-stim 3".as_slice() {
        Ok(())
    } else {
        refuse(file, Code::StimText, line.at)
    }
}

/// Whether a line is this one, which begins with this word. It is of no form where it begins with another word.
#[tactic(auto, unfolding(crate::specs::Head::line_at))]
pub fn this_line(file: u32, line: Span<'_>, word: &[u8], wanted: &Text) -> Result<(), Stop>
    ensures { Answers (λ _. tt) result (head.line_at file word.now wanted.now (piece_of line.entry)) }
{
    let (first, _) = line.first_word();
    if first.bytes != word {
        return refuse(file, Code::StimText, line.at);
    }
    if line.bytes != wanted.bytes() {
        return refuse(file, Code::StimPort, line.at); // E802
    }
    Ok(())
}

/// The version that the first line of a text names; None where it names none.
pub fn version(bytes: &[u8]) -> Option<Version>
    ensures { result ≡ head.version_of (first 10 bytes.now) }
{
    version_named(before(10, bytes))
}
