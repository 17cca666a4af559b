//! The values of a line.
ghost use Rattle.std.specs.Prelude.{◌≡◌, IfOk};
ghost use Rattle.scc_trace.specs.Spans.{words_behind_in};
ghost use Rattle.scc_trace.specs.Stimulus.{found_of, noted, widths_of};

use crate::span::Span;
use crate::stim::StimPort;
use crate::value::{fits, hex};
use scc_base::{List, NoMemory};
use scc_bits::Word;
use std::alloc::Global;

/// The values of a line, and where the first stands that needs more bits than its port has.
#[derive(Drop)]
pub struct Found {
    pub words: List<Word>,
    pub wide: Option<u32>,
}

/// Where the first value stands that needs too many bits, by where one stood before, and by a further value and its width.
pub fn note(wide: Option<u32>, width: usize, at: u32, bits: u128) -> Option<u32>
    ensures { result ≡ noted wide width at bits }
{
    match wide {
        Some(before) => Some(before),
        None => { if fits(width, bits) { None } else { Some(at) } }
    }
}

/// The values of a line, one for each port, from after the word before them.
/// None where they are of no form, or more or fewer.
pub fn values(alloc: Global, ports: &[StimPort], line: Span<'_>) -> Result<Option<Found>, NoMemory>
    ensures { IfOk result (λ f. f ≡ found_of (widths_of ports.now) (words_behind_in line.entry)) }
{
    let mut words = List::new(alloc);
    let mut wide = None;
    let mut rest = line;
    for port in ports {
        let Some(text) = rest.behind() else {
            return Ok(None);
        };
        let (value, more) = text.first_word();
        let Some(bits) = hex(value.bytes) else {
            return Ok(None);
        };
        wide = note(wide, port.width as usize, value.at, bits);
        words.push(Word { bits })?;
        rest = more;
    }
    if rest.bytes.is_empty() {
        Ok(Some(Found { words, wide }))
    } else {
        Ok(None)
    }
}
