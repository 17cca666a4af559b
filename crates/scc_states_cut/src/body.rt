//! A thread's live body, cut at its waits.
ghost use Rattle.std.specs.Prelude.{◌≡◌, [], IfOk, map};
ghost use Rattle.scc_core_view.specs.Codes.{code_of};
ghost use Rattle.scc_states_segments.specs.Behind.{behind_waits};
ghost use Rattle.scc_states_segments.specs.Frames.{from, scene};
ghost use Rattle.scc_states_cut.specs.Limits.{AreFew, IsBuilt, IsCut};

use crate::cuts::cuts;
use crate::types::SegStmt;
use crate::unfold::{unfolded, within};
use scc_base::{Code, List, NoMemory, Stop};
use scc_core::CoreStmt;
use scc_states_segments::{Count, DEEPEST, Halt, Part, halts, parts_of};
use std::alloc::Global;

/// The most waits of a thread.
const WAITS: usize = 16_384;
/// The most statements of a thread's segments together.
const STATEMENTS: u32 = 65_536;

/// A body that is cut.
#[derive(Drop)]
pub struct CutBody {
    /// The counts of its waits, in text order.
    pub waits: List<u32>,
    /// From the first statement.
    pub reset: List<SegStmt>,
    /// From behind each wait, in the order of `waits`.
    pub segments: List<List<SegStmt>>,
}

/// Cuts a live body at its waits. It refuses a wait too many (TooManyStates), and then the first statement with which the segments
/// are too large or too deep (SegmentsTooLarge); no statement past a limit is built.
pub fn cut_body(alloc: Global, body: &[CoreStmt]) -> Result<CutBody, Stop>
    ensures { IsCut (code_of body.now) result }
{
    let mut waits = List::new(alloc);
    halts(body, &mut waits)?;
    few(&waits)?;
    let counts = counts_of(alloc, waits.as_slice())?;
    let mut next = 0u32;
    let parts = parts_of(body, alloc, &mut next)?;
    built(alloc, parts.as_slice(), counts)
}

fn few(waits: &List<Halt>) -> Result<(), Stop>
    ensures { AreFew (map (λ h. h.place) waits.now) result }
{
    match waits.get(WAITS) {
        // E603.
        Some(wait) => Err(Stop::refused(Code::TooManyStates, wait.place)),
        None => Ok(()),
    }
}

fn counts_of(alloc: Global, waits: &[Halt]) -> Result<List<u32>, NoMemory>
    ensures { IfOk result (λ ns. ns ≡ map (λ h. h.count) waits.now) }
{
    let mut counts = List::new(alloc);
    for wait in waits {
        counts.push(wait.count)?;
    }
    Ok(counts)
}

// The segments from the first part on, and behind each wait.
fn built(alloc: Global, parts: &[Part], waits: List<u32>) -> Result<CutBody, Stop>
    ensures { IsBuilt waits (from parts.now (scene [])) (behind_waits parts.now (scene [])) result }
{
    let mut count = Count::new(STATEMENTS);
    let counts = waits.as_slice();
    let none = List::new(alloc);
    let reset = unfolded(alloc, parts, none, counts, 1, DEEPEST + 2, &mut count)?;
    let mut segments = List::new(alloc);
    cuts(alloc, parts, &[], counts, &mut count, &mut segments)?;
    within(&count)?;
    Ok(CutBody {
        waits,
        reset,
        segments,
    })
}
