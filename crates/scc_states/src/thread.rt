//! The segments of a thread.
ghost use Rattle.std.specs.Prelude.{◌≡◌, [], IfErr, IfOk};
ghost use Rattle.scc_core.specs.declared.program.CoreProcess.{CoreProcess};
ghost use Rattle.scc_core_flow.specs.Live.{DecidesAll};
ghost use Rattle.scc_core_spec.specs.Kept.{kept};
ghost use Rattle.scc_core_spec.specs.Split.{is_asynchronous, reset_value};
ghost use Rattle.scc_core_spec.specs.Static.{Cells};
ghost use Rattle.scc_core_static_laws.specs.Held.{Knows};
ghost use Rattle.scc_core_view.specs.Programs.{cells_of, process_of, program_of};
ghost use Rattle.scc_states.specs.Refusals.{MayStop};
ghost use Rattle.scc_states.specs.Resets.{LoadsAll};
ghost use Rattle.scc_states.specs.Splits.{IsNamed, IsSplitBy, IsSplitSo, IsTold, Refuses, TellsThread, with_kept};
ghost use Rattle.scc_states.specs.Wholes.{IsWholeThread};

use crate::laws::a_table_tells_of_whole_threads;
use crate::reset::check_reset;
use crate::types::Split;
use scc_base::{List, NoMemory, Stop, lost};
use scc_core::{Core, CoreProcess, Known, Places};
use scc_core_flow::live;
use scc_states_cut::{CutBody, cut_body};
use scc_states_kept::kept_of;
use std::alloc::Global;

/// The segments of a thread of a checked core, by its number. It refuses a wait too many (TooManyStates), segments that are too
/// large or too deep (SegmentsTooLarge), and what an asynchronous reset may not do: E603, E604, E514.
pub fn split(alloc: Global, c: &Core, process: u32) -> Result<Split, Stop>
    ensures stop { IfErr result MayStop }
    ensures whole { (p : CoreProcess) → IsWholeThread c.now process p → IsSplitSo (program_of c.now) (process_of p) result }
    ensures exact { (p : CoreProcess) → IsWholeThread c.now process p → IsNamed c.now process p → IsSplitBy (program_of c.now) process (process_of p) result }
{
    let places = Places::of(alloc, &c.cells, &c.vectors)?;
    split_known(alloc, Known::new(&c.cells, &places), c, process)
}

/// The same, where the cells' names are in a table.
pub fn split_known(alloc: Global, known: Known<'_>, c: &Core, process: u32) -> Result<Split, Stop>
    ensures stop { IfErr result MayStop }
    ensures split { (p : CoreProcess) → IsTold known.entry c.now process p → IsSplitSo (program_of c.now) (process_of p) result }
    ensures exact { (p : CoreProcess) → IsTold known.entry c.now process p → TellsThread known.entry c.now process p → IsSplitBy (program_of c.now) process (process_of p) result }
    ensures whole { (p : CoreProcess) → Knows known.entry c.now.cells [] → IsWholeThread c.now process p → IsSplitSo (program_of c.now) (process_of p) result }
    ensures named { (p : CoreProcess) → Knows known.entry c.now.cells [] → IsWholeThread c.now process p → IsNamed c.now process p → IsSplitBy (program_of c.now) process (process_of p) result }
{
    a_table_tells_of_whole_threads();
    cut_thread(alloc, known, c, process)
}

fn cut_thread(alloc: Global, known: Known<'_>, c: &Core, process: u32) -> Result<Split, Stop>
    ensures stop { IfErr result MayStop }
    ensures split { (p : CoreProcess) → IsTold known.entry c.now process p → IsSplitSo (program_of c.now) (process_of p) result }
    ensures kept { (p : CoreProcess) → IsTold known.entry c.now process p → TellsThread known.entry c.now process p → IfOk result (λ s. s.kept ≡ kept (cells_of c.now) process (process_of p)) }
{
    let Some(thread) = c.processes.get(process as usize) else {
        return Err(Stop::from(lost()));
    };
    let body = live(alloc, &known, thread.body.as_slice())?;
    let cut = cut_body(alloc, body.as_slice())?;
    reset_checked(alloc, known, thread)?;
    let kept = kept_of(alloc, known, process, body.as_slice(), &cut)?;
    Ok(with_kept(cut, kept))
}

// Refuses what an asynchronous reset may not do.
fn reset_checked(alloc: Global, known: Known<'_>, thread: &CoreProcess) -> Result<(), Stop>
    ensures stop { IfErr result MayStop }
    ensures first { (cs : Cells) → DecidesAll known.entry cs thread.now.body → LoadsAll known.entry cs thread.now.body → Refuses (reset_value cs (process_of thread.now)) result }
{
    if is_asynchronous(thread) {
        check_reset(alloc, known, thread.body.as_slice())
    } else {
        Ok(())
    }
}

fn is_asynchronous(thread: &CoreProcess) -> bool
    ensures { result ≡ is_asynchronous (process_of thread.now).reset }
{
    match &thread.reset {
        Some(reset) => reset.asynchronous,
        None => false,
    }
}

fn with_kept(cut: CutBody, kept: List<u32>) -> Split
    ensures { result ≡ with_kept cut kept }
{
    let CutBody {
        waits,
        reset,
        segments,
    } = cut;
    Split {
        waits,
        reset,
        segments,
        kept,
    }
}
