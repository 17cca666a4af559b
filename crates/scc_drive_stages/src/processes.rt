//! The stages that look at processes: the rules, the segments of threads, and the size of what is chosen by an index.
use scc_base::{Code, List, Stop};
use scc_core::{Core, Known, Places, Sort2};
use scc_rules::{Order, check_known};
use scc_states::{Split, split_known};
use scc_states_sum::index_sum_known;
use std::alloc::Global;

/// The most elements of the arrays that stand under indices which aren't static.
const MOST_CHOSEN: u64 = 1_048_576;

/// The order of the combinational methods, and the segments of each thread.
#[derive(Drop)]
pub struct Ordered {
    pub order: Order,
    pub splits: List<Split>,
}

/// The order of a core's methods and the segments of its threads, where the core keeps the rules of processes.
pub fn check_processes(alloc: Global, core: &Core) -> Result<Ordered, Stop> {
    let places = Places::of(alloc, &core.cells, &core.vectors)?;
    let order = check_known(alloc, &places, core)?;
    let known = Known::new(&core.cells, &places);
    let splits = splits_of(alloc, known, core)?;
    check_size(known, core, splits.as_slice())?;
    Ok(Ordered { order, splits })
}

fn splits_of(alloc: Global, known: Known<'_>, core: &Core) -> Result<List<Split>, Stop> {
    let mut splits = List::new(alloc);
    let mut number = 0u32;
    for process in core.processes.as_slice() {
        if process.sort == Sort2::Thread {
            splits.push(split_known(alloc, known, core, number)?)?;
        }
        number = number.saturating_add(1);
    }
    Ok(splits)
}

// The elements that indices choose among stay within the limit; else the first process is refused.
fn check_size(known: Known<'_>, core: &Core, splits: &[Split]) -> Result<(), Stop> {
    if index_sum_known(known, core, splits) <= MOST_CHOSEN {
        return Ok(());
    }
    match core.processes.get(0) {
        Some(process) => Err(Stop::refused(Code::IndexTooWide, process.place)), // E605
        None => Ok(()),
    }
}
