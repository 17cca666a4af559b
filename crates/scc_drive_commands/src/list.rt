//! The list of a design's registers and bounds.
use scc_base::{Names, NoMemory, Text};
use scc_blocks::blocks;
use scc_drive_sim::list_text;
use scc_drive_stages::Front;
use std::alloc::Global;

/// A line for each register of the design's module, and one for each process with its bounds.
pub fn listed(alloc: Global, names: &Names, front: &Front) -> Result<Text, NoMemory> {
    let splits = front.splits.as_slice();
    let module = blocks(alloc, names, &front.core, &front.order, splits)?;
    list_text(alloc, names, &module, &front.core, splits)
}
