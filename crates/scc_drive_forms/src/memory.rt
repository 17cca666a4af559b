//! A design as one module with memories.
use scc_base::{Names, NoMemory, Text, lost};
use scc_blocks::blocks;
use scc_drive_stages::{Front, looked_at};
use scc_memory::{MemModule, expanded, memories, print_memory};
use scc_svtext::print;
use std::alloc::Global;

/// The text of the module of the class `top` with its arrays as memories, where these can be written out as the arrays again, and
/// the module without memories is read back from its text.
pub fn memory_text(
    alloc: Global,
    names: &Names,
    top: &[u8],
    front: &Front,
) -> Result<Text, NoMemory> {
    let splits = front.splits.as_slice();
    let module = blocks(alloc, names, &front.core, &front.order, splits)?;
    let text = print(alloc, &module)?;
    let whole = looked_at(alloc, false, top, &module, text)?;
    let made = memories(alloc, &module)?;
    if !is_expanded_to(alloc, &made, whole.bytes())? {
        return Err(lost());
    }
    print_memory(alloc, &made)
}

// Whether a module with memories has this text where they are arrays.
fn is_expanded_to(alloc: Global, made: &MemModule, text: &[u8]) -> Result<bool, NoMemory> {
    let again = expanded(alloc, made)?;
    let text_again = print(alloc, &again)?;
    Ok(text_again.bytes() == text)
}
