//! The list of a design's registers and of its processes' bounds.
use crate::bounds::segments_size;
use itoa::Buffer;
use scc_base::{Names, NoMemory, Text, lost, push};
use scc_core::{Core, CoreProcess, Sort2};
use scc_core_bounds::size_of;
use scc_lower::sv_name;
use scc_states::Split;
use scc_svtree::{SvBlock, SvModule};
use std::alloc::Global;

/// A line for each register of the module: its name and its width, in the order of its variables; then one for each process in
/// construction order: of a thread its states, the bound on the steps of a resume, and the statements of its segments, of a method
/// the bound. There is a split for each thread in process order.
pub fn list_text(
    alloc: Global,
    names: &Names,
    m: &SvModule,
    c: &Core,
    splits: &[Split],
) -> Result<Text, NoMemory> {
    let mut out = Text::new(alloc);
    registers(alloc, m, &mut out)?;
    let mut rest = splits.iter();
    for process in c.processes.as_slice() {
        match process.sort {
            Sort2::Method => method_line(alloc, names, process, &mut out)?,
            Sort2::Thread => {
                let Some(split) = rest.next() else {
                    return Err(lost());
                };
                thread_line(alloc, names, process, split, &mut out)?;
            }
        }
    }
    Ok(out)
}

fn registers(alloc: Global, m: &SvModule, out: &mut Text) -> Result<(), NoMemory> {
    let is_register = registers_of(alloc, m)?;
    for (v, is) in m.vars.as_slice().iter().zip(is_register.iter()) {
        if *is {
            out.push_bytes(b"register ")?;
            out.push_bytes(v.name.bytes())?;
            number(out, b" ", u64::from(v.width))?;
            out.push_bytes(b"\n")?;
        }
    }
    Ok(())
}

// Whether each variable of the module is one that an edge sets.
fn registers_of(alloc: Global, m: &SvModule) -> Result<Vec<bool>, NoMemory> {
    let mut list = Vec::new(alloc);
    for _v in m.vars.as_slice() {
        push(&mut list, false)?;
    }
    for block in m.blocks.as_slice() {
        if let SvBlock::Edge { sets, .. } = block {
            for set in sets.as_slice() {
                match list.get_mut(set.target.0 as usize) {
                    Some(is) => *is = true,
                    None => return Err(lost()),
                }
            }
        }
    }
    Ok(list)
}

fn method_line(
    alloc: Global,
    names: &Names,
    process: &CoreProcess,
    out: &mut Text,
) -> Result<(), NoMemory> {
    out.push_bytes(b"method ")?;
    out.push_bytes(sv_name(alloc, names, &process.name)?.bytes())?;
    number(out, b" steps ", size_of(process.body.as_slice()).bound())?;
    out.push_bytes(b"\n")
}

fn thread_line(
    alloc: Global,
    names: &Names,
    process: &CoreProcess,
    split: &Split,
    out: &mut Text,
) -> Result<(), NoMemory> {
    out.push_bytes(b"thread ")?;
    out.push_bytes(sv_name(alloc, names, &process.name)?.bytes())?;
    number(out, b" states ", split.waits.len() as u64)?;
    number(out, b" steps ", size_of(process.body.as_slice()).bound())?;
    number(out, b" statements ", segments_size(split))?;
    out.push_bytes(b"\n")
}

fn number(out: &mut Text, before: &[u8], n: u64) -> Result<(), NoMemory> {
    out.push_bytes(before)?;
    let mut buffer = Buffer::new();
    out.push_bytes(buffer.format(n).as_bytes())
}
