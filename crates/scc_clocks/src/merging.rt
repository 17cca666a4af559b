//! One module of those of the parts.
use crate::homes::{Homes, homes_of};
use crate::joined::{Joined, Widths};
use scc_base::{List, Names, NoMemory, Text, lost, push};
use scc_bits::width;
use scc_core::{CellSort, Core, CoreProcess};
use scc_lower::sv_name;
use scc_svtree::{Dir, SvBlock, SvLoad, SvModule, SvReset, SvSet};
use scc_svtree_renumber::{Ids, renumbered, renumbered_expr};
use std::alloc::Global;

/// How deep expressions nest beside their first operands.
const LEVELS: u32 = 8_192;

/// The module of a core of which `blocks` made the parts' modules, in the order of the parts that `domains` gives. Its variables
/// stand in the order in which `blocks` declares them; the block of constant outputs stands once.
pub fn merge(
    alloc: Global,
    names: &Names,
    c: &Core,
    parts: &[SvModule],
) -> Result<SvModule, NoMemory> {
    let homes = homes_of(alloc, c)?;
    if parts.len() != homes.sizes.len() || !names.has(c.top) {
        return Err(lost());
    }
    let joined = declared(alloc, names, c, &homes, parts)?;
    let blocks = all_blocks(alloc, c, &homes, &joined, parts)?;
    let name = Text::from_bytes(alloc, names.text(c.top).as_bytes())?;
    Ok(SvModule {
        name,
        vars: joined.into_vars(),
        blocks,
    })
}

fn declared(
    alloc: Global,
    names: &Names,
    c: &Core,
    homes: &Homes,
    parts: &[SvModule],
) -> Result<Joined, NoMemory> {
    let mut joined = Joined::new(alloc);
    ports(alloc, names, c, &mut joined)?;
    let widths = Widths::of(alloc, parts)?;
    objects(alloc, names, c, &widths, &mut joined)?;
    let mut cursors = cursors_of(alloc, &joined, parts)?;
    for (p, process) in c.processes.as_slice().iter().enumerate() {
        let part = homes.part(p)? as usize;
        let (Some(m), Some(cursor)) = (parts.get(part), cursors.get_mut(part)) else {
            return Err(lost());
        };
        *cursor = own(alloc, names, process, m, *cursor, &mut joined)?;
    }
    for (m, cursor) in parts.iter().zip(cursors.iter()) {
        if *cursor != m.vars.len() {
            return Err(lost());
        }
    }
    Ok(joined)
}

fn ports(alloc: Global, names: &Names, c: &Core, joined: &mut Joined) -> Result<(), NoMemory> {
    for cell in c.cells.as_slice() {
        let dir = match cell.sort {
            CellSort::Input => Dir::Input,
            CellSort::Output => Dir::Output,
            _ => continue,
        };
        let name = sv_name(alloc, names, &cell.name)?;
        joined.put(name.bytes(), width(cell.kind), dir)?;
    }
    Ok(())
}

// Outputs' next values, signals and variables with theirs, where a part declares them.
fn objects(
    alloc: Global,
    names: &Names,
    c: &Core,
    widths: &Widths,
    joined: &mut Joined,
) -> Result<(), NoMemory> {
    for cell in c.cells.as_slice() {
        if !matches!(
            cell.sort,
            CellSort::Output | CellSort::Signal | CellSort::Variable { .. }
        ) {
            continue;
        }
        let mut name = sv_name(alloc, names, &cell.name)?;
        object(name.bytes(), widths, joined)?;
        name.push_bytes(b"$$n")?;
        object(name.bytes(), widths, joined)?;
    }
    Ok(())
}

fn object(name: &[u8], widths: &Widths, joined: &mut Joined) -> Result<(), NoMemory> {
    match widths.width(name) {
        Some(width) => joined.put(name, width, Dir::Inner),
        None => Ok(()),
    }
}

// For each part the number of its first variable that belongs to a process.
fn cursors_of(alloc: Global, joined: &Joined, parts: &[SvModule]) -> Result<Vec<usize>, NoMemory> {
    let mut cursors = Vec::new(alloc);
    for m in parts {
        let mut cursor = 0;
        for at in 0..m.vars.len() {
            match m.vars.get(at) {
                Some(v) => {
                    if joined.id(v.name.bytes()).is_none() {
                        break;
                    }
                    cursor = at + 1;
                }
                None => break,
            }
        }
        push(&mut cursors, cursor)?;
    }
    Ok(cursors)
}

// Adds the variables that belong to a process, which stand from a cursor on in its part, and gives the cursor after them.
fn own(
    alloc: Global,
    names: &Names,
    process: &CoreProcess,
    m: &SvModule,
    cursor: usize,
    joined: &mut Joined,
) -> Result<usize, NoMemory> {
    let mut front = sv_name(alloc, names, &process.name)?;
    front.push_bytes(b"$")?;
    let mut at = cursor;
    for _ in 0..m.vars.len() {
        match m.vars.get(at) {
            Some(v) if v.name.bytes().starts_with(front.bytes()) => {
                joined.put(v.name.bytes(), v.width, v.dir)?;
                at += 1;
            }
            Some(_) | None => return Ok(at),
        }
    }
    Ok(at)
}

/// The blocks of a part that aren't taken yet, with the numbers of its variables.
#[derive(Drop)]
struct Part<'a> {
    ids: Vec<u32>,
    blocks: &'a [SvBlock],
    next: usize,
}

impl<'a> Part<'a> {
    fn of(joined: &Joined, m: &'a SvModule) -> Result<Part<'a>, NoMemory> {
        Ok(Part {
            ids: joined.ids_of(m)?,
            blocks: m.blocks.as_slice(),
            next: 0,
        })
    }

    // Takes the next block.
    fn take(&mut self, alloc: Global) -> Result<SvBlock, NoMemory> {
        let Some(block) = self.blocks.get(self.next) else {
            return Err(lost());
        };
        self.next += 1;
        let ids = Ids {
            same: false,
            first: self.ids.as_slice(),
            next: &[],
            last: &[],
        };
        renumbered_block(alloc, block, ids)
    }
}

fn all_blocks(
    alloc: Global,
    c: &Core,
    homes: &Homes,
    joined: &Joined,
    parts: &[SvModule],
) -> Result<List<SvBlock>, NoMemory> {
    let mut from = Vec::new(alloc);
    for m in parts {
        push(&mut from, Part::of(joined, m)?)?;
    }
    let mut out = List::new(alloc);
    take_all(alloc, c, homes, parts, from.as_mut_slice(), &mut out)?;
    Ok(out)
}

// Takes the blocks of all parts in the order in which they stand in one module.
fn take_all(
    alloc: Global,
    c: &Core,
    homes: &Homes,
    parts: &[SvModule],
    from: &mut [Part<'_>],
    out: &mut List<SvBlock>,
) -> Result<(), NoMemory> {
    let combs = combs_of(homes)?;
    if first_constant(combs, parts)? {
        constants(alloc, from, out)?;
    }
    if let Some(last) = from.last_mut() {
        for _ in 0..combs {
            out.push(last.take(alloc)?)?;
        }
    }
    for (p, process) in c.processes.as_slice().iter().enumerate() {
        if process.edge.is_some() {
            let Some(part) = from.get_mut(homes.part(p)? as usize) else {
                return Err(lost());
            };
            out.push(part.take(alloc)?)?;
            out.push(part.take(alloc)?)?;
        }
    }
    Ok(())
}

// How many combinational methods there are.
fn combs_of(homes: &Homes) -> Result<usize, NoMemory> {
    match homes.sizes.last() {
        Some(combs) => Ok(*combs as usize),
        None => Err(lost()),
    }
}

// Whether the parts' modules begin with the block of constant outputs: the last one has a block for each method beside it.
fn first_constant(combs: usize, parts: &[SvModule]) -> Result<bool, NoMemory> {
    let Some(last) = parts.last() else {
        return Err(lost());
    };
    let blocks = last.blocks.len();
    if blocks == combs {
        Ok(false)
    } else if blocks == combs.saturating_add(1) {
        Ok(true)
    } else {
        Err(lost())
    }
}

// Takes the block of constant outputs of every part, and keeps the first.
fn constants(
    alloc: Global,
    from: &mut [Part<'_>],
    out: &mut List<SvBlock>,
) -> Result<(), NoMemory> {
    for part in from {
        let block = part.take(alloc)?;
        if out.is_empty() {
            out.push(block)?;
        }
    }
    Ok(())
}

fn renumbered_block(alloc: Global, block: &SvBlock, ids: Ids<'_>) -> Result<SvBlock, NoMemory> {
    Ok(match block {
        SvBlock::Comb(body) => SvBlock::Comb(renumbered(body.as_slice(), alloc, ids, LEVELS)?),
        SvBlock::Edge {
            rising,
            clock,
            reset,
            sets,
        } => SvBlock::Edge {
            rising: *rising,
            clock: ids.of(*clock)?,
            reset: match reset {
                Some(reset) => Some(renumbered_reset(alloc, reset, ids)?),
                None => None,
            },
            sets: renumbered_sets(alloc, sets.as_slice(), ids)?,
        },
    })
}

fn renumbered_reset(alloc: Global, reset: &SvReset, ids: Ids<'_>) -> Result<SvReset, NoMemory> {
    let mut values = List::new(alloc);
    for load in reset.values.as_slice() {
        values.push(SvLoad {
            target: ids.of(load.target)?,
            value: load.value,
        })?;
    }
    Ok(SvReset {
        signal: ids.of(reset.signal)?,
        rising: reset.rising,
        values,
    })
}

fn renumbered_sets(alloc: Global, sets: &[SvSet], ids: Ids<'_>) -> Result<List<SvSet>, NoMemory> {
    let mut list = List::new(alloc);
    for set in sets {
        list.push(SvSet {
            target: ids.of(set.target)?,
            value: renumbered_expr(alloc, &set.value, ids, LEVELS)?,
        })?;
    }
    Ok(list)
}
