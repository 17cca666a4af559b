//! What every path through a method has written whole: latches, and reads of what isn't written before.
ghost use Rattle.scc_rules.specs.Refusals.{Finds};

use crate::facts::{Facts, Role, filled, is_combinational};
use scc_base::{Code, NoMemory, Place, Refusal, lost, push};
use scc_core::{CoreLeft, CoreNode, CoreStmt, Named, Sort2};
use scc_core_flow::CellSet;
use scc_rules_walks::own_loads;
use std::alloc::Global;

/// The cells of a method whose writes matter, by slots.
#[derive(Drop)]
struct Watched<'a> {
    f: &'a Facts<'a>,
    /// The slot of each cell of the design that is one of them.
    slots: &'a [Option<u32>],
    /// Whether a read of it has to be behind a whole write.
    early: &'a [bool],
    /// How many slots there are.
    count: usize,
}

/// What a walk meets.
#[derive(Drop)]
struct Walk {
    /// For each open block what every path that leaves it has written.
    outs: Vec<Option<CellSet>>,
    /// The first read of what isn't written before.
    early: Option<Place>,
}

/// What the rules on paths find in a method.
#[derive(Clone, Copy)]
pub struct Paths {
    /// The first write of a root that some path doesn't write.
    pub latch: Option<Place>,
    /// The first read of what some path hasn't written.
    pub early: Option<Place>,
}

/// What is found in each method, and nothing in threads.
pub fn paths_of(alloc: Global, f: &Facts<'_>) -> Result<Vec<Paths>, NoMemory> {
    let n = f.core.cells.len();
    let mut written = filled(alloc, n, false)?;
    for marks in f.marks.iter() {
        for mark in marks.as_slice() {
            if mark.write && f.role(mark.named.base)? == Role::Variable {
                for cell in f.cells(alloc, mark)?.iter() {
                    match written.get_mut(*cell as usize) {
                        Some(is) => *is = true,
                        None => return Err(lost()),
                    }
                }
            }
        }
    }
    let mut slots = filled(alloc, n, None)?;
    let mut early = filled(alloc, n, false)?;
    let mut found = Vec::new(alloc);
    let mut p = 0usize;
    for process in f.core.processes.as_slice() {
        let paths = if process.sort == Sort2::Method {
            let watching = Watching {
                combinational: is_combinational(process),
                written: written.as_slice(),
            };
            let own = watch(alloc, f, p, watching, &mut slots, &mut early)?;
            let watched = Watched {
                f,
                slots: slots.as_slice(),
                early: early.as_slice(),
                count: own.len(),
            };
            let paths = method(alloc, p, &watched, watching.combinational)?;
            forget(own.as_slice(), &mut slots, &mut early)?;
            paths
        } else {
            Paths {
                latch: None,
                early: None,
            }
        };
        push(&mut found, paths)?;
        p = p.saturating_add(1);
    }
    Ok(found)
}

/// Which cells a method's rules speak of.
#[derive(Clone, Copy)]
struct Watching<'a> {
    combinational: bool,
    /// The variables that some process writes.
    written: &'a [bool],
}

// Gives slots to the cells that a method names and whose writes matter, ascending; the cells.
fn watch(
    alloc: Global,
    f: &Facts<'_>,
    p: usize,
    watching: Watching<'_>,
    slots: &mut Vec<Option<u32>>,
    early: &mut Vec<bool>,
) -> Result<Vec<u32>, NoMemory> {
    let Some(marks) = f.marks.get(p) else {
        return Err(lost());
    };
    let mut own = Vec::new(alloc);
    for mark in marks.as_slice() {
        let role = f.role(mark.named.base)?;
        for cell in f.cells(alloc, mark)?.iter() {
            let is_early = match role {
                Role::Local => true,
                Role::Variable => {
                    watching.combinational && watching.written.get(*cell as usize) == Some(&true)
                }
                Role::Root => false,
            };
            let is_root = role == Role::Root && mark.write && watching.combinational;
            if is_early || is_root {
                push(&mut own, *cell)?;
            }
            if let Some(is) = early.get_mut(*cell as usize) {
                *is = is_early;
            }
        }
    }
    own.sort()?;
    own.dedup();
    let mut slot = 0u32;
    for cell in own.iter() {
        match slots.get_mut(*cell as usize) {
            Some(place) => *place = Some(slot),
            None => return Err(lost()),
        }
        slot = slot.saturating_add(1);
    }
    Ok(own)
}

fn forget(
    own: &[u32],
    slots: &mut Vec<Option<u32>>,
    early: &mut Vec<bool>,
) -> Result<(), NoMemory> {
    for cell in own {
        match (slots.get_mut(*cell as usize), early.get_mut(*cell as usize)) {
            (Some(slot), Some(is)) => {
                *slot = None;
                *is = false;
            }
            _ => return Err(lost()),
        }
    }
    Ok(())
}

fn method(
    alloc: Global,
    p: usize,
    watched: &Watched<'_>,
    combinational: bool,
) -> Result<Paths, NoMemory> {
    let (Some(live), Some(marks)) = (watched.f.lives.get(p), watched.f.marks.get(p)) else {
        return Err(lost());
    };
    let mut walk = Walk {
        outs: Vec::new(alloc),
        early: None,
    };
    let start = CellSet::none(alloc, watched.count)?;
    let end = each(live.as_slice(), alloc, watched, Some(start), &mut walk)?;
    let mut latch = None;
    if let (true, Some(end)) = (combinational, end) {
        for mark in marks.as_slice() {
            if latch.is_none() && mark.write && watched.f.role(mark.named.base)? == Role::Root {
                for cell in watched.f.cells(alloc, mark)?.iter() {
                    if !is_in(watched, &end, *cell) {
                        latch = Some(mark.statement);
                    }
                }
            }
        }
    }
    Ok(Paths {
        latch,
        early: walk.early,
    })
}

fn is_in(watched: &Watched<'_>, set: &CellSet, cell: u32) -> bool {
    match watched.slots.get(cell as usize) {
        Some(Some(slot)) => set.has(*slot),
        _ => true,
    }
}

// What paths of both sorts have written; None where no path comes.
fn met(a: Option<CellSet>, b: Option<CellSet>) -> Option<CellSet> {
    match (a, b) {
        (Some(mut a), Some(b)) => {
            a.meet(&b);
            Some(a)
        }
        (Some(a), None) => Some(a),
        (None, b) => b,
    }
}

#[cycle(flow)]
fn each(
    body: &[CoreStmt],
    alloc: Global,
    watched: &Watched<'_>,
    here: Option<CellSet>,
    walk: &mut Walk,
) -> Result<Option<CellSet>, NoMemory> {
    let mut now = here;
    for s in body {
        let Some(set) = now else {
            return Ok(None);
        };
        now = one(s, alloc, watched, set, walk)?;
    }
    Ok(now)
}

#[cycle(flow)]
fn one(
    s: &CoreStmt,
    alloc: Global,
    watched: &Watched<'_>,
    here: CellSet,
    walk: &mut Walk,
) -> Result<Option<CellSet>, NoMemory> {
    look(alloc, s, watched, &here, walk)?;
    match &s.node {
        CoreNode::Assign { left, .. } => Ok(Some(after(alloc, left, watched, here)?)),
        CoreNode::If { yes, no, .. } => {
            let other = here.copied(alloc)?;
            let a = each(yes.as_slice(), alloc, watched, Some(here), walk)?;
            let b = each(no.as_slice(), alloc, watched, Some(other), walk)?;
            Ok(met(a, b))
        }
        CoreNode::Block(body) => {
            push(&mut walk.outs, None)?;
            let end = each(body.as_slice(), alloc, watched, Some(here), walk)?;
            match walk.outs.pop() {
                Some(out) => Ok(met(end, out)),
                None => Err(lost()),
            }
        }
        CoreNode::Exit(n) => {
            leave(*n, here, walk)?;
            Ok(None)
        }
        CoreNode::Loop { body, .. } => {
            // once: what is written only grows along a path
            let _end = each(body.as_slice(), alloc, watched, Some(here), walk)?;
            Ok(None)
        }
        CoreNode::Wait { .. } => Ok(Some(here)),
        CoreNode::Alias { .. } => Err(lost()),
    }
}

// A path leaves the n-th open block, counted outward from 0.
fn leave(n: u32, here: CellSet, walk: &mut Walk) -> Result<(), NoMemory> {
    let Some(at) = walk
        .outs
        .len()
        .checked_sub(1)
        .and_then(|last| last.checked_sub(n as usize))
    else {
        return Err(lost());
    };
    match walk.outs.get_mut(at) {
        Some(out) => {
            let old = out.take();
            *out = met(old, Some(here));
            Ok(())
        }
        None => Err(lost()),
    }
}

// Notes the first read of a statement that isn't behind a whole write.
fn look(
    alloc: Global,
    s: &CoreStmt,
    watched: &Watched<'_>,
    here: &CellSet,
    walk: &mut Walk,
) -> Result<(), NoMemory> {
    if walk.early.is_some() {
        return Ok(());
    }
    for load in own_loads(alloc, s)?.iter() {
        if let Some(named) = watched.f.known.named(alloc, load.left)?
            && is_unwritten(watched, here, &named)
        {
            walk.early = Some(load.place);
            return Ok(());
        }
    }
    Ok(())
}

// Whether a location may name a cell that isn't written yet. Under an open index each element is asked by itself: of an
// array that a process writes in part the others are constants.
fn is_unwritten(watched: &Watched<'_>, here: &CellSet, named: &Named) -> bool {
    for number in 0..named.count() {
        let cell = named.cell(number);
        if watched.early.get(cell as usize) == Some(&true) && !is_in(watched, here, cell) {
            return true;
        }
    }
    false
}

// What is written behind an assignment. A root under an index that isn't static counts as written; it is refused later.
fn after(
    alloc: Global,
    left: &CoreLeft,
    watched: &Watched<'_>,
    here: CellSet,
) -> Result<CellSet, NoMemory> {
    let mut set = here;
    let Some(named) = watched.f.known.named(alloc, left)? else {
        return Ok(set);
    };
    let Some(cell) = watched.f.core.cells.get(named.base as usize) else {
        return Err(lost());
    };
    let counts = if named.is_single() {
        watched.f.known.is_whole(left.pick.as_ref(), cell.kind)
    } else {
        watched.f.role(named.base)? == Role::Root
    };
    if counts {
        for number in 0..named.count() {
            let root = watched.f.root(named.cell(number))?;
            if let Some(Some(slot)) = watched.slots.get(root as usize) {
                set.add(*slot)?;
            }
        }
    }
    Ok(set)
}

/// The first of the methods' findings, method by method.
pub fn first_of(found: &[Paths], code: Code) -> Option<Refusal>
    ensures { Finds code result }
{
    for paths in found {
        let place = if code == Code::Latch {
            paths.latch
        } else {
            paths.early
        };
        if let Some(place) = place {
            return Some(Refusal {
                code,
                place,
                other: None,
            });
        }
    }
    None
}
