//! The tree of module objects.
use crate::plan::HierPlan;
use scc_base::{NoMemory, lost, push};
use std::alloc::Global;

/// Which module objects stand in which.
#[derive(Drop)]
pub struct Tree {
    /// The module object around each.
    pub parent: Vec<usize>,
    /// How many stand around each.
    depth: Vec<usize>,
    /// The place of each in the walk.
    place: Vec<usize>,
    /// All of them, each followed at once by those in it.
    pub walk: Vec<usize>,
    /// Those directly in each, in order.
    pub children: Vec<Vec<usize>>,
}

/// The element of a list.
pub fn at(list: &[usize], i: usize) -> Result<usize, NoMemory> {
    match list.get(i) {
        Some(x) => Ok(*x),
        None => Err(lost()),
    }
}

/// Puts an element into a list.
pub fn put(list: &mut Vec<usize>, i: usize, x: usize) -> Result<(), NoMemory> {
    match list.get_mut(i) {
        Some(old) => {
            *old = x;
            Ok(())
        }
        None => Err(lost()),
    }
}

/// Appends to a row.
pub fn put_in(rows: &mut Vec<Vec<usize>>, i: usize, x: usize) -> Result<(), NoMemory> {
    match rows.get_mut(i) {
        Some(row) => push(row, x),
        None => Err(lost()),
    }
}

/// So many empty rows.
pub fn rows(alloc: Global, n: usize) -> Result<Vec<Vec<usize>>, NoMemory> {
    let mut rows = Vec::new(alloc);
    for _ in 0..n {
        push(&mut rows, Vec::new(alloc))?;
    }
    Ok(rows)
}

/// A row.
pub fn row(rows: &[Vec<usize>], i: usize) -> Result<&[usize], NoMemory> {
    match rows.get(i) {
        Some(row) => Ok(row.as_slice()),
        None => Err(lost()),
    }
}

// The parent of each plan, which stands before it.
fn parents(alloc: Global, plans: &[HierPlan]) -> Result<Vec<usize>, NoMemory> {
    let mut parent = Vec::new(alloc);
    for (k, plan) in plans.iter().enumerate() {
        let up = if k == 0 { 0 } else { plan.parent as usize };
        if k > 0 && up >= k {
            return Err(lost());
        }
        push(&mut parent, up)?;
    }
    Ok(parent)
}

fn depths(alloc: Global, parent: &[usize]) -> Result<Vec<usize>, NoMemory> {
    let mut depth: Vec<usize> = Vec::new(alloc);
    for (k, up) in parent.iter().enumerate() {
        let d = if k == 0 {
            0
        } else {
            at(depth.as_slice(), *up)?.saturating_add(1)
        };
        push(&mut depth, d)?;
    }
    Ok(depth)
}

// How many stand in each, itself among them.
fn sizes(alloc: Global, parent: &[usize]) -> Result<Vec<usize>, NoMemory> {
    let mut size = vec![in alloc; 1; parent.len()]?;
    for (k, up) in parent.iter().enumerate().rev() {
        if k > 0 {
            let more = at(size.as_slice(), k)?;
            let sum = at(size.as_slice(), *up)?.saturating_add(more);
            put(&mut size, *up, sum)?;
        }
    }
    Ok(size)
}

// The place of each in the walk: after the one around it and those before it there.
fn places(alloc: Global, parent: &[usize]) -> Result<Vec<usize>, NoMemory> {
    let size = sizes(alloc, parent)?;
    let mut place = vec![in alloc; 0; parent.len()]?;
    let mut free = vec![in alloc; 1; parent.len()]?;
    for (k, up) in parent.iter().enumerate() {
        if k > 0 {
            let here = at(free.as_slice(), *up)?;
            put(&mut place, k, here)?;
            put(&mut free, k, here.saturating_add(1))?;
            let behind = here.saturating_add(at(size.as_slice(), k)?);
            put(&mut free, *up, behind)?;
        }
    }
    Ok(place)
}

fn by_place(alloc: Global, place: &[usize]) -> Result<Vec<usize>, NoMemory> {
    let mut walk = vec![in alloc; 0; place.len()]?;
    for (k, here) in place.iter().enumerate() {
        put(&mut walk, *here, k)?;
    }
    Ok(walk)
}

fn children_of(alloc: Global, parent: &[usize]) -> Result<Vec<Vec<usize>>, NoMemory> {
    let mut children = rows(alloc, parent.len())?;
    for (k, up) in parent.iter().enumerate() {
        if k > 0 {
            put_in(&mut children, *up, k)?;
        }
    }
    Ok(children)
}

/// The tree of plans.
pub fn tree_of(alloc: Global, plans: &[HierPlan]) -> Result<Tree, NoMemory> {
    let parent = parents(alloc, plans)?;
    let place = places(alloc, parent.as_slice())?;
    Ok(Tree {
        depth: depths(alloc, parent.as_slice())?,
        walk: by_place(alloc, place.as_slice())?,
        children: children_of(alloc, parent.as_slice())?,
        place,
        parent,
    })
}

/// The numbers of plans in a walk from the top, each followed at once by those in it.
pub fn walk(alloc: Global, plans: &[HierPlan]) -> Result<Vec<usize>, NoMemory> {
    let parent = parents(alloc, plans)?;
    let place = places(alloc, parent.as_slice())?;
    by_place(alloc, place.as_slice())
}

/// The first and the last of some module objects by their places in the walk.
#[derive(Clone, Copy)]
pub struct Span {
    first: usize,
    last: usize,
}

impl Tree {
    /// One module object alone.
    pub fn alone(&self, k: usize) -> Result<Span, NoMemory> {
        let here = at(self.place.as_slice(), k)?;
        Ok(Span {
            first: here,
            last: here,
        })
    }

    /// With one more.
    pub fn with(&self, span: Span, k: usize) -> Result<Span, NoMemory> {
        let here = at(self.place.as_slice(), k)?;
        Ok(Span {
            first: span.first.min(here),
            last: span.last.max(here),
        })
    }

    /// The lowest module object around all of them: what lies around the first and the last lies around those between them.
    pub fn lowest(&self, span: Span) -> Result<usize, NoMemory> {
        let mut a = at(self.walk.as_slice(), span.first)?;
        let mut b = at(self.walk.as_slice(), span.last)?;
        for _ in 0..usize::MAX {
            if a == b {
                return Ok(a);
            }
            if at(self.depth.as_slice(), a)? >= at(self.depth.as_slice(), b)? {
                a = at(self.parent.as_slice(), a)?;
            } else {
                b = at(self.parent.as_slice(), b)?;
            }
        }
        Err(lost())
    }
}
