//! Which combinational methods read what others write: their order, and cycles.
ghost use Rattle.std.specs.Prelude.{IfOk};
ghost use Rattle.scc_base.specs.declared.code.Code.TheVariants as code;
ghost use Rattle.scc_rules.specs.Refusals.{Finds};

use crate::facts::{Facts, Role, filled, is_combinational};
use scc_base::{Code, List, NoMemory, Refusal, lost, push};
use scc_core_flow::Mark;
use std::alloc::Global;
use std::collections::BTreeSet;

/// For each process the combinational methods that read a root that it writes, each once.
#[derive(Drop)]
pub struct Readers {
    /// The combinational methods, ascending.
    methods: Vec<u32>,
    lists: Vec<Vec<u32>>,
}

/// Who reads whom.
pub fn readers_of(alloc: Global, f: &Facts<'_>) -> Result<Readers, NoMemory> {
    let writers = writers_of(alloc, f)?;
    let mut found = Readers {
        methods: Vec::new(alloc),
        lists: Vec::new(alloc),
    };
    found.list(alloc, f)?;
    found.fill(alloc, f, writers.as_slice())?;
    Ok(found)
}

// For each cell the last combinational method that writes it.
fn writers_of(alloc: Global, f: &Facts<'_>) -> Result<Vec<Option<u32>>, NoMemory> {
    let mut writers = filled(alloc, f.core.cells.len(), None)?;
    let mut n = 0u32;
    for (p, marks) in f.core.processes.as_slice().iter().zip(f.marks.iter()) {
        if is_combinational(p) {
            for mark in marks.as_slice() {
                write(alloc, f, mark, n, &mut writers)?;
            }
        }
        n = behind(n)?;
    }
    Ok(writers)
}

fn write(
    alloc: Global,
    f: &Facts<'_>,
    mark: &Mark,
    n: u32,
    writers: &mut Vec<Option<u32>>,
) -> Result<(), NoMemory> {
    if !mark.write || f.role(mark.named.base)? != Role::Root {
        return Ok(());
    }
    for cell in f.cells(alloc, mark)?.iter() {
        match writers.get_mut(*cell as usize) {
            Some(writer) => *writer = Some(n),
            None => return Err(lost()),
        }
    }
    Ok(())
}

fn behind(n: u32) -> Result<u32, NoMemory> {
    n.checked_add(1).ok_or(lost())
}

impl Readers {
    // Lists the combinational methods, and no reader yet.
    fn list(&mut self, alloc: Global, f: &Facts<'_>) -> Result<(), NoMemory> {
        let mut n = 0u32;
        for p in f.core.processes.as_slice() {
            push(&mut self.lists, Vec::new(alloc))?;
            if is_combinational(p) {
                push(&mut self.methods, n)?;
            }
            n = behind(n)?;
        }
        Ok(())
    }

    // Adds each method to the readers of those that write what it reads.
    fn fill(
        &mut self,
        alloc: Global,
        f: &Facts<'_>,
        writers: &[Option<u32>],
    ) -> Result<(), NoMemory> {
        let mut last = filled(alloc, f.core.processes.len(), None)?;
        for reader in self.methods.iter() {
            let Some(marks) = f.marks.get(*reader as usize) else {
                return Err(lost());
            };
            for mark in marks.as_slice() {
                read(alloc, f, mark, *reader, writers, &mut last, &mut self.lists)?;
            }
        }
        Ok(())
    }
}

fn read(
    alloc: Global,
    f: &Facts<'_>,
    mark: &Mark,
    reader: u32,
    writers: &[Option<u32>],
    last: &mut Vec<Option<u32>>,
    lists: &mut Vec<Vec<u32>>,
) -> Result<(), NoMemory> {
    if mark.write || f.role(mark.named.base)? != Role::Root {
        return Ok(());
    }
    for cell in f.cells(alloc, mark)?.iter() {
        if let Some(Some(writer)) = writers.get(*cell as usize) {
            reads(reader, *writer, last, lists)?;
        }
    }
    Ok(())
}

// Notes that one method reads what another writes; `last` has the last reader of each writer.
fn reads(
    reader: u32,
    writer: u32,
    last: &mut Vec<Option<u32>>,
    lists: &mut Vec<Vec<u32>>,
) -> Result<(), NoMemory> {
    match (
        last.get_mut(writer as usize),
        lists.get_mut(writer as usize),
    ) {
        (Some(last), Some(list)) => {
            if *last != Some(reader) {
                *last = Some(reader);
                push(list, reader)?;
            }
            Ok(())
        }
        _ => Err(lost()),
    }
}

fn list_of<'a>(r: &'a Readers, n: u32) -> Result<&'a [u32], NoMemory> {
    match r.lists.get(n as usize) {
        Some(list) => Ok(list.as_slice()),
        None => Err(lost()),
    }
}

/// The combinational methods, each behind the others that write what it reads, the least number first. None of them is on a
/// cycle.
pub fn order_of(alloc: Global, r: &Readers) -> Result<List<u32>, NoMemory> {
    let mut sorting = Sorting::new(alloc, r.lists.len())?;
    sorting.count(r)?;
    sorting.begin(r)?;
    sorting.run(r)?;
    Ok(sorting.into_order())
}

// Methods that are being ordered.
struct Sorting {
    // For each process how many others write what it reads and aren't ordered yet.
    missing: Vec<u32>,
    // Those that wait for no other.
    ready: BTreeSet<u32>,
    order: List<u32>,
}

// One call at each exit of what owns it.
impl Drop for Sorting {
    fn drop(self) {
        let Sorting {
            missing: _missing,
            ready: _ready,
            order: _order,
        } = self;
    }
}

impl Sorting {
    // Of so many processes.
    fn new(alloc: Global, processes: usize) -> Result<Sorting, NoMemory> {
        let missing = filled(alloc, processes, 0u32)?;
        Ok(Sorting {
            missing,
            ready: BTreeSet::new(alloc),
            order: List::new(alloc),
        })
    }

    fn into_order(self) -> List<u32> {
        let Sorting {
            missing: _missing,
            ready: _ready,
            order,
        } = self;
        order
    }

    // Counts for each method those that write what it reads.
    fn count(&mut self, r: &Readers) -> Result<(), NoMemory> {
        for writer in r.methods.iter() {
            for reader in list_of(r, *writer)? {
                if reader != writer {
                    let Some(count) = self.missing.get_mut(*reader as usize) else {
                        return Err(lost());
                    };
                    *count = behind(*count)?;
                }
            }
        }
        Ok(())
    }

    fn begin(&mut self, r: &Readers) -> Result<(), NoMemory> {
        for n in r.methods.iter() {
            if self.missing.get(*n as usize) == Some(&0) {
                let _is_new = self.ready.insert(*n)?;
            }
        }
        Ok(())
    }

    fn run(&mut self, r: &Readers) -> Result<(), NoMemory> {
        for _ in 0..r.methods.len() {
            let Some(n) = self.ready.pop_first() else {
                return Err(lost());
            };
            self.order.push(n)?;
            for reader in list_of(r, n)? {
                if *reader != n {
                    self.settle(*reader)?;
                }
            }
        }
        Ok(())
    }

    // One that writes what a method reads is ordered.
    fn settle(&mut self, reader: u32) -> Result<(), NoMemory> {
        let Some(count) = self.missing.get_mut(reader as usize) else {
            return Err(lost());
        };
        let Some(fewer) = count.checked_sub(1) else {
            return Err(lost());
        };
        *count = fewer;
        if fewer == 0 {
            let _is_new = self.ready.insert(reader)?;
        }
        Ok(())
    }
}

/// The first method on a cycle, with the first that reads what it writes on a cycle with it.
pub fn comb_loop(alloc: Global, f: &Facts<'_>, r: &Readers) -> Result<Option<Refusal>, NoMemory>
    ensures { IfOk result (Finds code.CombLoop) }
{
    let groups = groups_of(alloc, r)?;
    for n in r.methods.iter() {
        let mut other: Option<u32> = None;
        for m in list_of(r, *n)? {
            let together = n == m || groups.get(*n as usize) == groups.get(*m as usize);
            if together && other.is_none_or(|least| *m < least) {
                other = Some(*m);
            }
        }
        if let Some(m) = other {
            let (Some(first), Some(second)) = (
                f.core.processes.get(*n as usize),
                f.core.processes.get(m as usize),
            ) else {
                return Err(lost());
            };
            return Ok(Some(Refusal {
                // E505.
                code: Code::CombLoop,
                place: first.place,
                other: Some(second.place),
            }));
        }
    }
    Ok(None)
}

/// The state of Tarjan's search for strongly connected parts.
#[derive(Drop)]
struct Search {
    /// When each method was met, counted from 1; 0 for not yet.
    met: Vec<u32>,
    /// The least time reached from it.
    low: Vec<u32>,
    /// The part of those that are done.
    group: Vec<Option<u32>>,
    /// Those that are met and not done.
    open: Vec<u32>,
    /// Those that are being walked, with the number of their next reader.
    walk: Vec<(u32, usize)>,
    time: u32,
}

// For each method on which cycles it stands: methods of one group reach each other.
fn groups_of(alloc: Global, r: &Readers) -> Result<Vec<Option<u32>>, NoMemory> {
    let n = r.lists.len();
    let mut s = Search {
        met: filled(alloc, n, 0)?,
        low: filled(alloc, n, 0)?,
        group: filled(alloc, n, None)?,
        open: Vec::new(alloc),
        walk: Vec::new(alloc),
        time: 0,
    };
    for method in r.methods.iter() {
        if s.met.get(*method as usize) == Some(&0) {
            enter(*method, &mut s)?;
            for _ in 0..usize::MAX {
                let Some((at, next)) = s.walk.pop() else {
                    break;
                };
                turn(at, next, r, &mut s)?;
            }
        }
    }
    let Search { group, .. } = s;
    Ok(group)
}

fn enter(n: u32, s: &mut Search) -> Result<(), NoMemory> {
    s.time = s.time.saturating_add(1);
    let time = s.time;
    match (s.met.get_mut(n as usize), s.low.get_mut(n as usize)) {
        (Some(met), Some(low)) => {
            *met = time;
            *low = time;
        }
        _ => return Err(lost()),
    }
    push(&mut s.open, n)?;
    push(&mut s.walk, (n, 0))
}

// Goes on with a method: to its next reader, or back to the method from which it was met.
fn turn(at: u32, next: usize, r: &Readers, s: &mut Search) -> Result<(), NoMemory> {
    if let Some(reader) = list_of(r, at)?.get(next) {
        push(&mut s.walk, (at, next + 1))?;
        let to = *reader as usize;
        if s.met.get(to) == Some(&0) {
            return enter(*reader, s);
        }
        if s.group.get(to) == Some(&None) {
            let time = s.met.get(to).copied().unwrap_or(u32::MAX);
            lower(at, time, s);
        }
        return Ok(());
    }
    let low = s.low.get(at as usize).copied().unwrap_or(u32::MAX);
    if s.met.get(at as usize) == Some(&low) {
        close(at, s)?;
    }
    if let Some((back, _)) = s.walk.last().copied() {
        lower(back, low, s);
    }
    Ok(())
}

fn lower(n: u32, time: u32, s: &mut Search) {
    if let Some(low) = s.low.get_mut(n as usize) {
        *low = time.min(*low);
    }
}

// All that are open down to a method are one group, named after it.
fn close(n: u32, s: &mut Search) -> Result<(), NoMemory> {
    for _ in 0..usize::MAX {
        let Some(m) = s.open.pop() else {
            return Err(lost());
        };
        if let Some(group) = s.group.get_mut(m as usize) {
            *group = Some(n);
        }
        if m == n {
            return Ok(());
        }
    }
    Err(lost())
}
