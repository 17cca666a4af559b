//! Roots with two writers, and variables that two processes share.
ghost use Rattle.std.specs.Prelude.{IfOk};
ghost use Rattle.scc_base.specs.declared.code.Code.TheVariants as code;
ghost use Rattle.scc_rules.specs.Refusals.{Finds};

use crate::facts::{Facts, Role, filled};
use scc_base::{Code, NoMemory, Place, Refusal, lost};
use scc_core_flow::Mark;
use std::alloc::Global;

/// Where a process first writes or names a cell: the process, counted from 1, and the statement.
#[derive(Clone, Copy, PartialEq, Eq)]
struct First {
    process: u32,
    number: u32,
    place: Place,
}

impl First {
    fn of(process: u32, mark: &Mark) -> First {
        First {
            process,
            number: mark.number,
            place: mark.statement,
        }
    }

    // Whether it comes before another one.
    fn precedes(&self, other: First) -> bool {
        self.process < other.process || self.process == other.process && self.number < other.number
    }
}

fn earlier(a: Option<First>, b: First) -> Option<First> {
    match a {
        Some(a) if a.precedes(b) => Some(a),
        Some(_) | None => Some(b),
    }
}

fn refused(code: Code, place: Place, other: First) -> Option<Refusal>
    ensures { Finds code result }
{
    Some(Refusal {
        code,
        place,
        other: Some(other.place),
    })
}

/// A root that two processes write: at the first such statement of the later one.
pub fn two_writers(alloc: Global, f: &Facts<'_>) -> Result<Option<Refusal>, NoMemory>
    ensures { IfOk result (Finds code.TwoWriters) }
{
    let mut firsts = filled(alloc, f.core.cells.len(), None)?;
    let mut process = 0u32;
    for marks in f.marks.iter() {
        process = process.saturating_add(1);
        for mark in marks.as_slice() {
            if !mark.write || f.role(mark.named.base)? != Role::Root {
                continue;
            }
            if let Some(first) = clash(alloc, f, mark, process, &mut firsts)? {
                // E501.
                return Ok(refused(Code::TwoWriters, mark.statement, first));
            }
        }
    }
    Ok(None)
}

// The earliest other writer of a root that a mark writes; the mark becomes the first writer of those that have none.
fn clash(
    alloc: Global,
    f: &Facts<'_>,
    mark: &Mark,
    process: u32,
    firsts: &mut Vec<Option<First>>,
) -> Result<Option<First>, NoMemory> {
    let mut found = None;
    for cell in f.cells(alloc, mark)?.iter() {
        let Some(first) = firsts.get_mut(*cell as usize) else {
            return Err(lost());
        };
        match *first {
            None => *first = Some(First::of(process, mark)),
            Some(other) if other.process != process => found = earlier(found, other),
            Some(_) => {}
        }
    }
    Ok(found)
}

/// What is known of the processes so far.
struct Shared {
    /// For each variable where the first process that names it does.
    named: Vec<Option<First>>,
    /// Where the first process that writes it first names it.
    written: Vec<Option<First>>,
    /// Where the process at hand first names it.
    own: Vec<Option<First>>,
    /// The last process that writes it.
    writes: Vec<u32>,
}

// One call at each exit of what owns it.
impl Drop for Shared {
    fn drop(self) {
        let Shared {
            named: _named,
            written: _written,
            own: _own,
            writes: _writes,
        } = self;
    }
}

/// A variable that two processes name and one of them writes: at the first such statement of the later one.
pub fn shared_variable(alloc: Global, f: &Facts<'_>) -> Result<Option<Refusal>, NoMemory>
    ensures { IfOk result (Finds code.SharedVariable) }
{
    let n = f.core.cells.len();
    let named = filled(alloc, n, None)?;
    let written = filled(alloc, n, None)?;
    let own = filled(alloc, n, None)?;
    let writes = filled(alloc, n, 0)?;
    let mut shared = Shared {
        named,
        written,
        own,
        writes,
    };
    first_shared(alloc, f, &mut shared)
}

fn first_shared(
    alloc: Global,
    f: &Facts<'_>,
    shared: &mut Shared,
) -> Result<Option<Refusal>, NoMemory>
    ensures { IfOk result (Finds code.SharedVariable) }
{
    let mut process = 0u32;
    for marks in f.marks.iter() {
        process = process.saturating_add(1);
        for mark in marks.as_slice() {
            if mark.write && f.role(mark.named.base)? == Role::Variable {
                stamp(alloc, f, mark, process, &mut shared.writes)?;
            }
        }
        if let Some(found) = shared_by(alloc, f, marks.as_slice(), process, shared)? {
            return Ok(Some(found));
        }
    }
    Ok(None)
}

fn stamp(
    alloc: Global,
    f: &Facts<'_>,
    mark: &Mark,
    process: u32,
    writes: &mut Vec<u32>,
) -> Result<(), NoMemory> {
    for cell in f.cells(alloc, mark)?.iter() {
        match writes.get_mut(*cell as usize) {
            Some(last) => *last = process,
            None => return Err(lost()),
        }
    }
    Ok(())
}

// The first statement of a process that names a variable in conflict.
fn shared_by(
    alloc: Global,
    f: &Facts<'_>,
    marks: &[Mark],
    process: u32,
    shared: &mut Shared,
) -> Result<Option<Refusal>, NoMemory>
    ensures { IfOk result (Finds code.SharedVariable) }
{
    let mut met: Option<(u32, Place, First)> = None;
    for mark in marks {
        if let Some((number, place, first)) = met
            && number != mark.number
        {
            // E502.
            return Ok(refused(Code::SharedVariable, place, first));
        }
        if f.role(mark.named.base)? != Role::Variable {
            continue;
        }
        let mut found = met.map(|(_, _, first)| first);
        for cell in f.cells(alloc, mark)?.iter() {
            if let Some(other) = conflict(*cell, process, shared) {
                found = earlier(found, other);
            }
        }
        if let Some(first) = found {
            met = Some((mark.number, mark.statement, first));
        }
        note(alloc, f, mark, process, shared)?;
    }
    Ok(match met {
        Some((_, place, first)) => refused(Code::SharedVariable, place, first),
        None => None,
    })
}

// The earliest other process with which naming a variable is a conflict: any that names it where this one writes it, else one
// that writes it.
fn conflict(cell: u32, process: u32, shared: &Shared) -> Option<First> {
    let at = cell as usize;
    let list = if shared.writes.get(at) == Some(&process) {
        &shared.named
    } else {
        &shared.written
    };
    match list.get(at) {
        Some(Some(first)) if first.process != process => Some(*first),
        _ => None,
    }
}

fn note(
    alloc: Global,
    f: &Facts<'_>,
    mark: &Mark,
    process: u32,
    shared: &mut Shared,
) -> Result<(), NoMemory> {
    for cell in f.cells(alloc, mark)?.iter() {
        let at = *cell as usize;
        let (Some(named), Some(written), Some(own)) = (
            shared.named.get_mut(at),
            shared.written.get_mut(at),
            shared.own.get_mut(at),
        ) else {
            return Err(lost());
        };
        let first = match *own {
            Some(first) if first.process == process => first,
            Some(_) | None => First::of(process, mark),
        };
        *own = Some(first);
        if named.is_none() {
            *named = Some(first);
        }
        if mark.write && written.is_none() {
            *written = Some(first);
        }
    }
    Ok(())
}
