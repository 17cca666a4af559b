//! Processes are looked at when construction has run: sensitivity, clocks and resets.
use crate::after::root_of;
use indexmap::IndexMap;
use scc_base::{Code, List, NoMemory, Place, Stop, lost};
use scc_bits::Kind;
use scc_elab_design::{Edge, Process, Reset, Sort};
use scc_elab_state::grown::Grown;
use scc_elab_state::records::{Record, Sensed};
use scc_elab_state::spots::TOP;
use scc_elab_state::things::{MOST_CLOCKS, ThingSort};

// The edges that processes name, by their ports.
#[derive(Drop)]
struct Clocks {
    /// Whether processes may name several clocks.
    many: bool,
    first: Option<Clock>,
    by_root: IndexMap<u32, Clock>,
}

// An edge, and the first process that names its port.
#[derive(Clone, Copy)]
struct Clock {
    edge: Edge,
    place: Place,
}

/// The processes of the design. Refused as E406, E407, E409 and, for several clocks, E413.
pub fn processes_of(g: &Grown, many: bool) -> Result<List<Process>, Stop> {
    let mut clocks = Clocks {
        many,
        first: None,
        by_root: IndexMap::new(g.alloc),
    };
    all_of(g, &mut clocks)
}

fn all_of(g: &Grown, clocks: &mut Clocks) -> Result<List<Process>, Stop> {
    let mut list = List::new(g.alloc);
    for record in g.records.as_slice() {
        list.push(process_of(record, clocks, g)?)?;
    }
    Ok(list)
}

fn process_of(r: &Record, clocks: &mut Clocks, g: &Grown) -> Result<Process, Stop> {
    check_senses(r)?;
    check_resets(r, g)?;
    let edge = edge_of(r, g)?;
    if let Some(edge) = edge {
        check_clock(edge, r.place, clocks, g)?;
    }
    let reset = reset_of(r, g)?;
    if r.thread && reset.is_none() {
        // E409.
        return Err(Stop::refused(Code::NoReset, r.place));
    }
    Ok(Process {
        object: r.object,
        function: r.function,
        place: r.place,
        sort: if r.thread { Sort::Thread } else { Sort::Method },
        senses: levels_of(r, g)?,
        edge,
        reset,
    })
}

fn is_edge(sense: &Sensed) -> bool {
    sense.rising.is_some()
}

// Whether a sensitivity is one that such a process may have: one edge for a thread, one edge or some levels for a method.
fn may_have(thread: bool, senses: &[Sensed]) -> bool {
    let has_edge = senses.iter().any(is_edge);
    if thread || has_edge {
        has_edge && senses.len() == 1
    } else {
        !senses.is_empty()
    }
}

fn check_senses(r: &Record) -> Result<(), Stop> {
    if !may_have(r.thread, r.senses.as_slice()) {
        // E406.
        return Err(Stop::refused(Code::Sensitivity, r.place));
    }
    for sense in r.senses.as_slice() {
        if sense.object.is_none() {
            return Err(Stop::refused(Code::Sensitivity, sense.place));
        }
    }
    Ok(())
}

// Only a thread has a reset, and one alone, a `bool`.
fn check_resets(r: &Record, g: &Grown) -> Result<(), Stop> {
    for (at, reset) in r.resets.as_slice().iter().enumerate() {
        if !r.thread || at > 0 || !is_bool(reset.object, g)? {
            return Err(Stop::refused(Code::Sensitivity, reset.place));
        }
    }
    Ok(())
}

fn is_bool(object: Option<u32>, g: &Grown) -> Result<bool, NoMemory> {
    let Some(number) = object else {
        return Ok(false);
    };
    match g.thing(number)?.sort {
        ThingSort::Port { kind, .. } => Ok(kind == Kind::Bool),
        ThingSort::Signal(kind) => Ok(kind == Kind::Bool),
        _ => Ok(false),
    }
}

fn edge_of(r: &Record, g: &Grown) -> Result<Option<Edge>, NoMemory> {
    for sense in r.senses.as_slice() {
        if let (Some(object), Some(rising)) = (sense.object, sense.rising) {
            let root = root_of(g, object)?;
            return Ok(Some(Edge { root, rising }));
        }
    }
    Ok(None)
}

fn levels_of(r: &Record, g: &Grown) -> Result<List<u32>, NoMemory> {
    let mut list = List::new(g.alloc);
    for sense in r.senses.as_slice() {
        if let (Some(object), None) = (sense.object, sense.rising) {
            list.push(root_of(g, object)?)?;
        }
    }
    Ok(list)
}

// Whether a root is an input of the top for a `bool`.
fn is_input(root: u32, g: &Grown) -> Result<bool, NoMemory> {
    let thing = g.thing(root)?;
    match thing.sort {
        ThingSort::Port {
            kind: Kind::Bool,
            output: false,
            ..
        } => Ok(g.module_of(thing.spot)? == Some(TOP)),
        _ => Ok(false),
    }
}

fn check_clock(edge: Edge, place: Place, clocks: &mut Clocks, g: &Grown) -> Result<(), Stop> {
    if !is_input(edge.root, g)? {
        // E407.
        return Err(Stop::refused(Code::ClockPort, place));
    }
    let known = if clocks.many {
        clocks.by_root.get(&edge.root).copied()
    } else {
        clocks.first
    };
    match known {
        Some(first) if first.edge != edge => {
            Err(Stop::refused_beside(Code::ClockPort, place, first.place))
        }
        Some(_) => Ok(()),
        None => add_clock(Clock { edge, place }, clocks),
    }
}

fn add_clock(clock: Clock, clocks: &mut Clocks) -> Result<(), Stop> {
    if !clocks.many {
        clocks.first = Some(clock);
        return Ok(());
    }
    if clocks.by_root.len() >= MOST_CLOCKS {
        // E413.
        return Err(Stop::refused(Code::TooManyClocks, clock.place));
    }
    let _old = clocks
        .by_root
        .insert(clock.edge.root, clock)
        .map_err(NoMemory::from)?;
    Ok(())
}

fn reset_of(r: &Record, g: &Grown) -> Result<Option<Reset>, Stop> {
    let Some(reset) = r.resets.first() else {
        return Ok(None);
    };
    let Some(object) = reset.object else {
        return Err(Stop::from(lost()));
    };
    let root = root_of(g, object)?;
    if reset.asynchronous && !is_input(root, g)? {
        return Err(Stop::refused(Code::ClockPort, r.place));
    }
    Ok(Some(Reset {
        root,
        level: reset.level,
        asynchronous: reset.asynchronous,
    }))
}
