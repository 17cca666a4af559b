//! Processes are declared, with their sensitivity and resets (IEEE 1666-2011, 5.2.9 and 5.2.10).
use crate::bind::object_at;
use crate::walk::{FIRM, location_of, value_of};
use scc_base::{Code, NoMemory, Place, Stop, lost, push};
use scc_elab_state::grown::Grown;
use scc_elab_state::program::function_of;
use scc_elab_state::records::{Record, ResetAt, Runs, Sensed};
use scc_elab_state::things::ThingSort;
use scc_plain_tree::{Plain, PlainExpr, PlainLeft, PlainSense};

/// Declares a process. Refused as E404 where its function has a parameter or result, or runs for this object already.
pub fn declare(
    edge: &Option<PlainSense>,
    thread: bool,
    function: u32,
    place: Place,
    p: &Plain,
    g: &mut Grown,
) -> Result<(), Stop> {
    let declared = function_of(p, function)?;
    if declared.params != 0 || declared.result.is_some() {
        // E404.
        return Err(Stop::refused(Code::Constructor, place));
    }
    let object = g.frame()?.object;
    let runs = Runs { object, function };
    if g.runs.contains(&runs) {
        return Err(Stop::refused(Code::Constructor, place));
    }
    let _is_new = g.runs.insert(runs).map_err(NoMemory::from)?;
    let record = Record::new(g.alloc, runs, place, thread);
    let Ok(number) = u32::try_from(g.records.len()) else {
        return Err(Stop::from(lost()));
    };
    push(&mut g.records, record)?;
    set_process(number, g)?;
    match edge {
        Some(sense) => sense_one(sense, number, p, g),
        None => Ok(()),
    }
}

fn set_process(number: u32, g: &mut Grown) -> Result<(), NoMemory> {
    match g.frames.last_mut() {
        Some(frame) => {
            frame.process = Some(number);
            Ok(())
        }
        None => Err(lost()),
    }
}

// The last process that this constructor declared. Refused as E406 where there is none.
fn last_process(place: Place, g: &Grown) -> Result<u32, Stop> {
    match g.frame()?.process {
        Some(number) => Ok(number),
        // E406.
        None => Err(Stop::refused(Code::Sensitivity, place)),
    }
}

/// Adds to the sensitivity of the last process.
pub fn sense_all(list: &[PlainSense], place: Place, p: &Plain, g: &mut Grown) -> Result<(), Stop> {
    let number = last_process(place, g)?;
    for sense in list {
        sense_one(sense, number, p, g)?;
    }
    Ok(())
}

fn sense_one(sense: &PlainSense, number: u32, p: &Plain, g: &mut Grown) -> Result<(), Stop> {
    let object = signal_at(&sense.signal, p, g)?;
    let sensed = Sensed {
        place: sense.place,
        object,
        rising: sense.rising,
    };
    match g.records.get_mut(number as usize) {
        Some(record) => Ok(push(&mut record.senses, sensed)?),
        None => Err(Stop::from(lost())),
    }
}

// The port or signal that a left side names.
fn signal_at(left: &Option<PlainLeft>, p: &Plain, g: &mut Grown) -> Result<Option<u32>, Stop> {
    let Some(left) = left else {
        return Ok(None);
    };
    let at = location_of(left, FIRM, p, g)?.at;
    let Some(number) = object_at(g, at)? else {
        return Ok(None);
    };
    match g.thing(number)?.sort {
        ThingSort::Port { .. } | ThingSort::Signal(_) => Ok(Some(number)),
        _ => Ok(None),
    }
}

/// Gives the last process a reset.
pub fn reset(
    signal: &Option<PlainLeft>,
    level: &PlainExpr,
    asynchronous: bool,
    place: Place,
    p: &Plain,
    g: &mut Grown,
) -> Result<(), Stop> {
    let number = last_process(place, g)?;
    let object = signal_at(signal, p, g)?;
    let reset = ResetAt {
        place,
        object,
        level: value_of(level, p, g)?.is_true(),
        asynchronous,
    };
    match g.records.get_mut(number as usize) {
        Some(record) => Ok(push(&mut record.resets, reset)?),
        None => Err(Stop::from(lost())),
    }
}
