//! Processes.
ghost use Rattle.std.specs.Prelude.{◌≡◌, ◌++◌, map, option_map, option_and_then, IfOk, OnOk};
ghost use Rattle.scc_elab_after.specs.Processes.{clock_in};
ghost use Rattle.scc_elab_grown.specs.Grown.{grown_of};
ghost use Rattle.scc_elab_grown.specs.Records.{item_of, record_of, reset_of};
ghost use Rattle.scc_elab_left.specs.Lefts.{all_sensed, at_most_one, edge_by, sensed};
ghost use Rattle.scc_elab_spec.specs.After.{clock_of as clock_there, first_reset, root as root_in};
ghost use Rattle.scc_elab_spec.specs.Elaborated.{process_left, reset_left as reset_there};
ghost use Rattle.scc_plain_view.specs.Designs.{edge_of, is_thread as goes_on, process_of as process_in, reset_of as reset_in};

use scc_base::{List, NoMemory};
use scc_elab_after::{Clock, clock_of};
use scc_elab_design::{Edge, Process, Reset, Sort};
use scc_elab_grown::{Grown, Item, Record, ResetItem};
use scc_elab_ports::root_of;

fn root_at(g: &Grown, signal: Option<u32>) -> Option<u32>
    ensures { result ≡ option_map (root_in (grown_of g.now)) signal }
{
    match signal {
        Some(number) => Some(root_of(g, number)),
        None => None,
    }
}

fn put(list: &mut List<u32>, root: Option<u32>) -> Result<(), NoMemory>
    ensures { OnOk result (list.new ≡ list.old ++ at_most_one root) }
{
    match root {
        Some(root) => list.push(root),
        None => Ok(()),
    }
}

// The root of what an item names counts by its level.
fn sense(g: &Grown, list: &mut List<u32>, item: &Item) -> Result<(), NoMemory>
    ensures { OnOk result (list.new ≡ list.old ++ sensed (grown_of g.now) (item_of item.now)) }
{
    if item.rising.is_none() {
        put(list, root_at(g, item.signal))
    } else {
        Ok(())
    }
}

fn senses_of(g: &Grown, items: &[Item]) -> Result<List<u32>, NoMemory>
    ensures { IfOk result (λ s. s ≡ all_sensed (grown_of g.now) (map item_of items.now)) }
{
    let mut list = List::new(g.alloc);
    for item in items {
        sense(g, &mut list, item)?;
    }
    Ok(list)
}

fn edge_at(clock: Option<Clock>) -> Option<Edge>
    ensures { option_map edge_of result ≡ option_map edge_by (option_map clock_in clock) }
{
    match clock {
        Some(c) => Some(Edge {
            root: c.root,
            rising: c.rising,
        }),
        None => None,
    }
}

fn reset_left(g: &Grown, reset: &ResetItem) -> Option<Reset>
    ensures { option_map reset_in result ≡ reset_there (grown_of g.now) (reset_of reset.now) }
{
    match root_at(g, reset.signal) {
        Some(root) => Some(Reset {
            root,
            level: reset.level,
            asynchronous: reset.asynchronous,
        }),
        None => None,
    }
}

fn first_left(g: &Grown, resets: &[ResetItem]) -> Option<Reset>
    ensures { option_map reset_in result ≡ option_and_then (reset_there (grown_of g.now)) (first_reset (map reset_of resets.now)) }
{
    match resets {
        [] => None,
        [first, _rest @ ..] => reset_left(g, first),
    }
}

fn sort_of(is_thread: bool) -> Sort
    ensures { goes_on result ≡ is_thread }
{
    if is_thread {
        Sort::Thread
    } else {
        Sort::Method
    }
}

/// A process that is left.
pub fn process_of(g: &Grown, r: &Record) -> Result<Process, NoMemory>
    ensures { IfOk result (λ p. process_in p ≡ process_left (grown_of g.now) (record_of r.now)) }
{
    let senses = senses_of(g, r.items.as_slice())?;
    Ok(Process {
        object: r.object,
        function: r.function,
        place: r.place,
        sort: sort_of(r.is_thread),
        senses,
        edge: edge_at(clock_of(g, r)),
        reset: first_left(g, r.resets.as_slice()),
    })
}

/// The processes that are left.
pub fn processes_of(g: &Grown) -> Result<List<Process>, NoMemory>
    ensures { IfOk result (λ ps. map process_in ps ≡ map (process_left (grown_of g.now)) (grown_of g.now).declared) }
{
    let mut list = List::new(g.alloc);
    for r in g.records.as_slice() {
        list.push(process_of(g, r)?)?;
    }
    Ok(list)
}
