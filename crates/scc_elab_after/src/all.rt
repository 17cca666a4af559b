//! All processes, one after another, and all that is looked for beside them.
ghost use Rattle.std.specs.Prelude.{◌≡◌, [], ◌∷◌, map, List, OnOk};
ghost use Rattle.scc_core_spec.specs.First.{first_some};
ghost use Rattle.scc_elab_after.specs.Clocks.{Knows};
ghost use Rattle.scc_elab_grown.specs.Grown.{grown_of};
ghost use Rattle.scc_elab_grown.specs.Records.{record_of};
ghost use Rattle.scc_elab_ports.specs.Unbound.{Says};
ghost use Rattle.scc_elab_spec.specs.After.{bad_process, Clock as ClockOf, clock_of as clock_there, clocks_if, refused_after, unbound};
ghost use Rattle.scc_plain_view.specs.Plains.{plain_of};

use crate::clocks::{check_process, note_clock};
use crate::processes::{Clock, clock_of};
use scc_base::{NoMemory, Stop};
use scc_elab_checks::check_functions;
use scc_elab_grown::{Grown, Record};
use scc_elab_ports::check_ports;
use scc_plain_tree::Plain;

fn note(g: &Grown, many: bool, firsts: &mut Vec<Clock>, r: &Record) -> Result<(), NoMemory>
    ensures { OnOk result ((before : List ClockOf) → Knows many before firsts.old.items → Knows many (clocks_if (clock_there (grown_of g.now) (record_of r.now)) before) firsts.new.items) }
{
    match clock_of(g, r) {
        Some(c) => note_clock(many, firsts, c),
        None => Ok(()),
    }
}

/// What is looked for of processes, one after another.
pub fn check_each(
    g: &Grown,
    many: bool,
    firsts: &mut Vec<Clock>,
    list: &[Record],
) -> Result<(), Stop>
    ensures { (before : List ClockOf) → Knows many before firsts.old.items → Says (bad_process many (grown_of g.now) before (map record_of list.now)) result }
{
    for r in list {
        if let Err(stop) = check_process(g, many, firsts.as_slice(), r) {
            return Err(stop);
        }
        note(g, many, firsts, r)?;
    }
    Ok(())
}

/// What is looked for of all processes that constructors declared: the first refusal, E406, E407, E409 or E413. `many`: with
/// several clocks.
#[tactic(auto, using(crate::proofs::Walking::none_known))]
pub fn check_processes(g: &Grown, many: bool) -> Result<(), Stop>
    ensures { Says (bad_process many (grown_of g.now) [] (grown_of g.now).declared) result }
{
    let mut firsts = Vec::new(g.alloc);
    check_each(g, many, &mut firsts, g.records.as_slice())
}

fn check_made(g: &Grown, many: bool) -> Result<(), Stop>
    ensures { Says (first_some (unbound (grown_of g.now) ∷ bad_process many (grown_of g.now) [] (grown_of g.now).declared ∷ [])) result }
{
    match check_ports(g) {
        Ok(()) => check_processes(g, many),
        Err(stop) => Err(stop),
    }
}

/// What is looked for when construction has run: the first refusal, of a statement of construction in a function that is no
/// constructor (E404), of a port without a binding (E401), or of a process (E406, E407, E409, E413). `many`: with several clocks.
pub fn check_after(p: &Plain, g: &Grown, many: bool) -> Result<(), Stop>
    ensures { Says (refused_after many (plain_of p.now) (grown_of g.now)) result }
{
    match check_functions(g.alloc, p) {
        Ok(()) => check_made(g, many),
        Err(stop) => Err(stop),
    }
}
