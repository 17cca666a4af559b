//! A clock beside those of the processes before.
ghost use Rattle.std.specs.Prelude.{◌≡◌, ◌++◌, ◌∷◌, [], false, find, length, map, nat_eq, true, OnOk, option_and_then, option_map, List};
ghost use Rattle.scc_elab_after.specs.Clocks.{bad_one, beside, beside_first, beside_known, Knows};
ghost use Rattle.scc_elab_after.specs.Processes.{clock_in};
ghost use Rattle.scc_core_spec.specs.First.{first_some};
ghost use Rattle.scc_elab_grown.specs.Grown.{grown_of};
ghost use Rattle.scc_elab_grown.specs.Records.{record_of};
ghost use Rattle.scc_elab_ports.specs.Unbound.{Says};
ghost use Rattle.scc_elab_spec.specs.After.{bad_asynchronous, bad_clock, Clock as ClockOf, clock_of as clock_there, first_clock, no_reset, same_way as same_way_in};

use crate::processes::{Clock, check_asynchronous, check_reset, check_sensitivity, clock_of};
use scc_base::{Code, NoMemory, Stop, push};
use scc_elab_grown::{Grown, Record};
use scc_elab_ports::is_top_input;

const MOST_CLOCKS: usize = 128;

fn same_way(a: bool, b: bool) -> bool
    ensures { result ≡ same_way_in a b }
{
    if a { b } else { !b }
}

fn first_of(firsts: &[Clock]) -> Option<Clock>
    ensures { option_map clock_in result ≡ first_clock (map clock_in firsts.now) }
{
    match firsts {
        [] => None,
        [first, _rest @ ..] => Some(*first),
    }
}

fn has_root(b: &Clock, root: u32) -> bool
    ensures { result ≡ nat_eq (clock_in b.now).root root }
{
    b.root == root
}

fn known_of(firsts: &[Clock], root: u32) -> Option<Clock>
    ensures { option_map clock_in result ≡ find (λ b. nat_eq b.root root) (map clock_in firsts.now) }
{
    for b in firsts {
        if has_root(b, root) {
            return Some(*b);
        }
    }
    None
}

fn check_first(first: Option<Clock>, c: Clock) -> Result<(), Stop>
    ensures { Says (beside_first (option_map clock_in first) (clock_in c)) result }
{
    match first {
        Some(b) => {
            if b.root == c.root && same_way(b.rising, c.rising) {
                Ok(())
            } else {
                Err(Stop::refused_beside(Code::ClockPort, c.place, b.place))
            }
        }
        None => Ok(()),
    }
}

fn check_known(known: Option<Clock>, count: usize, c: Clock) -> Result<(), Stop>
    ensures { Says (beside_known (option_map clock_in known) count (clock_in c)) result }
{
    match known {
        Some(b) => {
            if same_way(b.rising, c.rising) {
                Ok(())
            } else {
                Err(Stop::refused_beside(Code::ClockPort, c.place, b.place))
            }
        }
        None => {
            if count >= MOST_CLOCKS {
                Err(Stop::refused(Code::TooManyClocks, c.place))
            } else {
                Ok(())
            }
        }
    }
}

// A clock whose root may be one.
#[tactic(auto, using(crate::proofs::Finds::one_says, crate::proofs::Finds::many_says))]
fn check_beside(many: bool, firsts: &[Clock], c: Clock) -> Result<(), Stop>
    ensures { (before : List ClockOf) → Knows many before firsts.now → Says (beside many before (clock_in c)) result }
{
    if many {
        check_known(known_of(firsts, c.root), firsts.len(), c)
    } else {
        check_first(first_of(firsts), c)
    }
}

/// Refuses a clock that is no input of the top for a `bool`, or goes another way than the first one, as E407; with several
/// clocks one too many, as E413. Known is the first clock of the processes before, or the first of each root.
pub fn check_clock(g: &Grown, many: bool, firsts: &[Clock], c: Clock) -> Result<(), Stop>
    ensures { (before : List ClockOf) → Knows many before firsts.now → Says (bad_clock many (grown_of g.now) before (clock_in c)) result }
{
    if is_top_input(g, c.root)? {
        check_beside(many, firsts, c)
    } else {
        Err(Stop::refused(Code::ClockPort, c.place))
    }
}

fn check_its_clock(g: &Grown, many: bool, firsts: &[Clock], r: &Record) -> Result<(), Stop>
    ensures { (before : List ClockOf) → Knows many before firsts.now → Says (option_and_then (bad_clock many (grown_of g.now) before) (clock_there (grown_of g.now) (record_of r.now))) result }
{
    match clock_of(g, r) {
        Some(c) => check_clock(g, many, firsts, c),
        None => Ok(()),
    }
}

fn check_ends(g: &Grown, r: &Record) -> Result<(), Stop>
    ensures { Says (first_some (bad_asynchronous (grown_of g.now) (record_of r.now) ∷ no_reset (record_of r.now) ∷ [])) result }
{
    match check_asynchronous(g, r) {
        Ok(()) => check_reset(r),
        Err(stop) => Err(stop),
    }
}

fn check_rest(g: &Grown, many: bool, firsts: &[Clock], r: &Record) -> Result<(), Stop>
    ensures { (before : List ClockOf) → Knows many before firsts.now → Says (first_some (option_and_then (bad_clock many (grown_of g.now) before) (clock_there (grown_of g.now) (record_of r.now)) ∷ bad_asynchronous (grown_of g.now) (record_of r.now) ∷ no_reset (record_of r.now) ∷ [])) result }
{
    match check_its_clock(g, many, firsts, r) {
        Ok(()) => check_ends(g, r),
        Err(stop) => Err(stop),
    }
}

/// What is looked for of a process: its sensitivity and resets (E406), its clock (E407, E413), an asynchronous reset (E407) and
/// a missing one (E409).
pub fn check_process(g: &Grown, many: bool, firsts: &[Clock], r: &Record) -> Result<(), Stop>
    ensures { (before : List ClockOf) → Knows many before firsts.now → Says (bad_one many (grown_of g.now) before (record_of r.now)) result }
{
    match check_sensitivity(g, r) {
        Ok(()) => check_rest(g, many, firsts, r),
        Err(stop) => Err(stop),
    }
}

fn add_first(firsts: &mut Vec<Clock>, c: Clock) -> Result<(), NoMemory>
    ensures { OnOk result ((before : List ClockOf) → Knows false before firsts.old.items → Knows false (before ++ clock_in c ∷ []) firsts.new.items) }
{
    match first_of(firsts.as_slice()) {
        Some(_known) => Ok(()),
        None => push(firsts, c),
    }
}

fn add_known(firsts: &mut Vec<Clock>, c: Clock) -> Result<(), NoMemory>
    ensures { OnOk result ((before : List ClockOf) → Knows true before firsts.old.items → Knows true (before ++ clock_in c ∷ []) firsts.new.items) }
{
    match known_of(firsts.as_slice(), c.root) {
        Some(_known) => Ok(()),
        None => push(firsts, c),
    }
}

/// Notes the clock of a process: it is known beside those before.
pub fn note_clock(many: bool, firsts: &mut Vec<Clock>, c: Clock) -> Result<(), NoMemory>
    ensures { OnOk result ((before : List ClockOf) → Knows many before firsts.old.items → Knows many (before ++ clock_in c ∷ []) firsts.new.items) }
{
    if many {
        add_known(firsts, c)
    } else {
        add_first(firsts, c)
    }
}
