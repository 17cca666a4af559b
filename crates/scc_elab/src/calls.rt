//! The calls: construction from the top.
ghost use Rattle.std.specs.Prelude.{◌≡◌, ◌≤◌, true, false, length, IfOk, IfErr};
ghost use Rattle.scc_elab_design.specs.Whole.{is_whole_design};
ghost use Rattle.scc_elab.specs.Refusals.{may_stop};
ghost use Rattle.scc_elab.specs.Roots.{are_rooted, processes_fit};
ghost use Rattle.scc_elab.specs.Storage.{storage_of};

use crate::after::check_ports;
use crate::clocks::processes_of;
use crate::design::design_of;
use crate::make::make_one;
use crate::refusals::allowed;
use crate::statements::run;
use scc_base::Stop;
use scc_elab_checks::{check_functions, check_top};
use scc_elab_design::Design;
use scc_elab_state::grown::Grown;
use scc_elab_state::program::class_of;
use scc_elab_state::spots::TOP;
use scc_elab_state::work::Stack;
use scc_plain_tree::{Base, Plain};
use std::alloc::Global;

/// The design of a program, all of whose clocked processes name one edge of one clock. Refused as E401 to E407 and E409 to E412.
pub fn elaborate(alloc: Global, p: &Plain) -> Result<Design, Stop>
    ensures whole { IfOk result (λ d. is_whole_design (length p.now.classes) (length p.now.functions) d ≡ true) }
    ensures roots { IfOk result (λ d. are_rooted d.objects ≡ true) }
    ensures resets { IfOk result (λ d. processes_fit d.processes ≡ true) }
    ensures bits { IfOk result (λ d. storage_of d.objects ≤ 1048576) }
    ensures refused { IfErr result (λ e. may_stop false e ≡ true) }
{
    allowed(
        false,
        p.classes.len(),
        p.functions.len(),
        constructed(p, false, alloc),
    )
}

/// The design of a program whose processes may name edges of several clocks, at most 128, each clock's in one direction. Refused
/// as E401 to E407 and E409 to E413.
pub fn elaborate_many(alloc: Global, p: &Plain) -> Result<Design, Stop>
    ensures whole { IfOk result (λ d. is_whole_design (length p.now.classes) (length p.now.functions) d ≡ true) }
    ensures roots { IfOk result (λ d. are_rooted d.objects ≡ true) }
    ensures resets { IfOk result (λ d. processes_fit d.processes ≡ true) }
    ensures bits { IfOk result (λ d. storage_of d.objects ≤ 1048576) }
    ensures refused { IfErr result (λ e. may_stop true e ≡ true) }
{
    allowed(
        true,
        p.classes.len(),
        p.functions.len(),
        constructed(p, true, alloc),
    )
}

fn constructed(p: &Plain, many: bool, alloc: Global) -> Result<Design, Stop>
    ensures { IfOk result (λ d. storage_of d.objects ≤ 1048576) }
{
    check_top(p)?;
    let mut g = Grown::new(alloc)?;
    built(p, many, &mut g)
}

// What owns all that construction makes has no branch behind it: each would let all of it go.
fn built(p: &Plain, many: bool, g: &mut Grown) -> Result<Design, Stop>
    ensures { IfOk result (λ d. storage_of d.objects ≤ 1048576) }
{
    construct(p, g)?;
    check_functions(g.alloc, p)?;
    check_ports(g)?;
    let processes = processes_of(g, many)?;
    Ok(design_of(g, processes)?)
}

// Runs the constructors.
fn construct(p: &Plain, g: &mut Grown) -> Result<(), Stop> {
    let place = class_of(p, p.top)?.place;
    let mut stack = Stack::new(g.alloc);
    make_one(&[], Base::Class(p.top), TOP, place, p, &mut stack, g)?;
    run(&mut stack, p, g)
}
