//! The stages up to the segments of threads.
ghost use Rattle.std.specs.Prelude.{◌≡◌, true, IfErr, IfOk};
ghost use Rattle.scc_core_spec.specs.IsResolved.{IsResolved};
ghost use Rattle.scc_core_view.specs.Programs.{program_of};
ghost use Rattle.scc_core_view.specs.Whole.{AreWholeCells};
ghost use Rattle.scc_drive_stages.specs.Refusals.{may_stop};

use crate::processes::{Ordered, check_processes};
use crate::refusals::allowed;
use scc_base::{List, Name, NoMemory, Stop, lost};
use scc_core::{Chain, Core, Pass};
use scc_core_look::is_resolved;
use scc_elab::{elaborate, elaborate_many};
use scc_elab_design::Design;
use scc_inline::inline;
use scc_plain::plain;
use scc_plain_tree::Plain;
use scc_pointers::Resolve;
use scc_rules::Order;
use scc_states::Split;
use scc_tree::FileTree;
use scc_unroll::Unroll;
use std::alloc::Global;

/// What the stages make of a file, up to what the emitted module is written from.
pub struct Front {
    /// The program without templates.
    pub plain: Plain,
    /// Its objects and processes, after the top's constructor.
    pub design: Design,
    /// What the processes do, without calls, counted loops and pointers. It is resolved.
    pub core: Core,
    /// The combinational methods, each after those that write what it reads.
    pub order: Order,
    /// The segments of each thread, in process order.
    pub splits: List<Split>,
}

// One call at each exit of what owns it.
impl Drop for Front {
    fn drop(self) {
        let Front {
            plain: _plain,
            design: _design,
            core: _core,
            order: _order,
            splits: _splits,
        } = self;
    }
}

/// What the stages make of a file whose top is the class of this name; `many` says whether it may have several clocks. The first
/// stage that refuses decides.
pub fn front_of(alloc: Global, tree: &FileTree, top: Name, many: bool) -> Result<Front, Stop>
    ensures refused { IfErr result (λ e. may_stop many e ≡ true) }
    ensures resolved { IfOk result (λ f. IsResolved (program_of f.core)) }
    ensures cells { IfOk result (λ f. AreWholeCells f.core.cells) }
{
    match built(alloc, tree, top, many) {
        Ok(front) => Ok(front),
        Err(stop) => Err(allowed(many, stop)),
    }
}

fn built(alloc: Global, tree: &FileTree, top: Name, many: bool) -> Result<Front, Stop>
    ensures resolved { IfOk result (λ f. IsResolved (program_of f.core)) }
    ensures cells { IfOk result (λ f. AreWholeCells f.core.cells) }
{
    let plain = plain(alloc, tree, top)?;
    let design = if many {
        elaborate_many(alloc, &plain)?
    } else {
        elaborate(alloc, &plain)?
    };
    let core = core_of(alloc, &plain, &design)?;
    let Ordered { order, splits } = check_processes(alloc, &core)?;
    Ok(Front {
        plain,
        design,
        core,
        order,
        splits,
    })
}

fn core_of(alloc: Global, plain: &Plain, design: &Design) -> Result<Core, Stop>
    ensures resolved { IfOk result (λ c. IsResolved (program_of c)) }
    ensures cells { IfOk result (λ c. AreWholeCells c.cells) }
{
    let passes = Chain {
        first: Unroll,
        second: Resolve,
    };
    let copied = inline(alloc, plain, design)?;
    let core = passes.run(alloc, copied)?;
    Ok(resolved(alloc, core)?)
}

// A core that the look doesn't find resolved is none that the passes leave.
fn resolved(alloc: Global, core: Core) -> Result<Core, NoMemory>
    ensures resolved { IfOk result (λ c. IsResolved (program_of c)) }
    ensures cells { IfOk result (λ c. AreWholeCells c.cells) }
{
    if is_resolved(alloc, &core)? {
        Ok(core)
    } else {
        Err(lost())
    }
}
