//! The bound on the steps of a resume of each process.
ghost use Rattle.std.specs.Prelude.{◌≡◌, map, IfOk};
ghost use Rattle.scc_core_view.specs.Codes.{code_of};
ghost use Rattle.scc_core_bounds.specs.Bounds.{steps, steps_of};

use crate::sizes::size_of;
use scc_base::{NoMemory, push};
use scc_core::{Core, CoreStmt};
use std::alloc::Global;

/// The bound on the steps of a resume of each process of a core whose loops are unrolled: 3 * (d + 1) * S for S statements whose
/// loops that wait stand d deep in each other, or the type's end.
pub fn step_bounds(alloc: Global, c: &Core) -> Result<Vec<u64>, NoMemory>
    ensures bounds { IfOk result (λ v. v.items ≡ map steps_of c.now.processes) }
{
    let mut bounds = Vec::new(alloc);
    for process in c.processes.as_slice() {
        push(&mut bounds, bound_of(process.body.as_slice()))?;
    }
    Ok(bounds)
}

// The bound on the steps of a process with that body.
#[tactic(auto, using(crate::proofs::Sized::bound_measured))]
fn bound_of(body: &[CoreStmt]) -> u64
    ensures { result ≡ steps (code_of body.now) }
{
    size_of(body).bound()
}
