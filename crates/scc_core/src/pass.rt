//! Passes over the core.
ghost use Rattle.std.specs.Prelude.{◌≡◌, Err, IfOk};
ghost use Rattle.scc_base.specs.declared.refusal.Refusal.{Refusal};
ghost use Rattle.scc_base.specs.declared.refusal.Stop.TheVariants as stop;
ghost use Rattle.scc_core.specs.declared.program.Core.{Core};
ghost use Rattle.scc_core.specs.Passes.{Through, Stopped};

use crate::Core;
use scc_base::Stop;
use std::alloc::Global;

/// A step of the compiler from core to core.
pub trait Pass {
    /// Which cores it gives for a core.
    ghost gives: { Self → Core → Core → Type 0 };

    /// As which refusals it refuses a core.
    ghost refuses: { Self → Core → Refusal → Type 0 };

    /// Runs the pass. An Ok is a core that it gives; a refusal is one as which it refuses the core.
    fn run(&self, alloc: Global, c: Core) -> Result<Core, Stop>
        ensures given { IfOk result (λ m. gives self.now c m) }
        ensures refused { (r : Refusal) → result ≡ Err (stop.Refused r) → refuses self.now c r };
}

/// One pass behind another: it gives what the second gives for a core that the first gives, and refuses as the first
/// refuses the core, or as the second refuses a core that the first gives.
#[derive(Clone, Copy)]
pub struct Chain<A, B> {
    pub first: A,
    pub second: B,
}

impl<A: Pass, B: Pass> Pass for Chain<A, B> {
    ghost gives = { λ s. Through (A.gives s.first) (B.gives s.second) };

    ghost refuses = { λ s. Stopped (A.gives s.first) (A.refuses s.first) (B.refuses s.second) };

    fn run(&self, alloc: Global, c: Core) -> Result<Core, Stop> {
        let between = self.first.run(alloc, c)?;
        self.second.run(alloc, between)
    }
}
