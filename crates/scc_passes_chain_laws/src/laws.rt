//! The law on both passes.
ghost use Rattle.std.specs.Prelude.{◌≡◌};
ghost use Rattle.scc_base.specs.declared.refusal.Refusal.{Refusal};
ghost use Rattle.scc_core.specs.declared.program.Core.{Core};
ghost use Rattle.scc_core.specs.Passes.{Through, Stopped};
ghost use Rattle.scc_core_spec.specs.Resolved as tried;
ghost use Rattle.scc_core_view.specs.Programs.{program_of};
ghost use Rattle.scc_passes_laws.specs.Passed.{passed};
ghost use Rattle.scc_pointers.specs.Resolved as second;
ghost use Rattle.scc_pointers_laws.specs.Counted.{IsAskedCounted};
ghost use Rattle.scc_unroll.specs.Unrolled as first;
ghost use Rattle.scc_unroll_asked.specs.Cores.{IsAsked};

/// What one pass behind the other gives is what the definitions give of both, and it refuses as the first of them that refuses; where the
/// core meets what is asked of it. Nothing is asked of the core between.
pub fn both_passes_are_the_definitions()
    ensures gives { (c m : Core) → Through first.IsUnrolled second.IsResolved c m → IsAsked c → IsAskedCounted c → passed (program_of c) ≡ tried.Made (program_of m) }
    ensures refuses { (c : Core) (r : Refusal) → Stopped first.IsUnrolled first.IsRefused second.IsRefused c r → IsAsked c → IsAskedCounted c → passed (program_of c) ≡ tried.Stopped r }
{}
