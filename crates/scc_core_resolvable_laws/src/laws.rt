//! Laws of cores that can be resolved.
ghost use Rattle.std.specs.Prelude.{◌≡◌, ℕ, Some, slice_get};
ghost use Rattle.scc_core_spec.specs.IsResolved.{is_resolved};
ghost use Rattle.scc_core_spec.specs.Program.{Process, Program};
ghost use Rattle.scc_core_spec.specs.Renumbered.{resolved_program};
ghost use Rattle.scc_core_spec.specs.Resolved.{Made};
ghost use Rattle.scc_core_spec.specs.Source.{Home};
ghost use Rattle.scc_core_spec.specs.Unrolled.{unrolled_program};
ghost use Rattle.scc_blocks_spec.specs.Passed.{IsHome};
ghost use Rattle.scc_core_unroll_laws.specs.Named.{AreKinded, IsNamed};
ghost use Rattle.scc_core_pass_laws.specs.Pointing.{Apart};
ghost use Rattle.scc_core_resolvable_laws.specs.Clocked.{IsClocked};
ghost use Rattle.scc_core_resolvable_laws.specs.Fitting.{statements_fit};
ghost use Rattle.scc_core_resolvable_laws.specs.Resolvable.{AreOwn, AreResolvable};
ghost use Rattle.scc_core_resolvable_laws.specs.Sorted.{IsSorted};
ghost use Rattle.scc_core_resolvable_laws.specs.Told.{IsTold};

/// Where a core can be resolved, so can the unrolled one: its names are the same, its code names what the core's names, and its operators have the kinds that they say.
pub fn unrolling_leaves_a_core_resolvable()
    ensures { (home : Home) (p : Program) → AreResolvable home p → AreResolvable home (unrolled_program p) }
{}

/// Cells whose names differ are found by their locations as by their names, wherever the locals of processes stand.
pub fn cells_with_names_of_their_own_are_apart()
    ensures { (home : Home) → IsHome home → (p : Program) → IsNamed p → IsTold p → (i : ℕ) (q : Process) → slice_get p.processes i ≡ Some q → Apart home p i q }
{}

/// Where bodies name their processes' own cells, operators have the kinds that they say.
pub fn own_code_is_kinded()
    ensures { (p : Program) → AreOwn p → AreKinded p }
{}

/// Where names tell a core's processes and locals apart, so do those of the unrolled one.
pub fn unrolling_leaves_a_core_named()
    ensures { (p : Program) → IsNamed p → IsNamed (unrolled_program p) }
{}

/// Where names tell a core's processes and locals apart, so do those of the resolved one.
pub fn resolving_leaves_a_core_named()
    ensures { (p r : Program) → resolved_program p ≡ Made r → IsNamed p → IsNamed r }
{}

/// What is asked of a core's names, sorts, clocks, resets and exits holds of the unrolled one.
pub fn an_unrolled_core_is_told_sorted_and_clocked()
    ensures told { (p : Program) → IsTold p → IsTold (unrolled_program p) }
    ensures sorted { (p : Program) → IsSorted p → IsSorted (unrolled_program p) }
    ensures clocked { (p : Program) → IsClocked p → IsClocked (unrolled_program p) }
{}

/// What is resolved of a core passes the test of resolved cores but for its statements and inputs: names are apart, no pointer is left, each cell is of the sort that its
/// name tells, clocks and resets are signals and ports of the top, and exits leave blocks around them.
pub fn a_resolved_core_passes_but_for_its_statements()
    ensures { (p r : Program) → resolved_program p ≡ Made r → IsNamed p → IsTold p → IsSorted p → IsClocked p
        → is_resolved r ≡ statements_fit r }
{}
