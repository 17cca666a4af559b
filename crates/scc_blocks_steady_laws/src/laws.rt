//! Laws that stand on the definitions alone.
ghost use Rattle.std.specs.Prelude.{◌≡◌, None};
ghost use Rattle.scc_core_spec.specs.IsResolved.{IsResolved};
ghost use Rattle.scc_core_spec.specs.Program.{Program};
ghost use Rattle.scc_core_spec.specs.Rules.{first_rule};
ghost use Rattle.scc_blocks_spec.specs.Tied.{Registers};
ghost use Rattle.scc_blocks_run_laws.specs.Follows.{IsSteady};

/// The processes of a resolved core whose rules aren't broken keep what fits, make their turns, and ask the roots that they drive, whatever its registers' variables.
pub fn a_resolved_core_is_steady()
    ensures { (p : Program) (r : Registers) → IsResolved p → first_rule p ≡ None → IsSteady p r }
{}
