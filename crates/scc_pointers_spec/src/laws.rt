//! Laws on resolved cores.
ghost use Rattle.std.specs.Prelude.{◌≡◌, true};
ghost use Rattle.scc_core_spec.specs.Code.{Code};
ghost use Rattle.scc_core_spec.specs.Program.{Program};
ghost use Rattle.scc_core_spec.specs.Renumbered.{resolved_program};
ghost use Rattle.scc_core_spec.specs.Resolved.{Leads, Made};
ghost use Rattle.scc_core_spec.specs.Unpointed.{unpointed};
ghost use Rattle.scc_pointers_spec.specs.Declared.{declares_first, is_declared_first};
ghost use Rattle.scc_pointers_spec.specs.Freed.{freed, freed_program};

/// A core of which no local pointer is used before its declaration is resolved to the core that the laws of passes speak of.
pub fn declared_pointers_are_resolved_alike()
    ensures bodies { (s : Leads) (c d : Code) → unpointed s c ≡ Made d → freed s c ≡ Made d }
    ensures programs { (p m : Program) → resolved_program p ≡ Made m → freed_program p ≡ Made m }
{}

/// Where each local pointer that bodies look at was declared before, both definitions are one: they give the same core, or the same refusal.
pub fn pointers_declared_first_are_resolved_alike()
    ensures bodies { (s : Leads) (c : Code) → is_declared_first s c ≡ true → freed s c ≡ unpointed s c }
    ensures programs { (p : Program) → declares_first p ≡ true → freed_program p ≡ resolved_program p }
{}
