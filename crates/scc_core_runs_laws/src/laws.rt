//! Laws that stand on the definitions alone.
ghost use Rattle.std.specs.Prelude.{◌≡◌, ◌≤◌, ℕ, None, Some, slice_get};
ghost use Rattle.scc_semantics.specs.Location.{Location};
ghost use Rattle.scc_semantics.specs.Places.{Places};
ghost use Rattle.scc_semantics.specs.Body.{Body};
ghost use Rattle.scc_semantics.specs.Machine.{Frames, run};
ghost use Rattle.scc_semantics.specs.Value.{Held};
ghost use Rattle.scc_semantics_laws.specs.Words.{PlainFrames};
ghost use Rattle.scc_core_spec.specs.Code.{size};
ghost use Rattle.scc_core_spec.specs.IsResolved.{IsResolved};
ghost use Rattle.scc_core_spec.specs.Program.{Program, Process};
ghost use Rattle.scc_core_spec.specs.Rules.{end_reached, loop_may_not_wait, wait_in_method};
ghost use Rattle.scc_core_spec.specs.Source.{Home};
ghost use Rattle.scc_blocks_spec.specs.Passed.{IsHome};
ghost use Rattle.scc_core_effect_laws.specs.Follows.{Does, RunsSegments};
ghost use Rattle.scc_states_path_laws.specs.Tracks.{steps_of};
ghost use Rattle.scc_core_runs_laws.specs.Spared.{PortsLead, SparesTo};

/// A run without pointers leaves targets and the words of all but numbers, and asks nothing of numbers.
pub fn a_run_spares_what_is_no_number()
    ensures { (places : Places) → PortsLead places → (functions : ℕ → Body) (signals : Location → ℕ) (n : ℕ) (f : Frames) (h : Held) → PlainFrames f → SparesTo places h (run places functions signals n f h) }
{}

/// A run of a method of a resolved core is the effect of its live body, where it has no wait and no loop may come round without one.
pub fn a_resolved_core_does_its_effects()
    ensures { (home : Home) (p : Program) → IsHome home → IsResolved p → loop_may_not_wait p ≡ None → wait_in_method p ≡ None
        → (bounds : ℕ → ℕ) → ((i : ℕ) (q : Process) → slice_get p.processes i ≡ Some q → size q.body ≤ bounds i) → Does home p bounds }
{}

/// A resume of a thread of a resolved core is the run of a segment to a wait, where no path comes to its end and no loop may come round without a wait.
pub fn a_resolved_core_runs_its_segments()
    ensures { (home : Home) (p : Program) → IsHome home → IsResolved p → loop_may_not_wait p ≡ None → end_reached p ≡ None
        → (bounds : ℕ → ℕ) → ((i : ℕ) (q : Process) → slice_get p.processes i ≡ Some q → steps_of q.body ≤ bounds i) → RunsSegments home p bounds }
{}
