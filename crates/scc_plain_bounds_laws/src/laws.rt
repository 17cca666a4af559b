//! Laws of the functions of plain programs.
ghost use Rattle.std.specs.Prelude.{◌≡◌, ℕ, ◌<◌, ◌-◌, ◌^◌, true, false, slice_get, Some, None};
ghost use Rattle.scc_core_spec.specs.Resolved.{Made};
ghost use Rattle.scc_elab_spec.specs.Program.{Plain};
ghost use Rattle.scc_elab_spec.specs.Worked.{program};
ghost use Rattle.scc_plain_bounds_laws.specs.Bounds.{is_bounded};
ghost use Rattle.scc_plain_bounds_laws.specs.Worked.{exiting, valued, doubled, owning, membered, undeclared};
ghost use Rattle.scc_plain_bounds_laws.specs.Needed.{HasAll};
ghost use Rattle.scc_plain_first.specs.Static.{Walks, staged};
ghost use Rattle.scc_plain_spec.specs.Program.{program_of};
ghost use Rattle.scc_templates_spec.specs.Source.{Source};
ghost use Rattle.scc_templates_spec.specs.Walk.{Needed};

/// In each function of the plain program that a source has, exits leave blocks of the function, a value is returned only where there is a result, each call is found by its
/// number, locals that are named are there, members and calls are those of objects (the function's own, what a pointer or reference leads to, and members of these), and
/// what is declared directly is a number or, as a parameter, a module's name, with at most 65,536 elements a dimension.
pub fn what_the_static_stage_gives_is_bounded()
    ensures { (s : Source) (top : ℕ) (p : Plain) → program_of s top ≡ Made p → is_bounded p ≡ true }
{}

/// Where the static stage stops at nothing, the queue of what is needed has all that the first walk needs, and all that the walks over its own first 2^64 - 1 entries need.
pub fn what_is_needed_is_in_the_queue()
    ensures first { (w : Walks) → (staged w).stop ≡ None → HasAll (staged w).tally.queue w.top }
    ensures entries { (w : Walks) (i : ℕ) (x : Needed) → (staged w).stop ≡ None → i < 2 ^ 64 - 1 → slice_get (staged w).tally.queue i ≡ Some x → HasAll (staged w).tally.queue (w.needed x) }
{}

/// A program passes the test, and one that breaks a part of it is seen.
pub fn exits_calls_and_values_are_told()
    ensures passes { is_bounded program ≡ true }
    ensures exits { is_bounded exiting ≡ false }
    ensures values { is_bounded valued ≡ false }
    ensures calls { is_bounded doubled ≡ false }
    ensures locals { is_bounded owning ≡ false }
    ensures names { is_bounded undeclared ≡ false }
    ensures members { is_bounded membered ≡ false }
{}
