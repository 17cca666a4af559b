//! Laws on cells that live across a wait.
ghost use Rattle.std.specs.Prelude.{◌≡◌, ◌&&◌, ℕ, Bool, false, List, []};
ghost use Rattle.std.specs.List.{list_any};
ghost use Rattle.scc_core_spec.specs.Code.{Code, append};
ghost use Rattle.scc_core_spec.specs.Kept.{is_kept, is_own};
ghost use Rattle.scc_core_spec.specs.Live.{live};
ghost use Rattle.scc_core_spec.specs.Program.{Process};
ghost use Rattle.scc_core_spec.specs.Segments.{all_segments, segment_code};
ghost use Rattle.scc_core_spec.specs.Sizes.{live_body};
ghost use Rattle.scc_core_spec.specs.Static.{Cells};
ghost use Rattle.scc_states_kept.specs.Needs.{needed};
ghost use Rattle.scc_states_kept.specs.Owned.{owned};

/// A cell of the process's own is kept exactly where some segment may read it before it gives it a whole value, told from the end of the
/// segment backward.
pub fn cells_are_kept_where_they_are_needed()
    ensures { (cs : Cells) (i : ℕ) (p : Process) (x : ℕ) →
        is_kept cs i p x ≡ (is_own cs i p x && list_any (λ s. needed cs x (segment_code s) false []) (all_segments (live_body cs p.body))) }
{}

/// It is one that some statement of the live body makes the thread's own: it reads a local of the thread, or writes one or a variable.
pub fn kept_cells_are_owned()
    ensures { (cs : Cells) (i : ℕ) (p : Process) (x : ℕ) →
        is_kept cs i p x ≡ (owned cs i x (live cs p.body) && list_any (λ s. needed cs x (segment_code s) false []) (all_segments (live_body cs p.body))) }
{}

/// Before some code and what stands behind it, what is needed is what is needed before the first part where what is needed before the second
/// stands behind it.
pub fn what_is_needed_is_told_part_by_part()
    ensures { (cs : Cells) (x : ℕ) (c d : Code) (next : Bool) (outs : List Bool) →
        needed cs x (append c d) next outs ≡ needed cs x c (needed cs x d next outs) outs }
{}
