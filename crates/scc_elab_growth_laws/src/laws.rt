//! Laws of what grows while constructors run.
ghost use Rattle.scc_elab_spec.specs.Construct.{Now, Fell, ran};
ghost use Rattle.scc_elab_spec.specs.Program.{Class, Code};
ghost use Rattle.std.specs.Prelude.{◌≡◌, ℕ, ◌+◌, ◌-◌, ◌≤◌, Bool, List, length, Some, slice_get};
ghost use Rattle.scc_base.specs.declared.refusal.Place.{Place};
ghost use Rattle.scc_semantics.specs.Location.{Part};
ghost use Rattle.scc_core_spec.specs.Resolved.{Tried, Made};
ghost use Rattle.scc_elab_spec.specs.Program.{Plain};
ghost use Rattle.scc_elab_spec.specs.Design.{Design};
ghost use Rattle.scc_elab_spec.specs.Grown.{Grown, nothing, added};
ghost use Rattle.scc_elab_spec.specs.Worth.{Given};
ghost use Rattle.scc_elab_spec.specs.Made.{built, making, function_of, site_of};
ghost use Rattle.scc_elab_growth_laws.specs.Changes.{Grows, SameGrowth};
ghost use Rattle.scc_elab_spec.specs.Elaborated.{elaborated};
ghost use Rattle.scc_elab_growth_laws.specs.Reached.{IsReached};
ghost use Rattle.scc_elab_growth_laws.specs.Leaves.{IsLeft};
ghost use Rattle.scc_elab_spec.specs.Worth.{Site, at_now};
ghost use Rattle.scc_elab_spec.specs.Design as design;

/// What makes an object of a class changes what is made step by step, and needs no greater bound than that on objects.
pub fn construction_changes()
    ensures { (p : Plain) (n m : ℕ) (g : Grown) (path : List Part) (place : Place) (c : ℕ) → 65537 ≤ n + length g.objects → 65537 ≤ m + length g.objects → length g.objects ≤ 65536 → g.turns ≤ 65536
        → (args : Grown → Tried (List Given)) → SameGrowth p g (built p n g path place c args) (built p m g path place c args) }
{}

/// A design that is elaborated is what allowed changes leave, of which nothing is refused.
pub fn a_design_is_left()
    ensures { (many : Bool) (p : Plain) (d : Design) → elaborated many p ≡ Some (Made d) → IsLeft many p d }
{}

/// Each constructor begins at a site that construction reaches, and behind its statements it is at one.
pub fn constructors_run_at_reached_sites()
    ensures begins { (p : Plain) (c : Class) (k : ℕ) (g h : Grown) (path : List Part) (place : Place) → Grows p nothing g → slice_get p.classes k ≡ Some c → added g path place (design.Module k) ≡ Made h → IsReached (site_of p (function_of p c) (length h.objects - 1) path h) }
    ensures stays { (s : Site) (levels : ℕ) (c : Code) (n m : Now) → 65537 ≤ levels + length n.grown.objects → IsReached (at_now s n.grown) → ran (making (built s.plain levels)) s c n ≡ Fell m → IsReached (at_now s m.grown) }
{}
