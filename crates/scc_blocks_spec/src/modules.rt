//! Laws that cite the definitions.
ghost use Rattle.std.specs.Prelude.{◌≡◌, ℕ, List, [], Bool, Some, slice_get};
ghost use Rattle.scc_semantics.specs.Location.{Location};
ghost use Rattle.scc_semantics.specs.Design.{Design};
ghost use Rattle.scc_svtree.specs.declared.module.SvModule.{SvModule};
ghost use Rattle.scc_blocks_spec.specs.Matches.{Matches, EdgeView, block_views, process_views};
ghost use Rattle.scc_blocks_spec.specs.Renamed.{Comb, block_as};
ghost use Rattle.scc_svtree.specs.Code.{End};
ghost use Rattle.scc_blocks_spec.specs.Emitted.{ModuleShows, AreSeen};

/// No observations are seen as none; a module that matches has the top's name, and each of its edges is that of a process.
pub fn modules_show_designs()
    ensures seen { (text : Location → List ℕ) (m : SvModule) → AreSeen text m [] [] }
    ensures shows { (text : Location → List ℕ) (d : Design) (m : SvModule) → ModuleShows text d m → ModuleShows text d m }
    ensures name { (text : Location → List ℕ) (own : List ℕ → Bool) (kept : Location → Bool) (d : Design) (m : SvModule) (top : List ℕ) → Matches text own kept d m top → m.name ≡ top }
    ensures edges { (text : Location → List ℕ) (own : List ℕ → Bool) (kept : Location → Bool) (d : Design) (m : SvModule) (top : List ℕ) (k : ℕ) (e : EdgeView) → Matches text own kept d m top → slice_get (block_views m) k ≡ Some e → (j : ℕ) × (slice_get (process_views text d) j ≡ Some e) }
{}

/// A block without statements is the same under all numbers.
pub fn blocks_are_renamed()
    ensures { (f : ℕ → ℕ) → block_as f (Comb End) ≡ Comb End }
{}
