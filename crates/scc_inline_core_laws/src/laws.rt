//! Laws of copied cores.
ghost use Rattle.std.specs.Prelude.{◌≡◌, Bool, true, false, Some};
ghost use Rattle.scc_bits_kinds.specs.declared.kind.Kind.TheVariants as kind;
ghost use Rattle.scc_bits_kinds.specs.declared.op.Op.TheVariants as op;
ghost use Rattle.scc_core_spec.specs.IsResolved.{is_resolved};
ghost use Rattle.scc_core_spec.specs.Renumbered.{resolved_program};
ghost use Rattle.scc_core_spec.specs.Resolved.{Made, made_map};
ghost use Rattle.scc_core_spec.specs.Unrolled.{unrolled_program};
ghost use Rattle.scc_core_spec.specs.Source.{Home};
ghost use Rattle.scc_blocks_spec.specs.Passed.{IsHome};
ghost use Rattle.scc_core_resolvable_laws.specs.Clocked.{IsClocked};
ghost use Rattle.scc_core_resolvable_laws.specs.Resolvable.{AreOwn, AreResolvable};
ghost use Rattle.scc_core_resolvable_laws.specs.Sorted.{IsSorted};
ghost use Rattle.scc_core_resolvable_laws.specs.Told.{IsTold};
ghost use Rattle.scc_elab_spec.specs.Design.{Design};
ghost use Rattle.scc_elab_spec.specs.Elaborated.{elaborated};
ghost use Rattle.scc_elab_spec.specs.Program.{Plain};
ghost use Rattle.scc_elab_spec.specs.Term.{Unary};
ghost use Rattle.scc_elab_spec.specs.Worked.{here, made, number, program};
ghost use Rattle.scc_elab_growth_laws.specs.Apart.{is_whole_plain};
ghost use Rattle.scc_inline_spec.specs.Inlined.{copied_program};
ghost use Rattle.scc_inline_laws.specs.OrderlyDesign.{IsOrderly};
ghost use Rattle.scc_inline_core_laws.specs.Kinded.{is_kinded, kinded_term};
ghost use Rattle.scc_inline_core_laws.specs.LaidOut.{IsLaidOut};

/// Each design that is elaborated is laid out, where the members of each class have different names.
pub fn an_elaborated_design_is_laid_out()
    ensures { (many : Bool) (p : Plain) (d : Design) → elaborated many p ≡ Some (Made d) → is_whole_plain p ≡ true → IsLaidOut d }
{}

/// The names of a copied core tell its cells apart: those of objects, and those of the locals of each process.
pub fn a_copied_core_is_told()
    ensures { (p : Plain) (d : Design) → IsOrderly p d → IsLaidOut d → IsTold (copied_program p d) }
{}

/// Copied bodies name the cells of objects and of their own processes, and their operators have the kinds that they say, where the program's do.
pub fn copied_bodies_are_own()
    ensures { (p : Plain) (d : Design) → is_kinded p ≡ true → AreOwn (copied_program p d) }
{}

/// A copied core can be resolved, wherever the locals of its processes stand.
pub fn a_copied_core_can_be_resolved()
    ensures { (p : Plain) (d : Design) → IsOrderly p d → IsLaidOut d → is_kinded p ≡ true → (home : Home) → IsHome home → AreResolvable home (copied_program p d) }
{}

/// The cells of a copied core are of the sorts that their names tell, and begin with words of their kinds; clocks and resets are signals and ports of the top, and exits
/// leave blocks around them.
pub fn a_copied_core_is_sorted_and_clocked()
    ensures sorted { (p : Plain) (d : Design) → IsOrderly p d → IsLaidOut d → IsSorted (copied_program p d) }
    ensures clocked { (p : Plain) (d : Design) → IsOrderly p d → IsLaidOut d → IsClocked (copied_program p d) }
{}

/// The worked program meets what is asked: its operators have the kinds that they say, its design is laid out, and what is resolved of its core passes the test of resolved
/// cores. An operator of another kind is seen.
pub fn the_worked_program_meets_what_is_asked()
    ensures kinded { is_kinded program ≡ true }
    ensures whole { is_whole_plain program ≡ true }
    ensures laid { IsLaidOut made }
    ensures resolved { made_map is_resolved (resolved_program (unrolled_program (copied_program program made))) ≡ Made true }
    ensures other { kinded_term (Unary here kind.Bool op.Plus (number 2)) ≡ false }
{}
