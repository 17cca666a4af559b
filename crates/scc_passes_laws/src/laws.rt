//! Laws on both passes.
ghost use Rattle.std.specs.Prelude.{◌≡◌, ℕ, true, None, Option};
ghost use Rattle.scc_semantics.specs.Location.{Location};
ghost use Rattle.scc_semantics.specs.Same.{SameDesign};
ghost use Rattle.scc_core_spec.specs.Constants.{constants_of};
ghost use Rattle.scc_core_spec.specs.IsResolved.{IsResolved};
ghost use Rattle.scc_core_spec.specs.Program.{Program};
ghost use Rattle.scc_core_spec.specs.Renumbered.{resolved_program};
ghost use Rattle.scc_core_spec.specs.Resolved.{Made};
ghost use Rattle.scc_core_spec.specs.Source.{Home, source_of};
ghost use Rattle.scc_core_spec.specs.Unrolled.{unrolled_program, unrolling_refuses};
ghost use Rattle.scc_blocks_spec.specs.Passed.{IsHome, Law};
ghost use Rattle.scc_core_unroll_laws.specs.Named.{IsNamed};
ghost use Rattle.scc_core_resolvable_laws.specs.Resolvable.{AreResolvable};
ghost use Rattle.scc_pointers_spec.specs.Declared.{declares_first};
ghost use Rattle.scc_passes_laws.specs.Passed.{passed};

/// Where both passes give a core, unrolling refuses nothing, and the core is the resolved one that the laws of passes speak of, if each
/// local pointer is declared before it is looked at.
pub fn both_passes_give_what_the_laws_speak_of()
    ensures accepted { (p r : Program) → passed p ≡ Made r → unrolling_refuses p ≡ None }
    ensures resolved { (p r : Program) → declares_first (unrolled_program p) ≡ true → passed p ≡ Made r → resolved_program (unrolled_program p) ≡ Made r }
{}

/// What both passes give means what the core means, three statements for one, where names tell cells apart, the core can be resolved, and
/// each local pointer is declared before it is looked at. If it is resolved, no more is asked: what is fixed stays.
pub fn both_passes_keep_the_meaning()
    ensures law { (p r : Program) (constant : Location → Option ℕ) → IsNamed p → ((home : Home) → IsHome home → AreResolvable home p) → declares_first (unrolled_program p) ≡ true → passed p ≡ Made r → Law 3 constant p r }
    ensures same { (home : Home) (p r : Program) → IsHome home → IsNamed p → ((h : Home) → IsHome h → AreResolvable h p) → declares_first (unrolled_program p) ≡ true → passed p ≡ Made r → IsResolved r
        → SameDesign 3 (source_of home p (constants_of home r)) (source_of home r (constants_of home r)) }
{}
