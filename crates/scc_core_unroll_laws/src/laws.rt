//! Laws of unrolled cores.
ghost use Rattle.std.specs.Prelude.{◌≡◌, ℕ, List, Option};
ghost use Rattle.scc_core_unroll_laws.specs.Unrolling.{Around, Counters, scene_at, HoldsAll, Knows};
ghost use Rattle.scc_semantics.specs.Value.{Held, value};
ghost use Rattle.scc_semantics.specs.Location.{Location};
ghost use Rattle.scc_semantics.specs.Same.{SameDesign};
ghost use Rattle.scc_core_spec.specs.Program.{Program};
ghost use Rattle.scc_core_spec.specs.Unrolled.{unrolled_program};
ghost use Rattle.scc_blocks_spec.specs.Comes.{Keeps};
ghost use Rattle.scc_blocks_spec.specs.Passed.{IsHome, Law};
ghost use Rattle.scc_core_spec.specs.Program.{Process};
ghost use Rattle.scc_core_unroll_laws.specs.Named.{IsNamed, AreKinded, around_of};
ghost use Rattle.scc_core_spec.specs.Term.{Term};
ghost use Rattle.scc_core_spec.specs.Source.{Home, expr_of, source_of};
ghost use Rattle.scc_core_spec.specs.Counted.{Counter, counting};

/// Where counters hold their words, a value is the same with them as literals.
pub fn counters_stand_as_literals()
    ensures { (w : Around) → Counters w → (signals : Location → ℕ) (ns : List Counter) (a : Held) (e : Term) → HoldsAll w ns a
        → value (scene_at w signals a) (expr_of w.home w.setting.cells w.process (counting ns e)) ≡ value (scene_at w signals a) (expr_of w.home w.setting.cells w.process e) }
{}

/// An unrolled core means what the core means, three statements for one.
pub fn an_unrolled_core_means_the_same()
    ensures { (home : Home) → IsHome home → (p : Program) (constant : Location → Option ℕ) → IsNamed p → AreKinded p → Keeps (source_of home (unrolled_program p) constant)
        → SameDesign 3 (source_of home p constant) (source_of home (unrolled_program p) constant) }
{}

/// A static value of an expression whose operators have the kinds that they say is what every store holds that holds the fixed words.
pub fn static_values_hold()
    ensures { (home : Home) → IsHome home → (p : Program) (constant : Location → Option ℕ) (i : ℕ) (q : Process) → IsNamed p → Knows (around_of home p constant i q) }
{}

/// Unrolling is a pass that keeps the meaning: what the unrolled core keeps the core keeps, and both mean the same, three statements for one.
pub fn unrolling_keeps_the_meaning()
    ensures { (p : Program) (constant : Location → Option ℕ) → IsNamed p → AreKinded p → Law 3 constant p (unrolled_program p) }
{}
