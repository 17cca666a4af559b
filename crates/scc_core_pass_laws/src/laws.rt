//! Laws of resolved cores.
ghost use Rattle.std.specs.Prelude.{◌≡◌, ℕ, Option, Some, slice_get};
ghost use Rattle.scc_core_unroll_laws.specs.Unrolling.{scene_at, HoldsFixed};
ghost use Rattle.scc_semantics.specs.Value.{Held, value};
ghost use Rattle.scc_semantics.specs.Location.{Location};
ghost use Rattle.scc_core_spec.specs.Program.{Program};
ghost use Rattle.scc_blocks_spec.specs.Passed.{IsHome, Law};
ghost use Rattle.scc_core_spec.specs.Program.{Process};
ghost use Rattle.scc_core_spec.specs.Term.{Left};
ghost use Rattle.scc_core_spec.specs.Resolved.{Made, resolved};
ghost use Rattle.scc_core_unroll_laws.specs.Named.{IsNamed, around_of};
ghost use Rattle.scc_core_unroll_laws.specs.Unrolling.{go, Keeps as KeepsRun};
ghost use Rattle.scc_core_pass_laws.specs.Resolving.{Matching, Stayed, Beside};
ghost use Rattle.scc_semantics.specs.Machine.{Frames};
ghost use Rattle.scc_core_pass_laws.specs.Pointing.{Apart, OwnNames, Known, leads_of};
ghost use Rattle.scc_core_spec.specs.Term.{Term};
ghost use Rattle.scc_core_spec.specs.Source.{Home, expr_of, source_of};
ghost use Rattle.scc_core_spec.specs.Renumbered.{resolved_program};
ghost use Rattle.scc_semantics.specs.Same.{SameDesign};
ghost use Rattle.scc_blocks_spec.specs.Comes.{Keeps};
ghost use Rattle.scc_core_pass_laws.specs.Renumbering.{IsResolvable};

/// Where pointers lead as is known, a value is the same with objects in place of pointers.
pub fn objects_stand_for_pointers()
    ensures { (home : Home) → IsHome home → (p : Program) (constant : Location → Option ℕ) (i : ℕ) (q : Process) → IsNamed p → Apart home p i q
        → (signals : Location → ℕ) (a : Held) → HoldsFixed (around_of home p constant i q) a → (local : ℕ → Option (Option Left)) → Known home p constant i q local a.store.targets
        → (e y : Term) → OwnNames q p.cells e → resolved (leads_of home p constant i q local) e ≡ Made y
        → value (scene_at (around_of home p constant i q) signals a) (expr_of home p.cells i e) ≡ value (scene_at (around_of home p constant i q) signals a) (expr_of home p.cells i y) }
{}

/// A resolved body follows the body with its pointers, statement by statement, from frames that match: the same words and requests, wherever it comes to.
pub fn a_resolved_body_follows()
    ensures { (home : Home) → IsHome home → (p : Program) (constant : Location → Option ℕ) (i : ℕ) (q : Process) → IsNamed p → Apart home p i q → slice_get p.processes i ≡ Some q
        → (signals : Location → ℕ) (start : Location → Option Location) (n : ℕ) (local : ℕ → Option (Option Left)) (f g : Frames) (a : Held) → Matching home p constant i q local f g
        → Known home p constant i q local a.store.targets → Stayed home p constant i q start a.store.targets → KeepsRun (around_of home p constant i q) signals g a
        → Beside home p constant i q start (go (around_of home p constant i q) signals n f a) (go (around_of home p constant i q) signals n g a) }
{}

/// A resolved core means what the core means, statement for statement, where names tell cells apart and no process is sensitive to a pointer.
pub fn a_resolved_core_means_the_same()
    ensures { (home : Home) → IsHome home → (p m : Program) (constant : Location → Option ℕ) → IsNamed p → ((i : ℕ) (q : Process) → slice_get p.processes i ≡ Some q → IsResolvable home p i q)
        → resolved_program p ≡ Made m → Keeps (source_of home m constant) → SameDesign 1 (source_of home p constant) (source_of home m constant) }
{}

/// Resolving is a pass that keeps the meaning: what the resolved core keeps the core keeps, and both mean the same, statement for statement.
pub fn resolving_keeps_the_meaning()
    ensures { (p m : Program) (constant : Location → Option ℕ) → IsNamed p → ((home : Home) → IsHome home → (i : ℕ) (q : Process) → slice_get p.processes i ≡ Some q → IsResolvable home p i q)
        → resolved_program p ≡ Made m → Law 1 constant p m }
{}
