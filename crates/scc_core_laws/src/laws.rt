//! Laws that stand on the definitions alone.
ghost use Rattle.std.specs.Prelude.{◌≡◌, ℕ, List, [], true, false, None, map, length, filter};
ghost use Rattle.scc_semantics.specs.Process.{State};
ghost use Rattle.scc_semantics.specs.Run.{FitSteps, Step};
ghost use Rattle.scc_semantics.specs.Start.{IsStart};
ghost use Rattle.scc_core_spec.specs.Code.{Code};
ghost use Rattle.scc_core_spec.specs.Flow.{CellSet, flow};
ghost use Rattle.scc_core_spec.specs.Program.{Program, is_root, is_combinational};
ghost use Rattle.scc_core_spec.specs.Rules.{first_rule};
ghost use Rattle.scc_core_spec.specs.Segments.{Segment, segment_code};
ghost use Rattle.scc_core_spec.specs.Source.{Home};
ghost use Rattle.scc_core_spec.specs.Static.{Cells};
ghost use Rattle.scc_core_spec.specs.Uses.{has_sort};
ghost use Rattle.scc_blocks_spec.specs.Acting.{Acting};
ghost use Rattle.scc_blocks_spec.specs.Effect.{effect, run_segment};
ghost use Rattle.scc_blocks_spec.specs.Turns.{Regs, rounds, settled};
ghost use Rattle.scc_blocks_spec.specs.Tied.{Tied};
ghost use Rattle.scc_core_effect_laws.specs.Sound.{Sound};
ghost use Rattle.scc_core_effect_laws.specs.Alike.{Alike, AlikeRan, Both, Late, Singles};
ghost use Rattle.scc_core_effect_laws.specs.Follows.{Does, IsSoundCore, Obeys, SettleFollows, Tracks, design_of};
ghost use Rattle.scc_core_spec.specs.IsResolved.{IsResolved};
ghost use Rattle.scc_blocks_spec.specs.Passed.{IsHome};
ghost use Rattle.scc_states_laws.specs.InTime.{CoreInTime};
ghost use Rattle.scc_core_laws.specs.Bounded.{KeepBounds};
ghost use Rattle.scc_core_laws.specs.Given.{regs_of, regs_step_of};
ghost use Rattle.scc_core_effect_laws.specs.Ordering.{Answers, HasOrder, IsSettled, SameInputs};
ghost use Rattle.scc_core_laws.specs.Stepped.{AreStepsOf, IsStepOf, RegsStep, RunFollows, StepFollows};

/// What code or a segment leaves depends only on what it reads before it writes it whole.
pub fn a_resume_depends_on_early_reads()
    ensures code { (cs : Cells) (c : Code) (u : CellSet) (a b : Acting) → Sound cs c → ((x : ℕ) → u x ≡ true → has_sort is_root cs x ≡ false) → Late cs u c → Both cs u a b
        → Alike cs (flow cs c u).fall (flow cs c u).out (effect cs c a) (effect cs c b) }
    ensures segment { (cs : Cells) (s : Segment) (u : CellSet) (a b : Acting) → Sound cs (segment_code s) → Singles s → ((x : ℕ) → u x ≡ true → has_sort is_root cs x ≡ false) → Late cs u (segment_code s) → Both cs u a b
        → AlikeRan cs u (run_segment cs s a) (run_segment cs s b) }
    ensures told { (cs : Cells) (c : Code) (u : CellSet) → (flow cs c u).early ≡ [] → Late cs u c }
{}

/// From tied states the design settles where the registers do.
pub fn a_phase_follows()
    ensures { (home : Home) (p : Program) → IsSoundCore home p → Obeys p → (bounds : ℕ → ℕ) → Does home p bounds → Tracks home p bounds → (s : State) (g : Regs) → Tied home p s g → SettleFollows home p bounds s (settled p g) }
{}

/// The design's step follows that of the registers.
pub fn a_step_follows()
    ensures { (home : Home) (p : Program) → IsSoundCore home p → Obeys p → (bounds : ℕ → ℕ) → Does home p bounds → Tracks home p bounds → (s : State) (g : Regs) (x : Step) (y : RegsStep)
        → Tied home p s g → IsStepOf home p x y → StepFollows home p bounds s g x y }
{}

/// What the design shows over steps is what the registers show.
pub fn a_run_follows()
    ensures { (home : Home) (p : Program) → IsSoundCore home p → Obeys p → (bounds : ℕ → ℕ) → Does home p bounds → Tracks home p bounds → (xs : List Step) (ys : List RegsStep) (s : State) (g : Regs)
        → Tied home p s g → AreStepsOf home p xs ys → RunFollows home p bounds s g xs ys }
{}

/// Where no rule is broken, each root has one writer, no process names a variable that another writes, and methods read late.
pub fn unbroken_rules_are_obeyed()
    ensures { (p : Program) → first_rule p ≡ None → Obeys p }
{}

/// What the design of a resolved core whose rules aren't broken shows from a start over steps that fit, within the bounds of its bodies, is what registers show from that start.
pub fn a_run_from_a_start_follows()
    ensures { (home : Home) (p : Program) → IsHome home → IsResolved p → first_rule p ≡ None → (bounds : ℕ → ℕ) → KeepBounds p bounds → (s : State) → IsStart (design_of home p) s
        → (xs : List Step) → FitSteps (design_of home p) xs → RunFollows home p bounds s (regs_of home p s) xs (map (regs_step_of home p) xs) }
{}

/// Such a design comes to each wait and to the end of each method within the bounds of its bodies.
pub fn a_resolved_core_is_in_time()
    ensures { (home : Home) (p : Program) → IsHome home → IsResolved p → first_rule p ≡ None → CoreInTime home p }
{}

/// Where no rule is broken, the combinational methods of a resolved core have an order.
pub fn methods_have_an_order()
    ensures { (p : Program) → IsResolved p → first_rule p ≡ None → (order : List ℕ) × HasOrder p order }
{}

/// Where no rule is broken, the registers of a resolved core are settled after as many rounds as there are methods; what they settle to from tied states another round leaves as it is; and of settled ones from which methods come to their ends there is one to the same inputs.
pub fn what_settled_is_settled()
    ensures settled { (home : Home) (p : Program) → IsHome home → IsResolved p → first_rule p ≡ None → (s : State) (g : Regs) → Tied home p s g
        → IsSettled p (settled p g) × Answers p (settled p g) }
    ensures soon { (home : Home) (p : Program) → IsHome home → IsResolved p → first_rule p ≡ None → (s : State) (g : Regs) → Tied home p s g
        → IsSettled p (rounds p (length (filter is_combinational p.processes)) g) }
    ensures one { (home : Home) (p : Program) → IsHome home → IsResolved p → first_rule p ≡ None → (g h : Regs)
        → Answers p g → Answers p h → IsSettled p g → IsSettled p h → SameInputs p g h → (c : ℕ) → has_sort is_root p.cells c ≡ true → g.word c ≡ h.word c }
{}
