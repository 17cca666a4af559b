//! Laws that stand on the definitions alone.
ghost use Rattle.std.specs.Prelude.{◌≡◌, ℕ, suc, ◌≤◌, List, length, filter, true, None, Some, slice_get};
ghost use Rattle.scc_semantics.specs.Design.{Design};
ghost use Rattle.scc_semantics.specs.Process.{State, Well, is_combinational};
ghost use Rattle.scc_semantics.specs.Rounds.{EndsSoon, Reached};
ghost use Rattle.scc_semantics.specs.Run.{FitSteps, Step, Shown, shown};
ghost use Rattle.scc_semantics.specs.Same.{SameDesign};
ghost use Rattle.scc_semantics.specs.Schedule.{AnyOrder, Covers, Running, Scheduled, Settles, among, fresh, is_method};
ghost use Rattle.scc_semantics.specs.Start.{IsStart};
ghost use Rattle.scc_core_spec.specs.IsResolved.{IsResolved};
ghost use Rattle.scc_core_spec.specs.Program.{Cell, Program};
ghost use Rattle.scc_core_spec.specs.Rules.{first_rule};
ghost use Rattle.scc_core_spec.specs.Source.{Home};
ghost use Rattle.scc_core_spec.specs.WorkedRun.{counting, home};
ghost use Rattle.scc_blocks_spec.specs.Names.{holds_word, is_kept_at};
ghost use Rattle.scc_blocks_spec.specs.Passed.{IsHome};
ghost use Rattle.scc_blocks_spec.specs.Tied.{Tied};
ghost use Rattle.scc_blocks_spec.specs.Turns.{Regs, settled};
ghost use Rattle.scc_core_effect_laws.specs.Follows.{design_of};
ghost use Rattle.scc_core_laws.specs.Bounded.{KeepBounds};
ghost use Rattle.scc_core_order_laws.specs.Inputs.{SameStored};
ghost use Rattle.scc_core_order_laws.specs.Worked.{chained};

/// However many statements are allowed in each resume, what goes well shows the same.
pub fn what_goes_well_comes_to_one_end()
    ensures { (b c : ℕ → ℕ) (d : Design) (xs : List Step) (s : State) (os ps : List Shown) → shown b d xs s ≡ Well os → shown c d xs s ≡ Well ps → os ≡ ps }
{}

/// Of a resolved core whose rules aren't broken, whatever a schedule of steps shows of outputs and registers is what the standard steps show.
pub fn any_order_shows_the_same()
    ensures { (home : Home) (p : Program) → IsHome home → IsResolved p → first_rule p ≡ None → AnyOrder (is_kept_at home p) (design_of home p) }
{}

/// Of a resolved core whose rules aren't broken, from all that a scheduler comes to at most as many rounds change a signal as there are methods; and whatever lists it takes that cover the
/// methods that must run, within the bounds of its bodies a settling ends after one round more.
pub fn settling_ends_soon()
    ensures soon { (home : Home) (p : Program) → IsHome home → IsResolved p → first_rule p ≡ None → EndsSoon (design_of home p) }
    ensures ends { (home : Home) (p : Program) → IsHome home → IsResolved p → first_rule p ≡ None → (bounds : ℕ → ℕ) → KeepBounds p bounds
        → (choose : Running → List ℕ) → ((r : Running) → Covers (design_of home p) r (choose r)) → (r : Running) → Reached bounds (design_of home p) r
        → (n : ℕ) × (t : Running) × Settles bounds (design_of home p) n r t × (n ≤ suc (length (filter is_combinational (design_of home p).processes))) }
{}

/// Methods that are all named cover those that must run; and of a resolved core whose rules aren't broken there is a schedule of all steps that fit, from each start.
pub fn there_is_a_schedule()
    ensures all { (d : Design) (r : Running) (runs : List ℕ) → ((i : ℕ) → among i runs ≡ true → is_method d i ≡ true) → ((i : ℕ) → is_method d i ≡ true → among i runs ≡ true) → Covers d r runs }
    ensures some { (home : Home) (p : Program) → IsHome home → IsResolved p → first_rule p ≡ None → (bounds : ℕ → ℕ) → KeepBounds p bounds
        → (s : State) → IsStart (design_of home p) s → (xs : List Step) → FitSteps (design_of home p) xs → (ps : List Shown) × Scheduled bounds (design_of home p) (fresh s) xs ps }
{}

/// What means the same as a resolved core whose rules aren't broken shows the same in any order, and its settling ends as soon.
pub fn what_means_a_core_runs_in_any_order()
    ensures { (home : Home) (p : Program) → IsHome home → IsResolved p → first_rule p ≡ None → (k : ℕ) (d : Design) → SameDesign k d (design_of home p) → AnyOrder (is_kept_at home p) d × EndsSoon d }
{}

/// Of a resolved core whose rules aren't broken, the settled words of signals, ports and registers are a function of inputs, registers and constants: from tied states that agree at inputs
/// and registers they are the same.
pub fn settled_words_are_a_function()
    ensures { (home : Home) (p : Program) → IsHome home → IsResolved p → first_rule p ≡ None → (s t : State) (g h : Regs)
        → Tied home p s g → Tied home p t h → SameStored p g h → (c : ℕ) (x : Cell) → slice_get p.cells c ≡ Some x → holds_word p c ≡ true → (settled p g).word c ≡ (settled p h).word c }
{}

/// A thread under reset at a clock, and the reader and the writer of a signal, show the same in any order, and their settling ends soon.
pub fn worked_cores_run_in_any_order()
    ensures counting { AnyOrder (is_kept_at home counting) (design_of home counting) × EndsSoon (design_of home counting) }
    ensures chained { AnyOrder (is_kept_at home chained) (design_of home chained) × EndsSoon (design_of home chained) }
{}
