//! Laws that cite the definitions.
ghost use Rattle.std.specs.Prelude.{◌≡◌, ℕ, ◌<◌, ◌^◌, List, Option, Some, None, true, false, slice_get};
ghost use Rattle.scc_semantics.specs.Location.{Location};
ghost use Rattle.scc_semantics.specs.Machine.{Frames};
ghost use Rattle.scc_semantics.specs.Process.{State};
ghost use Rattle.scc_semantics.specs.Start.{IsProper, IsStart};
ghost use Rattle.scc_semantics.specs.Steady.{AllProperRequests, IsSteady};
ghost use Rattle.scc_semantics.specs.Value.{Held};
ghost use Rattle.scc_core_effect_laws.specs.Follows.{IsSoundCore};
ghost use Rattle.scc_core_spec.specs.Constants.{constants_of};
ghost use Rattle.scc_core_spec.specs.Code.{Code};
ghost use Rattle.scc_core_spec.specs.Program.{Program, Process};
ghost use Rattle.scc_core_spec.specs.Term.{Left, Term, kind_of};
ghost use Rattle.scc_core_spec.specs.Named.{Step, cell_at};
ghost use Rattle.scc_core_spec.specs.Live.{live};
ghost use Rattle.scc_core_spec.specs.Segments.{Segment, all_segments};
ghost use Rattle.scc_core_spec.specs.Sizes.{live_body};
ghost use Rattle.scc_core_spec.specs.Static.{Cells};
ghost use Rattle.scc_core_spec.specs.Uses.{among, cells_of, root_of};
ghost use Rattle.scc_core_spec.specs.Rules.{end_reached, loop_may_not_wait, wait_in_method};
ghost use Rattle.scc_core_spec.specs.Source.{Home, source_of};
ghost use Rattle.scc_core_spec.specs.WorkedRun.{counting, home};
ghost use Rattle.scc_blocks_spec.specs.Worked.{two_outputs, waiting_thread};
ghost use Rattle.scc_blocks_spec.specs.WorkedClocks.{two_clocks};
ghost use Rattle.scc_bits_kinds.specs.Kinds.{width_of};
ghost use Rattle.scc_blocks_spec.specs.Acting.{Acting, steps_in, word_in};
ghost use Rattle.scc_blocks_spec.specs.Effect.{Fell, effect, run_segment};
ghost use Rattle.scc_blocks_spec.specs.Comes.{Comes, Keeps};
ghost use Rattle.scc_blocks_spec.specs.Passed.{IsHome};
ghost use Rattle.scc_states_laws.specs.Alike.{IsFitCode, TellsApart};
ghost use Rattle.scc_core_spec.specs.Exits.{exits_within};
ghost use Rattle.scc_states_laws.specs.InTime.{NeverStuck};
ghost use Rattle.scc_states_laws.specs.Processes.{Reached, running_of};
ghost use Rattle.scc_states_laws.specs.Turned.{ComesToWaits, MethodTurns, ThreadTurns};
ghost use Rattle.scc_core_effect_laws.specs.Sound.{FitWords};
ghost use Rattle.scc_core_resolved_laws.specs.Asked.{FitsRan, HoldsFixed};
ghost use Rattle.scc_core_spec.specs.Fit.{fit_code, fit_term};
ghost use Rattle.scc_core_spec.specs.OpenNames.{is_sized};
ghost use Rattle.scc_core_spec.specs.IsResolved.{IsResolved, is_resolved};

/// The bodies of a resolved core fit.
pub fn bodies_of_a_resolved_core_fit()
    ensures fits { (p : Program) (i : ℕ) (q : Process) → IsResolved p → slice_get p.processes i ≡ Some q → IsFitCode q p.cells q.body }
    ensures exits { (p : Program) (i : ℕ) (q : Process) → IsResolved p → slice_get p.processes i ≡ Some q → exits_within 0 q.body ≡ true }
{}

/// The cells of a resolved core are found by their locations as by their names.
pub fn cells_of_a_resolved_core_are_told_apart()
    ensures { (home : Home) (p : Program) (i : ℕ) (q : Process) → IsHome home → IsResolved p → slice_get p.processes i ≡ Some q → TellsApart home p i q }
{}

/// What a process of a resolved core comes to holds proper words, and asks for proper ones.
pub fn words_of_a_resolved_core_stay_proper()
    ensures { (home : Home) (p : Program) (i : ℕ) (q : Process) (signals : Location → ℕ) (f : Frames) (h : Held) → IsHome home → IsResolved p → slice_get p.processes i ≡ Some q
        → Comes (source_of home p (constants_of home p)) i (running_of home p i q) signals f h
        → IsProper (source_of home p (constants_of home p)) h.store.words × AllProperRequests (source_of home p (constants_of home p)) h.requests }
{}

/// A resolved core is steady.
pub fn a_resolved_core_is_steady()
    ensures { (home : Home) (p : Program) → IsHome home → IsResolved p → IsSteady (source_of home p (constants_of home p)) }
{}

/// In a resolved core fixed locations keep their words, and no pointer is assigned.
pub fn a_resolved_core_keeps_what_is_fixed()
    ensures { (home : Home) (p : Program) → IsHome home → IsResolved p → Keeps (source_of home p (constants_of home p)) }
{}

/// There are resolved cores, and a home; two processes of one name are refused.
pub fn there_are_resolved_cores()
    ensures counting { IsResolved counting }
    ensures waiting { IsResolved waiting_thread }
    ensures outputs { IsResolved two_outputs }
    ensures alike { is_resolved two_clocks ≡ false }
    ensures home { IsHome home }
{}

/// A resume of a thread of a resolved core is a turn of its registers, and comes to a wait within its bound, where the rules refuse nothing.
pub fn threads_of_a_resolved_core_turn()
    ensures turns { (home : Home) (p : Program) (i : ℕ) (q : Process) (signals : Location → ℕ) → IsHome home → IsResolved p → slice_get p.processes i ≡ Some q → loop_may_not_wait p ≡ None
        → ThreadTurns home (constants_of home p) p i q signals (Reached (source_of home p (constants_of home p)) i (running_of home p i q) signals) }
    ensures waits { (home : Home) (p : Program) (i : ℕ) (q : Process) (signals : Location → ℕ) → IsHome home → IsResolved p → slice_get p.processes i ≡ Some q → loop_may_not_wait p ≡ None → end_reached p ≡ None
        → q.is_thread ≡ true → ComesToWaits home (constants_of home p) p i q signals (Reached (source_of home p (constants_of home p)) i (running_of home p i q) signals) }
    ensures methods { (home : Home) (p : Program) (i : ℕ) (q : Process) (signals : Location → ℕ) → IsHome home → IsResolved p → slice_get p.processes i ≡ Some q → loop_may_not_wait p ≡ None → wait_in_method p ≡ None
        → q.is_thread ≡ false → MethodTurns home (constants_of home p) p i q signals (Reached (source_of home p (constants_of home p)) i (running_of home p i q) signals) }
{}

/// Words of registers fit: what terms that fit give, and what code that fits leaves.
pub fn words_of_registers_stay_fit()
    ensures terms { (p : Program) (q : Process) (a : Acting) (e : Term) (x : ℕ) → IsResolved p → FitWords p.cells a → fit_term p.cells q e ≡ true → word_in p.cells a e ≡ Some x → x < 2 ^ width_of (kind_of e) }
    ensures code { (p : Program) (q : Process) (c : Code) (a b : Acting) → IsResolved p → fit_code p.cells q c ≡ true → FitWords p.cells a → effect p.cells c a ≡ Fell b → FitWords p.cells b }
    ensures segments { (p : Program) (i n : ℕ) (q : Process) (s : Segment) (a : Acting) → IsResolved p → slice_get p.processes i ≡ Some q → slice_get (all_segments (live_body p.cells q.body)) n ≡ Some s → FitWords p.cells a
        → FitsRan p.cells (run_segment p.cells s a) }
    ensures methods { (p : Program) (i : ℕ) (q : Process) (a b : Acting) → IsResolved p → slice_get p.processes i ≡ Some q → FitWords p.cells a → effect p.cells (live p.cells q.body) a ≡ Fell b → FitWords p.cells b }
{}

/// What a location names while registers hold what is fixed is among the cells that its statement tells.
pub fn what_is_named_is_told()
    ensures { (cs : Cells) (a : Acting) (l : Left) (s : List Step) (n : ℕ) → HoldsFixed cs a → is_sized cs l ≡ true → steps_in cs a l ≡ Some s → cell_at false 0 s cs ≡ Some n → among (root_of cs n) (cells_of cs l) ≡ true }
{}

/// A resolved core has a start.
pub fn a_resolved_core_starts()
    ensures { (home : Home) (p : Program) → IsHome home → IsResolved p → (s : State) × IsStart (source_of home p (constants_of home p)) s }
{}

/// A resolved core is never stuck, where the rules refuse nothing.
pub fn a_resolved_core_is_never_stuck()
    ensures { (home : Home) (p : Program) → IsHome home → IsResolved p → loop_may_not_wait p ≡ None → wait_in_method p ≡ None → NeverStuck home p }
{}

/// Of a resolved core cells are apart, live parts are sound, clocks and resets are roots, locals are named by their own processes, and what is fixed is written by none.
pub fn a_resolved_core_is_sound()
    ensures { (home : Home) (p : Program) → IsHome home → IsResolved p → IsSoundCore home p }
{}
