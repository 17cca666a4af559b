//! Laws of what walks over bodies tell, and further worked values.
ghost use Rattle.std.specs.Prelude.{false, ◌≡◌, ℕ, List, [], ◌∷◌, ◌++◌, codes, decimal, drop, flat_map, Option, Some, None, true};
ghost use Rattle.scc_base.specs.declared.refusal.Refusal.{Refusal};
ghost use Rattle.scc_base.specs.declared.code.Code.TheVariants as reason;
ghost use Rattle.scc_svtree.specs.declared.expr.SvExpr.{SvExpr};
ghost use Rattle.scc_core_spec.specs.Code.{End, Block};
ghost use Rattle.scc_core_spec.specs.Term.{Index, Prefix};
ghost use Rattle.scc_core_spec.specs.Program.{Process};
ghost use Rattle.scc_core_spec.specs.First.{IsFirst, NoneOf, TellsFirst, first_of, refused, refused_beside};
ghost use Rattle.scc_core_spec.specs.Kept.{IsKept, TellsKept};
ghost use Rattle.scc_core_spec.specs.Feeding.{IsFirstLoop, feeds};
ghost use Rattle.scc_core_spec.specs.Paths.{Misses, Early, MayNotWait};
ghost use Rattle.scc_core_spec.specs.Flow.{TellsMisses, TellsEarly, TellsIdle, every};
ghost use Rattle.scc_core_spec.specs.Rules.{first_rule, waits as waits_of};
ghost use Rattle.scc_core_spec.specs.Split.{deepest, first_after_passes, first_past, most_statements, most_waits, segments_too_large, stood_in, too_many_states};
ghost use Rattle.scc_core_spec.specs.Static.{Cells};
ghost use Rattle.scc_core_spec.specs.Live.{live};
ghost use Rattle.scc_core_spec.specs.Segments.{all_segments};
ghost use Rattle.scc_core_spec.specs.Sizes.{live_body};
ghost use Rattle.scc_base.specs.declared.refusal.Place.{Place};
ghost use Rattle.scc_core_spec.specs.Unrolled.{unrolled, run_turns, setting_of};
ghost use Rattle.scc_core_spec.specs.Counted.{Elsewhere};
ghost use Rattle.scc_core_spec.specs.Uses.{cells_of};
ghost use Rattle.scc_core_spec.specs.Worked.{here, named, process, put, number, count_cells, local_cells, turn_cells};
ghost use Rattle.scc_core_spec.specs.WorkedRules.{at};
ghost use Rattle.scc_core_spec.specs.WorkedRun.{counting, counting_process};
ghost use Rattle.scc_blocks_spec.specs.Listed.{list_text, register_line, register_lines, process_line};
ghost use Rattle.scc_blocks_spec.specs.Worked.{some_cells, flag};
ghost use Rattle.scc_blocks_spec.specs.WorkedPaths.{above_one, keeping_thread, passing_thread, looping, clears, shows_count, waits, no_turn_body, loading, three_waits};
ghost use Rattle.scc_blocks_spec.specs.WorkedClocks.{by_turns, seen_before, asynchronous};
ghost use Rattle.scc_blocks_spec.specs.WorkedSchedule.{chain, allowed, at_zero, one_step, outputs_before};
ghost use Rattle.scc_semantics.specs.Run.{Shown};
ghost use Rattle.scc_semantics.specs.Schedule.{Scheduled, fresh};
ghost use Rattle.scc_blocks_spec.specs.WorkedList.{counting_module, var};
ghost use Rattle.scc_svtree.specs.declared.module.Dir.TheVariants.{Inner, Output};

/// What a walk gives first is its first answer: nothing before it has one, and where it gives none nothing has one.
pub fn first_answers_are_told()
    ensures processes { (f : Process → Option Refusal) (ps : List Process) → TellsFirst f ps (first_of f ps) }
    ensures first { IsFirst above_one (1 ∷ 4 ∷ 9 ∷ []) 4 }
    ensures none { NoneOf above_one (1 ∷ 0 ∷ []) }
{}

/// A local that a path reads behind a wait before it is written is kept; one that the walk doesn't find isn't, where the walk tells.
pub fn kept_cells_are_told()
    ensures across { IsKept local_cells 0 keeping_thread 3 }
    ensures local { TellsKept local_cells 0 passing_thread 3 → IsKept local_cells 0 passing_thread 3 → ⊥ }
{}

/// Two methods feed each other: the first is refused, beside the other.
pub fn cycles_are_told()
    ensures refused { first_rule looping ≡ Some (refused_beside reason.CombLoop (at 6) (at 7)) }
    ensures first { IsFirstLoop (feeds looping) 0 1 }
{}

/// What the walks tell of paths: a variable is left out, a read comes before each write, nothing waits; and where they tell, a variable that is written isn't left
/// out, and a wait is met.
pub fn paths_are_told()
    ensures misses { TellsMisses count_cells clears 2 }
    ensures writes { TellsMisses count_cells clears 3 → Misses count_cells clears 3 → ⊥ }
    ensures early { TellsEarly count_cells shows_count every 3 → Early count_cells shows_count 3 (at 5) }
    ensures idle { TellsIdle count_cells End }
    ensures waits { TellsIdle count_cells waits → MayNotWait count_cells waits → ⊥ }
{}

/// The list of the counting thread and its module, whole: its registers in declaration order, then the thread.
pub fn a_list_is_whole()
    ensures line { register_line (var (codes "n") 8 Inner) ≡ codes "register n " ++ (decimal 8 ++ codes "\n") }
    ensures lines { register_lines (1 ∷ []) 0 (var (codes "q") 8 Output ∷ var (codes "n") 8 Inner ∷ []) ≡ (codes "register n " ++ (decimal 8 ++ codes "\n")) ++ [] }
    ensures text { (e f : SvExpr) → list_text (λ n. codes "run") (counting_module e f) counting ≡ ((codes "register q " ++ (decimal 8 ++ codes "\n")) ++ ((codes "register n " ++ (decimal 8 ++ codes "\n")) ++ []))
        ++ (process_line (λ n. codes "run") count_cells counting_process ++ []) }
{}

/// An index past the end names nothing, one that isn't static each element; a counted loop without turns leaves the start of its counter.
pub fn what_is_past_the_end()
    ensures within { cells_of some_cells (Index (Prefix here (named 5)) 2 (number 1)) ≡ 2 ∷ [] }
    ensures past { cells_of some_cells (Index (Prefix here (named 5)) 2 (number 2)) ≡ [] }
    ensures any { cells_of some_cells (Index (Prefix here (named 5)) 2 flag) ≡ 1 ∷ 2 ∷ [] }
    ensures turns { run_turns (setting_of turn_cells (process false [] no_turn_body)) [] Elsewhere 0 no_turn_body ≡ [] }
    ensures written { unrolled (setting_of turn_cells (process false [] no_turn_body)) [] Elsewhere no_turn_body ≡ Block here (Block here (put 4 (number 8) End) End) End }
{}

/// Each of two clocks moves its own method; an asynchronous reset acts without an edge, a synchronous one doesn't.
pub fn clocks_and_resets_act()
    ensures clocks { by_turns ≡ (1 ∷ 0 ∷ []) ∷ (1 ∷ 1 ∷ []) ∷ (2 ∷ 2 ∷ []) ∷ [] }
    ensures asynchronous { seen_before asynchronous ≡ (0 ∷ []) ∷ (0 ∷ []) ∷ (1 ∷ []) ∷ (0 ∷ []) ∷ [] }
    ensures synchronous { seen_before counting_process ≡ (7 ∷ []) ∷ (7 ∷ []) ∷ (0 ∷ []) ∷ (1 ∷ []) ∷ [] }
{}

/// An asynchronous reset that loads an input is refused at the assignment.
pub fn a_reset_that_reads_is_refused()
    ensures { first_after_passes first_rule loading ≡ Some (refused reason.ResetValue (at 7)) }
{}

/// A schedule of the reader and the writer of a signal, the reader run twice: the input comes to the output.
pub fn a_schedule_runs()
    ensures { (os : List Shown) × Scheduled allowed chain (fresh at_zero) one_step os × (outputs_before os ≡ (5 ∷ []) ∷ []) }
{}

/// A thread with a wait too many is refused at that wait, segments with a statement too many at that statement: by smaller limits the second wait and the fourth
/// statement, the reset segment first.
pub fn limits_of_threads_have_places()
    ensures waits { drop 1 (waits_of (live count_cells three_waits)) ≡ at 13 ∷ at 14 ∷ [] }
    ensures statements { first_past 3 deepest (flat_map (stood_in 1) (all_segments (live_body count_cells three_waits))) ≡ Some (at 14) }
    ensures states { (cs : Cells) (q : Process) (p : Place) (more : List Place) → drop most_waits (waits_of (live cs q.body)) ≡ p ∷ more → too_many_states cs q ≡ Some (refused reason.TooManyStates p) }
    ensures segments { (cs : Cells) (q : Process) (p : Place) → first_past most_statements deepest (flat_map (stood_in 1) (all_segments (live_body cs q.body))) ≡ Some p → segments_too_large cs q ≡ Some (refused reason.SegmentsTooLarge p) }
{}
