//! Laws that cite the definitions.
ghost use Rattle.std.specs.Prelude.{◌≡◌, ℕ, List, [], ◌∷◌, length, drop, Option, Some, None, true, false};
ghost use Rattle.scc_base.specs.declared.refusal.Refusal.{Refusal};
ghost use Rattle.scc_core_spec.specs.Term.{Cell, Read, Load, Bit, Term};
ghost use Rattle.scc_bits_kinds.specs.declared.kind.Kind.TheVariants as kind;
ghost use Rattle.scc_core_spec.specs.WorkedRules.{at, keeping, latching, may_not_wait, sharing};
ghost use Rattle.scc_core_spec.specs.Code.{Code, End, If, Block, numbered, size};
ghost use Rattle.scc_core_spec.specs.Program.{Program, Process};
ghost use Rattle.scc_core_spec.specs.Static.{static, Cells};
ghost use Rattle.scc_core_spec.specs.Segments.{Plain, Test, Halt, Finish, segment, segments, all_segments};
ghost use Rattle.scc_core_spec.specs.Sizes.{bound, loops_deep, states, thread_statements, live_body, measure, bits_in};
ghost use Rattle.scc_core_spec.specs.First.{first_of, refused, refused_beside, TellsFirst};
ghost use Rattle.scc_core_spec.specs.Paths.{Misses};
ghost use Rattle.scc_core_spec.specs.Flow.{TellsMisses, TellsEarly, TellsIdle};
ghost use Rattle.scc_core_spec.specs.Kept.{kept, is_kept, TellsKept};
ghost use Rattle.scc_core_spec.specs.Feeding.{IsOrder};
ghost use Rattle.scc_core_spec.specs.Rules.{first_rule};
ghost use Rattle.scc_core_spec.specs.Split.{first_after_passes, first_split};
ghost use Rattle.scc_core_spec.specs.Unrolled.{unrolled, run_turns, first_unrolled, setting_of};
ghost use Rattle.scc_core_spec.specs.Counted.{Elsewhere};
ghost use Rattle.scc_base.specs.declared.code.Code.TheVariants as reason;
ghost use Rattle.scc_core_spec.specs.Resolved.{Made, Stopped, made_map, resolved};
ghost use Rattle.scc_core_spec.specs.Uses.{loads};
ghost use Rattle.scc_core_spec.specs.Live.{live};
ghost use Rattle.scc_core_spec.specs.Unpointed.{unpointed};
ghost use Rattle.scc_core_spec.specs.Renumbered.{resolved_program};
ghost use Rattle.scc_core_spec.specs.WorkedRun.{counts, counting, counting_process};
ghost use Rattle.scc_core_spec.specs.Fit.{fit_code};
ghost use Rattle.scc_core_spec.specs.IsResolved.{IsResolved};
ghost use Rattle.scc_core_spec.specs.WorkedPlaces.{choosing_of, element_behind, elements_at, input, vector_cells};
ghost use Rattle.scc_core_spec.specs.Term.{Index, Prefix};
ghost use Rattle.scc_core_spec.specs.Sizes.{index_sum};
ghost use Rattle.scc_core_spec.specs.Split.{index_too_wide};
ghost use Rattle.scc_core_spec.specs.Uses.{cells_of};
ghost use Rattle.scc_core_spec.specs.Worked.{here, named, count_cells, count_body, branch_body, put, byte, load, one_more, local_cells, local_body, kept_body, tail_body, once_body, once_live, process, turn_cells, turn_body, turn_written, leaves_at, counter, number, pointer_cells, through, spot, bit_behind_null};

/// The counting thread: 12 statements, one loop that waits, at most 72 steps, two states, 9 statements in its segments.
pub fn the_counting_thread_is_measured()
    ensures statements { size count_body ≡ 12 }
    ensures loops { loops_deep count_body ≡ 1 }
    ensures steps { bound count_body ≡ 72 }
    ensures waits { states count_cells count_body ≡ 2 }
    ensures written { thread_statements count_cells count_body ≡ 9 }
    ensures measure { measure counting ≡ 9 }
    ensures bits { bits_in turn_cells (leaves_at counter) ≡ 1 }
    ensures known { bits_in turn_cells (leaves_at (number 3)) ≡ 0 }
{}

/// Its segments: the reset one clears, the other two count.
pub fn the_counting_thread_is_cut()
    ensures { all_segments (live_body count_cells count_body) ≡
        Plain (put 3 (byte 0) End) (Plain (put 2 (byte 0) End) (Halt here 0 1))
        ∷ Plain (put 3 one_more End) (Plain (put 2 (load 3) End) (Halt here 1 1))
        ∷ Plain (put 3 one_more End) (Plain (put 2 (load 3) End) (Halt here 1 1)) ∷ [] }
{}

/// A local that is written before it is read between two waits isn't kept, one that is read behind another wait is, and a counter is.
pub fn what_lives_across_a_wait_is_kept()
    ensures local { kept local_cells 0 (process true [] local_body) ≡ [] }
    ensures across { kept local_cells 0 (process true [] kept_body) ≡ 3 ∷ [] }
    ensures counter { kept count_cells 0 (process true [] count_body) ≡ 3 ∷ [] }
{}

/// A thread with an unkept local: 11 statements, at most 66 steps, 8 statements in its segments.
pub fn a_thread_with_a_local_is_measured()
    ensures statements { size local_body ≡ 11 }
    ensures steps { bound local_body ≡ 66 }
    ensures waits { states local_cells local_body ≡ 2 }
    ensures written { thread_statements local_cells local_body ≡ 8 }
{}

/// A tail behind a wait in one branch stands in the reset segment and behind both waits.
pub fn a_tail_is_copied()
    ensures { all_segments (live_body count_cells tail_body) ≡
        Plain (put 3 (byte 0) End) (Test here (Read here kind.Bool (Cell here 1)) (Halt here 0 1) (Plain (put 2 (load 3) End) (Plain (put 3 one_more End) (Halt here 1 1))))
        ∷ Plain (put 2 (load 3) End) (Plain (put 3 one_more End) (Halt here 1 1))
        ∷ Test here (Read here kind.Bool (Cell here 1)) (Halt here 0 1) (Plain (put 2 (load 3) End) (Plain (put 3 one_more End) (Halt here 1 1))) ∷ [] }
{}

/// Of a loop whose body's end no path comes to the body stands alone, without what no path comes to.
pub fn a_loop_that_runs_once_is_its_body()
    ensures lives { live count_cells once_body ≡ once_live }
    ensures waits { states count_cells once_body ≡ 1 }
{}

/// The counting thread breaks no rule.
pub fn the_counting_thread_is_accepted()
    ensures { first_after_passes first_rule (record { top = 0; cells = count_cells; vectors = []; processes = process true [] count_body ∷ [] }) ≡ None }
{}

/// The empty order is one of no methods.
pub fn no_methods_are_ordered()
    ensures { IsOrder (record { top = 0; cells = []; vectors = []; processes = [] }) [] }
{}

/// A counted loop of three turns, written out; one of eight has eight turns.
pub fn counted_loops_are_written_out()
    ensures three { unrolled (setting_of turn_cells (process false [] (turn_body 2))) [] Elsewhere (turn_body 2) ≡ Block here (Block here (put 4 (number 0) (turn_written 0 (turn_written 1 (turn_written 2 End)))) End) End }
    ensures eight { length (run_turns (setting_of turn_cells (process false [] (turn_body 7))) [] Elsewhere 0 (turn_body 7)) ≡ 8 }
    ensures none { first_unrolled turn_cells (process false [] (turn_body 7)) ≡ None }
{}

/// A pointer gives way to the object to which it leads; null that is followed is refused.
pub fn pointers_give_way_to_objects()
    ensures object { unpointed (record { cells = pointer_cells; vectors = []; local = λ n. None }) (through 0) ≡ Made (put 2 (number 1) End) }
    ensures null { unpointed (record { cells = pointer_cells; vectors = []; local = λ n. None }) (through 1) ≡ Stopped (refused reason.EmptyPointer here) }
    ensures bit { resolved (record { cells = pointer_cells; vectors = []; local = λ n. None }) bit_behind_null ≡ Stopped (refused reason.EmptyPointer (spot 2)) }
{}

/// The index of a variable's bit is read before the variable.
pub fn an_index_is_read_before_its_variable()
    ensures { loads (Bit here (Load (spot 1) (kind.Uint 8) (Cell here 3)) (Load (spot 2) (kind.Uint 8) (Cell here 2))) ≡ record { place = spot 2; left = Cell here 2 } ∷ record { place = spot 1; left = Cell here 3 } ∷ [] }
{}

/// No processes, no pointers.
pub fn nothing_has_no_pointers()
    ensures { resolved_program (record { top = 0; cells = pointer_cells; vectors = []; processes = [] }) ≡ Made (record { top = 0; cells = drop 2 pointer_cells; vectors = []; processes = [] }) }
{}

/// The counting thread as a design shows 0, 1 and 2 after its edges, whatever storage held at first.
pub fn the_counting_thread_counts()
    ensures { counts ≡ (0 ∷ []) ∷ (1 ∷ []) ∷ (2 ∷ []) ∷ [] }
{}

/// A thread with a wait in a branch: three states, and the rest behind each way.
pub fn a_wait_in_a_branch_is_cut()
    ensures waits { states count_cells branch_body ≡ 3 }
    ensures cut { all_segments (live_body count_cells branch_body) ≡
        Test here (Read here kind.Bool (Cell here 1)) (Halt here 0 1) (Plain (put 3 (byte 0) End) (Halt here 1 1))
        ∷ Plain (put 3 (byte 0) End) (Halt here 1 1)
        ∷ Plain (put 2 (load 3) End) (Plain (put 3 one_more End) (Halt here 2 1))
        ∷ Plain (put 2 (load 3) End) (Plain (put 3 one_more End) (Halt here 2 1)) ∷ [] }
{}

/// What is refused of bodies, and where.
pub fn broken_rules_are_refused()
    ensures shared { first_rule sharing ≡ Some (refused_beside reason.SharedVariable (at 3) (at 2)) }
    ensures idle { first_rule may_not_wait ≡ Some (refused reason.LoopMayNotWait (at 8)) }
    ensures latch { first_rule latching ≡ Some (refused reason.Latch (at 5)) }
    ensures kept { first_rule keeping ≡ Some (refused reason.CombState here) }
{}

/// Two vectors of 4 elements in an array: under two indices that aren't static 8 elements; behind an index past the end there is none.
pub fn vectors_of_an_array_have_one_size()
    ensures known { element_behind (input 0) (input 1) ≡ Index (Index (Prefix here (named 5)) 2 (input 0)) 4 (input 1) }
    ensures elements { elements_at (element_behind (input 0) (input 1)) ≡ Some 8 }
    ensures one { cells_of vector_cells (element_behind (number 1) (input 1)) ≡ 6 ∷ 7 ∷ 8 ∷ 9 ∷ [] }
    ensures past { element_behind (number 7) (number 0) ≡ Index (Index (Prefix here (named 5)) 2 (number 7)) 0 (number 0) }
    ensures nothing { cells_of vector_cells (element_behind (number 7) (number 0)) ≡ [] }
{}

/// A method that reads one of 4 elements: two statements, one index that isn't static, and 4 elements under it.
pub fn elements_under_an_index_are_counted()
    ensures elements { index_sum (choosing_of 4) ≡ 4 }
    ensures measure { measure (choosing_of 4) ≡ 7 }
    ensures most { index_too_wide (choosing_of 1048576) ≡ None }
    ensures past { index_too_wide (choosing_of 1048577) ≡ Some (refused reason.IndexTooWide (at 7)) }
{}

/// The counting thread is resolved. What lies behind a pointer isn't, and its object is.
pub fn the_counting_thread_is_resolved()
    ensures counting { IsResolved counting }
    ensures behind { fit_code pointer_cells counting_process (through 0) ≡ false }
    ensures object { made_map (fit_code pointer_cells counting_process) (unpointed (record { cells = pointer_cells; vectors = []; local = λ n. None }) (through 0)) ≡ Made true }
{}
