//! Laws on what passes answer.
ghost use Rattle.std.specs.Prelude.{◌≡◌, ℕ, ◌+◌, List, [], ◌∷◌, map, unwrap_or, slice_get, Result, Ok, Err, Some};
ghost use Rattle.scc_base.specs.declared.refusal.Place.{Place};
ghost use Rattle.scc_base.specs.declared.refusal.Refusal.{Refusal};
ghost use Rattle.scc_base.specs.declared.refusal.Stop.TheVariants as stop;
ghost use Rattle.scc_core.specs.declared.stmt.CoreStmt.{CoreStmt};
ghost use Rattle.scc_core.specs.declared.expr.CoreExpr.{CoreExpr};
ghost use Rattle.scc_states_cut.specs.declared.types.SegStmt.{SegStmt};
ghost use Rattle.scc_states_cut.specs.declared.types.SegNode.TheVariants as node;
ghost use Rattle.scc_core.specs.declared.program.Core.{Core};
ghost use Rattle.scc_core.specs.declared.program.CoreProcess.{CoreProcess};
ghost use Rattle.scc_states.specs.declared.types.Split.{Split};
ghost use Rattle.scc_states.specs.Splits.{IsParted};
ghost use Rattle.scc_core_spec.specs.Kept.{kept};
ghost use Rattle.scc_core_view.specs.Programs.{cells_of, process_of, program_of};
ghost use Rattle.scc_core_spec.specs.Resolved.{Made, Stopped};
ghost use Rattle.scc_core_spec.specs.Segments.{Segment, Plain, Test, Halt};
ghost use Rattle.scc_core_view.specs.Codes.{code_of};
ghost use Rattle.scc_core_view.specs.Terms.{term_of};
ghost use Rattle.scc_states_view.specs.Answers.{Answers, said_by, unless};
ghost use Rattle.scc_states_view.specs.IsSplit.{IsSplit};
ghost use Rattle.scc_states_cut.specs.Cut.{before, stmt_segment};
ghost use Rattle.scc_states_view.specs.Worked.{waiting, waiting_split};

/// A statement of a segment stands before what follows it, a test with that behind each branch; a wait ends the segment.
pub fn statements_are_segments()
    ensures plain { (waits : List ℕ) (p : Place) (s : CoreStmt) (rest : Segment) →
        stmt_segment waits (record { place = p; node = node.Plain s }) rest ≡ Plain (code_of (s ∷ [])) rest }
    ensures test { (waits : List ℕ) (p : Place) (t : CoreExpr) (a b : List SegStmt) (rest : Segment) →
        stmt_segment waits (record { place = p; node = node.If t a b }) rest
        ≡ Test p (term_of t) (before (map (stmt_segment waits) a) rest) (before (map (stmt_segment waits) b) rest) }
    ensures wait { (waits : List ℕ) (p : Place) (n : ℕ) (rest : Segment) →
        stmt_segment waits (record { place = p; node = node.Wait n }) rest ≡ Halt p n (unwrap_or (slice_get waits n) 0) }
{}

/// A thread that waits for one edge, and then for two, again and again.
pub fn a_waiting_thread_is_split()
    ensures { IsSplit waiting 0 waiting_split }
{}

/// What is said of a thread that is cut, and that its kept cells are the definition's, makes a split of it.
pub fn a_parted_thread_is_split()
    ensures { (c : Core) (i : ℕ) (p : CoreProcess) (s : Split) → slice_get c.processes i ≡ Some p → IsParted (program_of c) (process_of p) s
        → s.kept ≡ kept (cells_of c) i (process_of p) → IsSplit (program_of c) i s }
{}

/// What is given is the definition's, what is refused is refused by it, and want of memory tells nothing.
pub fn a_call_answers_its_definition()
    ensures given { Answers (λ n. n + 1) (said_by (Made 3)) (Ok 2) }
    ensures refused { (r : Refusal) → Answers (λ n. n + 1) (said_by (Stopped r)) (Err (stop.Refused r)) }
    ensures first { (r : Refusal) → Answers (λ n. n + 1) (unless (Some r) 3) (Err (stop.Refused r)) }
    ensures memory { (o : Result ℕ Refusal) → Answers (λ n. n + 1) o (Err stop.NoMemory) }
{}
