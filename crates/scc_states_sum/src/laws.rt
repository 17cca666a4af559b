//! Laws on what is counted of elements.
ghost use Rattle.std.specs.Prelude.{◌≡◌, ◌+◌, List, Option, map};
ghost use Rattle.scc_bits.specs.Value.{Number};
ghost use Rattle.scc_core.specs.declared.expr.CoreExpr.{CoreExpr};
ghost use Rattle.scc_core.specs.declared.program.Core.{Core};
ghost use Rattle.scc_core.specs.declared.stmt.CoreStmt.{CoreStmt};
ghost use Rattle.scc_core_spec.specs.Live.{alive};
ghost use Rattle.scc_core_spec.specs.Sizes.{index_sum};
ghost use Rattle.scc_core_spec.specs.Static.{Cells};
ghost use Rattle.scc_core_spec.specs.Uses.{loads};
ghost use Rattle.scc_core_view.specs.Codes.{code_of};
ghost use Rattle.scc_core_view.specs.Programs.{cells_of, program_of};
ghost use Rattle.scc_core_view.specs.Terms.{term_of};
ghost use Rattle.scc_states.specs.declared.types.Split.{Split};
ghost use Rattle.scc_states_sum.specs.Bodies.{Agrees, AreMeasuredStmts, code_elements};
ghost use Rattle.scc_states_sum.specs.Elements.{expr_elements, total};
ghost use Rattle.scc_states_sum.specs.Live.{elements_of, live_body, statement_elements};
ghost use Rattle.scc_states_sum.specs.Measured.{IsMeasured, used_elements};
ghost use Rattle.scc_states_sum.specs.Summed.{HasSplits};

/// Of an expression for whose indices what is known tells which are static as the definitions do, the elements that are counted are those
/// of the patterns of what its term reads.
pub fn elements_are_those_of_patterns()
    ensures { (cs : Cells) (known : CoreExpr → Option Number) (e : CoreExpr) → IsMeasured cs known e → expr_elements known e ≡ used_elements cs (loads (term_of e)) }
{}

/// Of statements of such expressions, whose tests go as the definition says: all of them, and those on paths, as the live part.
pub fn elements_of_statements_are_those_of_code()
    ensures whole { (cs : Cells) (known : CoreExpr → Option Number) (ss : List CoreStmt) → AreMeasuredStmts cs known ss
        → total (map (statement_elements known) ss) ≡ code_elements cs (code_of ss) }
    ensures live { (cs : Cells) (known : CoreExpr → Option Number) (ss : List CoreStmt) → AreMeasuredStmts cs known ss
        → Agrees cs (live_body known ss) (alive cs (code_of ss)) }
{}

/// Of a core with the segments of its threads.
pub fn elements_of_a_core_are_those_of_its_program()
    ensures { (known : CoreExpr → Option Number) (c : Core) (splits : List Split) → HasSplits (cells_of c) known c.processes splits
        → elements_of known c splits ≡ index_sum (program_of c) }
{}
