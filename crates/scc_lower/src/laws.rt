//! Laws of lowering, each the clause of a function that does nothing.
ghost use Rattle.std.specs.Prelude.{◌≡◌, ◌<◌, ◌≤◌, ◌^◌, ℕ, Bool, List, length};
ghost use Rattle.scc_base.specs.Names.{AllDiffer};
ghost use Rattle.scc_core.specs.declared.expr.CoreExpr.{CoreExpr};
ghost use Rattle.scc_core.specs.declared.program.CellName.{CellName};
ghost use Rattle.scc_core.specs.declared.stmt.CoreStmt.{CoreStmt};
ghost use Rattle.scc_core_view.specs.Codes.{code_of};
ghost use Rattle.scc_core_view.specs.Terms as core;
ghost use Rattle.scc_svtree.specs.declared.expr.SvExpr.{SvExpr};
ghost use Rattle.scc_svtree.specs.Code.{Code};
ghost use Rattle.scc_svtree.specs.Term.{term_of};
ghost use Rattle.scc_blocks_spec.specs.Lowered.{IsLoweredCode, IsLoweredTerm};
ghost use Rattle.scc_blocks_spec.specs.Shown.{Sight, top_number};
ghost use Rattle.scc_lower_laws.specs.Lowers.{temporary};
ghost use Rattle.scc_lower_laws.specs.Statements.{leaving};
ghost use Rattle.scc_lower_tree_laws.specs.Sound.{IsSound};
ghost use Rattle.scc_lower_tree_laws.specs.States.{Agrees, Given, Sees, State};
ghost use Rattle.scc_lower_tree_laws.specs.Stating.{AreFine, Stating, greatest};
ghost use Rattle.scc_lower_expressions.specs.declared.lowering.Cells.{Cells};
ghost use Rattle.scc_lower_expressions.specs.declared.lowering.Lowering.{Lowering};
ghost use Rattle.scc_lower_expressions.specs.Becoming.{given_of, seen_of, state_of};
ghost use Rattle.scc_lower.specs.Names.{IsName, Together, name_of};
ghost use Rattle.scc_lower.specs.Texts.{IsTextOf};

/// Two cells of a core that have one text have one name.
pub fn cells_have_texts_of_their_own()
    ensures { (names : List (List ℕ)) → AllDiffer names → (m n : CellName) → IsName names m → IsName names n → Together m n → name_of names m ≡ name_of names n → m ≡ n }
{}

/// The text of an expression gives its value, where a process sees the cells so and what stands in the expression is sound.
pub fn lowered_expressions_have_their_values()
    ensures { (c : Cells) → (e : CoreExpr) → (old : Lowering) → (t : SvExpr) → (new : Lowering) → (h : IsTextOf c e old t new) → (s : Sight) → (width : ℕ → ℕ) → Sees c.cells.now (state_of old).views s width → Agrees s width new.temporaries → IsSound (given_of c) s e → temporary s (length new.temporaries) ≤ top_number → IsLoweredTerm s width (core.term_of e) h.becomes.leaves.front (term_of t) }
{}

/// Code that is stated so for statements that leave no block around them does what they do.
pub fn lowered_statements_do_what_they_do()
    ensures { (g : Given) → (ss : List CoreStmt) → (a b : State) → (code : Code) → (out : ℕ → Bool) → Stating g 0 ss a code out b → (s : Sight) → (width : ℕ → ℕ) → Sees g.cells a.views s width → Agrees s width b.temporaries → width (leaving s) ≡ a.exit → greatest 0 (code_of ss) < 2 ^ a.exit → AreFine g s ss → temporary s (length b.temporaries) ≤ top_number → IsLoweredCode s width (code_of ss) code }
{}
