//! Laws on what trees stand for.
ghost use Rattle.std.specs.Prelude.{◌≡◌, Some, List, [], ◌∷◌, ◌+◌, max, ◌||◌, true, false, map, option_map, unwrap_or};
ghost use Rattle.scc_core.specs.declared.expr.CoreExpr.{CoreExpr};
ghost use Rattle.scc_core.specs.declared.program.Cell.{Cell};
ghost use Rattle.scc_core.specs.Statics.{static_of};
ghost use Rattle.scc_core_view.specs.Programs.{cell_of};
ghost use Rattle.scc_core_view.specs.Terms.{term_of};
ghost use Rattle.scc_core_view.specs.Whole.{AreWholeCells, IsWhole};
ghost use Rattle.scc_core_view.specs.WorkedStatic.{bit_of, byte, element_of, fixed_cells, long, sum_of};
ghost use Rattle.scc_bits_kinds.specs.declared.kind.Kind.TheVariants as kind;
ghost use Rattle.scc_core.specs.declared.stmt.CoreStmt.{CoreStmt};
ghost use Rattle.scc_core.specs.declared.program.Core.{Core};
ghost use Rattle.scc_core.specs.declared.places.NameStep.{NameStep};
ghost use Rattle.scc_core.specs.declared.places.Places.{Places};
ghost use Rattle.scc_core.specs.declared.program.VectorSize2.{VectorSize2};
ghost use Rattle.scc_core.specs.Tables.{IsTable, cell_in, pointer_in, size_in, under};
ghost use Rattle.scc_core_spec.specs.Fold.{size_at};
ghost use Rattle.scc_core_spec.specs.Named.{cell_at};
ghost use Rattle.scc_core_view.specs.Programs.{vector_of};
ghost use Rattle.scc_core_view.specs.Steps.{step_in};
ghost use Rattle.scc_core_spec.specs.Code.{Code, size, holds_wait};
ghost use Rattle.scc_core_spec.specs.Sizes.{loops_deep};
ghost use Rattle.scc_core_view.specs.Codes.{code_of, stmt_code};
ghost use Rattle.scc_core_view.specs.Programs.{program_of};
ghost use Rattle.scc_core_view.specs.WorkedBit.{bit_three, cells};
ghost use Rattle.scc_core_spec.specs.Static.{static};

/// A statement before others has their sizes together.
pub fn a_statement_adds_its_size()
    ensures statements { (s : CoreStmt) (c : Code) → size (stmt_code s c) ≡ size (code_of (s ∷ [])) + size c }
    ensures loops { (s : CoreStmt) (c : Code) → loops_deep (stmt_code s c) ≡ max (loops_deep (code_of (s ∷ []))) (loops_deep c) }
    ensures waits { (s : CoreStmt) (c : Code) → holds_wait (stmt_code s c) ≡ (holds_wait (code_of (s ∷ [])) || holds_wait c) }
{}

/// A program has the cells of its core.
pub fn a_program_is_its_core()
    ensures { (c : Core) → (program_of c).top ≡ c.top.0 }
{}

/// Bit 3 of a variable that holds 8 is 1.
pub fn a_bit_is_one_of_its_variable()
    ensures { static cells bit_three ≡ Some 1 }
{}

/// The static value of a whole expression is that of the term for which it stands.
pub fn static_values_are_those_of_terms()
    ensures { (cells : List Cell) (e : CoreExpr) → AreWholeCells cells → IsWhole cells e → option_map (λ v. v.word) (static_of cells e) ≡ static (map cell_of cells) (term_of e) }
{}

/// Of `sc_uint<8> x` that holds 8 and of an array that holds 5 and 7: bits, elements, one past the end, and a sum.
pub fn static_values_are_worked()
    ensures bit { static_of fixed_cells (bit_of 3) ≡ Some (record { kind = kind.Bool; word = 1 }) }
    ensures past_bit { static_of fixed_cells (bit_of 9) ≡ Some (record { kind = kind.Bool; word = 0 }) }
    ensures element { static_of fixed_cells (element_of 1) ≡ Some (record { kind = byte; word = 7 }) }
    ensures past_element { static_of fixed_cells (element_of 2) ≡ Some (record { kind = byte; word = 0 }) }
    ensures sum { static_of fixed_cells (sum_of 1) ≡ Some (record { kind = long; word = 9 }) }
{}

/// These expressions are whole.
pub fn worked_expressions_are_whole()
    ensures cells { AreWholeCells fixed_cells }
    ensures bit { IsWhole fixed_cells (bit_of 3) }
    ensures sum { IsWhole fixed_cells (sum_of 1) }
    ensures past { IsWhole fixed_cells (sum_of 2) }
{}

/// Under a whole name a table of names has the cell that the definitions find by its steps, the pointer, and the size of the vector.
pub fn a_table_has_what_is_found_by_names()
    ensures cells { (p : Places) (cells : List Cell) (vectors : List VectorSize2) → IsTable p cells vectors → (ss : List NameStep) → under cell_in p ss ≡ cell_at false 0 (map step_in ss) (map cell_of cells) }
    ensures pointers { (p : Places) (cells : List Cell) (vectors : List VectorSize2) → IsTable p cells vectors → (ss : List NameStep) → under pointer_in p ss ≡ cell_at true 0 (map step_in ss) (map cell_of cells) }
    ensures sizes { (p : Places) (cells : List Cell) (vectors : List VectorSize2) → IsTable p cells vectors → (ss : List NameStep) → unwrap_or (under size_in p ss) 0 ≡ size_at (map vector_of vectors) (map step_in ss) }
{}
