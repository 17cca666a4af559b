//! Laws on what a table of names tells.
ghost use Rattle.std.specs.Prelude.{◌≡◌, ◌≤◌, ◌+◌, ◌++◌, ℕ, [], true, false};
ghost use Rattle.scc_core.specs.declared.expr.CoreLeft.{CoreLeft};
ghost use Rattle.scc_core.specs.declared.program.Core.{Core};
ghost use Rattle.scc_core.specs.declared.program.CoreProcess.{CoreProcess};
ghost use Rattle.scc_core.specs.declared.statics.Known.{Known};
ghost use Rattle.scc_core.specs.Located.{row_from};
ghost use Rattle.scc_core_spec.specs.IsResolved.{IsResolved, cells_apart};
ghost use Rattle.scc_core_spec.specs.Named.{cells_at, is_open};
ghost use Rattle.scc_core_spec.specs.Static.{Cells};
ghost use Rattle.scc_core_spec.specs.Uses.{among, cells_of};
ghost use Rattle.scc_core_static_laws.specs.Held.{Knows};
ghost use Rattle.scc_core_view.specs.Codes.{code_of};
ghost use Rattle.scc_core_view.specs.Programs.{cells_of as all_cells, program_of};
ghost use Rattle.scc_core_view.specs.Terms.{taken_of};
ghost use Rattle.scc_core_view.specs.Whole.{AreWholeCells};
ghost use Rattle.scc_states.specs.Splits.{IsNamed};
ghost use Rattle.scc_states.specs.Wholes.{FillsOne};
ghost use Rattle.scc_states_kept.specs.Owned.{is_number};
ghost use Rattle.scc_states_kept.specs.Rows.{cells_by, cells_in};
ghost use Rattle.scc_states_named_laws.specs.Arrays.{AreIndices, AreUnder, Parts, Sizes, StandsInRows, Steps, rows_of, size_of};
ghost use Rattle.scc_states_named_laws.specs.InArrays.{IsInArray};
ghost use Rattle.scc_states_named_laws.specs.Plain.{AreNarrow, is_plain, is_plain_code, is_plain_pick};

use scc_core_static_laws::static_values_by_a_table_are_those_by_names;

/// In a resolved core a table of the names tells of a location without indices which local or variable it names, as the definition does.
pub fn locations_without_indices_are_told()
    ensures { (c : Core) (known : Known) (i x : ℕ) (l : CoreLeft) → IsResolved (program_of c) → AreWholeCells c.cells → Knows known c.cells [] → is_plain (taken_of l).left ≡ true → is_number (all_cells c) i x ≡ true →
        among x (cells_in known l) ≡ among x (cells_of (all_cells c) (taken_of l).left) }
{
    static_values_by_a_table_are_those_by_names();
}

/// It tells of an assignment to such a location whether it is to one whole cell, as the definition does, if no bit is assigned of a number that has just one.
pub fn assignments_without_indices_are_told()
    ensures { (c : Core) (known : Known) (l : CoreLeft) → IsResolved (program_of c) → AreWholeCells c.cells → AreNarrow c.cells → Knows known c.cells [] → is_plain (taken_of l).left ≡ true →
        is_plain_pick (all_cells c) (taken_of l).left (taken_of l).pick ≡ true → FillsOne known (all_cells c) l (taken_of l) }
{
    static_values_by_a_table_are_those_by_names();
}

/// So it tells of each statement of a thread of which no location has an index, and which assigns no bit of one that has just one.
pub fn a_thread_without_indices_is_named()
    ensures { (c : Core) (i : ℕ) (p : CoreProcess) → IsResolved (program_of c) → AreWholeCells c.cells → AreNarrow c.cells → is_plain_code (all_cells c) (code_of p.body) ≡ true → IsNamed c i p }
{
    static_values_by_a_table_are_those_by_names();
}

/// Where the cells of an array stand one after the other, and names differ, what is named under indices of which some aren't static are its rows.
pub fn cells_of_an_array_are_its_rows()
    ensures { (cs : Cells) (x : ℕ) (ps q : Steps) (ss : Sizes) (first : ℕ) → cells_apart cs ≡ true → is_open q ≡ false → StandsInRows cs q ss first → AreUnder ps ss → among x (rows_of ps ss first) ≡ among x (cells_at 0 (q ++ ps) cs) }
{}

/// These rows are what the code finds of such indices, if numbers of cells stay below 2^32.
pub fn rows_are_found_by_indices()
    ensures { (qs : Parts) (ps : Steps) (ss : Sizes) (first : ℕ) → AreIndices qs ps ss → first + size_of ss ≤ 4294967295 → cells_by (row_from qs first (size_of ss) 0 []) ≡ rows_of ps ss first }
{}

/// So a table tells of a location in such an array which locals or variables it names, as the definition does.
pub fn locations_in_arrays_are_told()
    ensures { (c : Core) (known : Known) (i x first : ℕ) (l : CoreLeft) → IsResolved (program_of c) → Knows known c.cells [] → IsInArray known c l first → is_number (all_cells c) i x ≡ true →
        among x (cells_in known l) ≡ among x (cells_of (all_cells c) (taken_of l).left) }
{}
