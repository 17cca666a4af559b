//! Laws on what is known of tests.
ghost use Rattle.std.specs.Prelude.{List, [], map};
ghost use Rattle.scc_core.specs.declared.program.Cell.{Cell};
ghost use Rattle.scc_core.specs.declared.statics.Known.{Known};
ghost use Rattle.scc_core.specs.declared.stmt.CoreStmt.{CoreStmt};
ghost use Rattle.scc_core_view.specs.Programs.{cell_of};
ghost use Rattle.scc_core_view.specs.Whole.{AreWholeCells, IsWhole};
ghost use Rattle.scc_core_static_laws.specs.Held.{Knows};
ghost use Rattle.scc_core_flow.specs.Live.{DecidesAll, Each, tests_in};

use scc_core_static_laws::static_values_by_a_table_are_those_of_terms;

/// Of whole tests what is known by a table of names tells which way they go as the definition does.
pub fn whole_tests_are_decided()
    ensures { (known : Known) (cells : List Cell) (ss : List CoreStmt) → Knows known cells [] → AreWholeCells cells → Each (IsWhole cells) (tests_in ss) → DecidesAll known (map cell_of cells) ss }
{
    static_values_by_a_table_are_those_of_terms();
}
