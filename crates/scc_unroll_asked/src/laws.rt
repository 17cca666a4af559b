//! Laws on the values that are asked.
ghost use Rattle.std.specs.Prelude.{List, []};
ghost use Rattle.scc_core.specs.declared.expr.CoreExpr.{CoreExpr};
ghost use Rattle.scc_core.specs.declared.program.Cell.{Cell};
ghost use Rattle.scc_core.specs.declared.program.Core.{Core};
ghost use Rattle.scc_core.specs.declared.statics.Known.{Known};
ghost use Rattle.scc_core_static_laws.specs.Held.{Knows};
ghost use Rattle.scc_core_view.specs.Whole.{AreWholeCells};
ghost use Rattle.scc_unroll_asked.specs.Asked.{AreRead};
ghost use Rattle.scc_unroll_asked.specs.Cores.{IsAsked};
ghost use Rattle.scc_unroll_asked.specs.Wholes.{AreWholeCounted, IsWholeCore};

use scc_core_static_laws::static_values_by_a_table_are_those_of_terms;

/// What the code finds for expressions that are whole, whatever numbers stand for counters, are the static values.
pub fn values_of_whole_expressions_are_static()
    ensures { (known : Known) (cells : List Cell) (es : List CoreExpr) → Knows known cells [] → AreWholeCells cells → AreWholeCounted cells es → AreRead known es }
{
    static_values_by_a_table_are_those_of_terms();
}

/// A whole core meets what is asked of it.
pub fn whole_cores_are_asked()
    ensures { (c : Core) → IsWholeCore c → IsAsked c }
{
    static_values_by_a_table_are_those_of_terms();
}
