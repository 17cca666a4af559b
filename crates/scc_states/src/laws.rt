//! Laws on what is known of threads.
ghost use Rattle.std.specs.Prelude.{◌≡◌, ℕ, []};
ghost use Rattle.scc_core.specs.declared.program.Core.{Core};
ghost use Rattle.scc_core.specs.declared.program.CoreProcess.{CoreProcess};
ghost use Rattle.scc_core.specs.declared.statics.Known.{Known};
ghost use Rattle.scc_core_static_laws.specs.Held.{Knows};
ghost use Rattle.scc_states.specs.Splits.{IsTold};
ghost use Rattle.scc_states.specs.Wholes.{IsWholeThread};

use scc_core_flow::whole_tests_are_decided;
use scc_core_static_laws::static_values_by_a_table_are_those_of_terms;

/// Of a thread with whole tests and values a table of the core's names tells which way its tests go, and which of its assignments give one
/// whole cell a static value, as the definitions do.
pub fn a_table_tells_of_whole_threads()
    ensures { (known : Known) (c : Core) (i : ℕ) (p : CoreProcess) → Knows known c.cells [] → IsWholeThread c i p → IsTold known c i p }
{
    whole_tests_are_decided();
    static_values_by_a_table_are_those_of_terms();
}
