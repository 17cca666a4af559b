//! Indices that lie past the end of an array whatever is done.
ghost use Rattle.std.specs.Prelude.{◌≡◌, IfOk, [], map, true};
ghost use Rattle.scc_core.specs.Numbers.{small};
ghost use Rattle.scc_core_spec.specs.Fold.{static_index};
ghost use Rattle.scc_core_view.specs.Programs.{cell_of};
ghost use Rattle.scc_core_view.specs.Terms.{term_of};
ghost use Rattle.scc_core_view.specs.Whole.{AreWholeCells, IsWhole};
ghost use Rattle.scc_core_whole.specs.Parts.{HaveNames, is_past, reaches};

use crate::whole::is_whole;
use scc_base::{List, NoMemory};
use scc_bits::Value;
use scc_core::{Cell, CoreExpr, Known, LEVELS};
use scc_core_view::static_values_are_those_of_terms;

fn small(v: Value) -> Option<u32>
    ensures { result ≡ small v }
{
    v.small()
}

fn reaches(v: Value, bound: u32) -> bool
    ensures { result ≡ reaches bound (small v) }
{
    match small(v) {
        Some(i) => bound <= i,
        None => true,
    }
}

fn lies_past(cells: &List<Cell>, e: &CoreExpr, bound: u32) -> bool
    ensures { result ≡ true → AreWholeCells cells.now → IsWhole cells.now e.now → is_past bound (static_index (map cell_of cells.now) [] (term_of e.now)) ≡ true }
{
    static_values_are_those_of_terms();
    match Known::alone(cells).value(e) {
        Some(v) => reaches(v, bound),
        None => false,
    }
}

/// Whether an index has a static value, and that is no less than a bound. A no may be said of one that has a part which isn't looked at.
pub fn is_past(cells: &List<Cell>, e: &CoreExpr, bound: u32) -> Result<bool, NoMemory>
    ensures { HaveNames cells.now → AreWholeCells cells.now → IfOk result (λ b. b ≡ true → is_past bound (static_index (map cell_of cells.now) [] (term_of e.now)) ≡ true) }
{
    if is_whole(cells, e, LEVELS)? {
        Ok(lies_past(cells, e, bound))
    } else {
        Ok(false)
    }
}
