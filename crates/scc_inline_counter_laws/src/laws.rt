//! Laws of objects that counters choose.
ghost use Rattle.std.specs.Prelude.{◌≡◌, ℕ, true, false, List};
ghost use Rattle.scc_core_spec.specs.Term.{Left};
ghost use Rattle.scc_core_spec.specs.Static.{Cells};
ghost use Rattle.scc_core_spec.specs.Counted.{Counter};
ghost use Rattle.scc_inline_spec.specs.Static.{is_static};
ghost use Rattle.scc_inline_process_laws.specs.Chosen.{reworded};
ghost use Rattle.scc_inline_counter_laws.specs.Even.{is_even};
ghost use Rattle.scc_inline_counter_laws.specs.Uneven.{table, chosen, holding};

/// Where the elements that counters choose are alike, a location that is static with counters as literals is static whatever words they hold.
pub fn static_objects_stay_static()
    ensures { (cs : Cells) (ns : List Counter) (f : ℕ → ℕ) (l : Left) → is_even cs ns l ≡ true → is_static cs ns l ≡ true → is_static cs (reworded f ns) l ≡ true }
{}

/// With elements that aren't alike it may not be: such a table is told.
pub fn elements_that_are_not_alike_are_told()
    ensures alike { is_even (table true) (holding 0) chosen ≡ true }
    ensures told { is_even (table false) (holding 0) chosen ≡ false }
    ensures first { is_static (table false) (holding 0) chosen ≡ true }
    ensures second { is_static (table false) (holding 1) chosen ≡ false }
{}
