//! A law on the cells that stay.
ghost use Rattle.std.specs.Prelude.{◌≡◌, ℕ, List, Some, map};
ghost use Rattle.scc_core.specs.declared.program.Cell.{Cell};
ghost use Rattle.scc_core_spec.specs.Renumbered.{new_number};
ghost use Rattle.scc_core_view.specs.Programs.{cell_of};
ghost use Rattle.scc_pointers.specs.Resolved.{new_numbers, number_in};

/// The new number of a cell that stays is that of the definition: so many cells before it are no pointers.
pub fn new_numbers_count_the_cells_that_stay()
    ensures { (cells : List Cell) (i k : ℕ) → number_in (new_numbers 0 cells) i ≡ Some k → new_number (map cell_of cells) i ≡ k }
{}
