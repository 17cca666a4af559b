//! Laws of resolved cores.
ghost use Rattle.std.specs.Prelude.{◌≡◌, ℕ, [], ◌∷◌, Some, slice_get, false};
ghost use Rattle.scc_core_spec.specs.IsResolved.{IsResolved};
ghost use Rattle.scc_core_spec.specs.Named.{cell_at, cells_at, steps_of};
ghost use Rattle.scc_core_spec.specs.Program.{Cell, Program};
ghost use Rattle.scc_core_spec.specs.Static.{found};

/// A cell of a resolved core is what its name finds: the first of that name, and the only one.
pub fn a_cell_of_a_resolved_core_has_its_name_for_itself()
    ensures first { (p : Program) (n : ℕ) (c : Cell) → IsResolved p → slice_get p.cells n ≡ Some c → cell_at false 0 (steps_of c.name) p.cells ≡ Some n }
    ensures only { (p : Program) (n : ℕ) (c : Cell) → IsResolved p → slice_get p.cells n ≡ Some c → cells_at 0 (steps_of c.name) p.cells ≡ n ∷ [] }
    ensures found { (p : Program) (n : ℕ) (c : Cell) → IsResolved p → slice_get p.cells n ≡ Some c → found p.cells (steps_of c.name) ≡ Some c }
{}
