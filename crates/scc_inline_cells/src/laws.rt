//! Laws on what the code keeps.
ghost use Rattle.std.specs.Prelude.{◌≡◌, ℕ, List, length, map, None, Some, Option, slice_get};
ghost use Rattle.scc_base.specs.declared.path.PathPart.{PathPart};
ghost use Rattle.scc_elab_design.specs.declared.Object.{Object as Standing};
ghost use Rattle.scc_elab_spec.specs.Cells.{cell_number, parent_among};
ghost use Rattle.scc_elab_spec.specs.Design.{Design};
ghost use Rattle.scc_plain_view.specs.Designs.{object_of, part_of};
ghost use Rattle.scc_inline_cells.specs.Homes.{IsHome, deepest};
ghost use Rattle.scc_inline_cells.specs.Listed.{counted};

/// The object of a class that stands innermost round a path is the one that the definition gives.
#[tactic(auto, using(crate::proofs::Parents::parent_is))]
pub fn the_innermost_object_is_the_parent()
    ensures { (q : List PathPart) (os : List Standing) → IsHome (parent_among (map part_of q) None (map object_of os)) (deepest os q (length q)) }
{}

/// The number of an object's cell is the count of the objects before it that are no modules.
#[tactic(auto, using(crate::proofs::Numbers::number_is))]
pub fn cells_are_numbered()
    ensures { (d : Design) (of : List (Option ℕ)) (n c : ℕ) → of ≡ counted 0 d.objects → slice_get of n ≡ Some (Some c) → c ≡ cell_number d n }
{}
