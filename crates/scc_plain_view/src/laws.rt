//! Laws on what trees stand for.
ghost use Rattle.std.specs.Prelude.{◌≡◌, [], ◌∷◌};
ghost use Rattle.scc_elab_spec.specs.Term.{Bit, Load, Local};
ghost use Rattle.scc_elab_spec.specs.Worked as worked;
ghost use Rattle.scc_plain_view.specs.Plains.{plain_of};
ghost use Rattle.scc_plain_view.specs.Designs.{design_of};
ghost use Rattle.scc_plain_view.specs.Terms.{term_of};
ghost use Rattle.scc_plain_view.specs.WorkedTrees.{alone, bit_three, byte, made};

/// A program of one function `int pick(int k) { return k; }` has that function as the definitions have it.
pub fn a_program_is_its_tree()
    ensures { plain_of alone ≡ record { classes = []; functions = worked.pick ∷ []; top = 0 } }
{}

/// The design of a top with one variable and one method, of which the definitions have it too.
pub fn a_design_is_its_objects()
    ensures { design_of made ≡ worked.made }
{}

/// Bit 3 of a variable is one of its word: the load has the variable's kind, where the tree has that of the bit.
pub fn a_bit_is_one_of_its_variable()
    ensures { term_of bit_three ≡ Bit worked.here (Load worked.here byte (Local worked.here 0)) (worked.number 3) }
{}
