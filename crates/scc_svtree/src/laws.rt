//! Laws of the meaning of a module, each the clause of a function that does nothing.
ghost use Rattle.std.specs.Prelude.{◌≡◌, Bool, true, false, ℕ, List};
ghost use Rattle.scc_svtree.specs.declared.module.SvModule.{SvModule};
ghost use Rattle.scc_svtree.specs.Code.{Code};
ghost use Rattle.scc_svtree.specs.Settled.{AreCombinational, SettlesOnce, combs_of};
ghost use Rattle.scc_svtree.specs.Sound.{IsSound};
ghost use Rattle.scc_svtree.specs.Sizes.{length_of, own, signed_of, sized, value_of};
ghost use Rattle.scc_svtree.specs.Term.{Binary, Cast};
ghost use Rattle.scc_svtree.specs.Variables.{width_at};
ghost use Rattle.scc_svtree.specs.Worked.{a_plus_b, variable, width, word};
ghost use Rattle.scc_svtree.specs.declared.expr.SvBinary.TheVariants.{Add};

/// For given inputs and registers there is exactly one settled valuation, where no two combinational blocks assign one
/// variable, each begins with whole values, and none reads in a cycle what others assign.
pub fn there_is_one_settled_valuation()
    ensures { (width : ℕ → ℕ) (cs : List Code) → AreCombinational cs → (given : ℕ → ℕ) → SettlesOnce width cs given }
{}

/// So a module without faults has, for given inputs and registers, exactly one settled valuation.
pub fn a_sound_module_settles_once()
    ensures { (many : Bool) (m : SvModule) → IsSound many m → (given : ℕ → ℕ) → SettlesOnce (width_at m.vars) (combs_of m.blocks) given }
{}

/// A size cast takes its operand by itself, where the sum of ff and 01 has no ninth bit; a sum with nine bits has it. Under
/// the other reading of a size cast the cast has it, too.
pub fn casts_and_sums_as_worked_by_hand()
    ensures cast { value_of width word (Cast 9 a_plus_b) ≡ 0 }
    ensures sum { value_of width word (Binary Add (variable 2) a_plus_b) ≡ 256 }
    ensures other_reading { own (sized true width word (Cast 9 a_plus_b)) ≡ 256 }
    ensures length { length_of width (Cast 9 a_plus_b) ≡ 9 }
    ensures signed { signed_of (Cast 9 a_plus_b) ≡ false }
{}
