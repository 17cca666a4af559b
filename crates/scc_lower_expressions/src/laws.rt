//! Laws of lowered expressions, each the clause of a function that does nothing.
ghost use Rattle.std.specs.Prelude.{◌≡◌, ◌+◌, ◌-◌, ◌<◌, ◌≤◌, ℕ, Bool, cond, false, nat_eq, Some};
ghost use Rattle.scc_bits_kinds.specs.declared.kind.Kind.{Kind};
ghost use Rattle.scc_bits_kinds.specs.declared.op.Op.{Op};
ghost use Rattle.scc_bits_kinds.specs.Bits.{part};
ghost use Rattle.scc_bits_kinds.specs.Kinds.{Fits, IsValid, number_of, stored, width_of};
ghost use Rattle.scc_bits.specs.Values.{applied, is_too_wide, kind_of};
ghost use Rattle.scc_lower_expressions.specs.declared.convert.Lowered.{Lowered};
ghost use Rattle.scc_lower_expressions.specs.declared.operator.Operand.{Operand};
ghost use Rattle.scc_lower_expressions.specs.Lowered.{Converts, HasWord};
ghost use Rattle.scc_lower_expressions.specs.Operated.{Chosen, Operated, OperatedAlone};
ghost use Rattle.scc_lower_expressions.specs.Reads.{Shown, read_term, var_read};
ghost use Rattle.scc_lower_expressions.specs.declared.lowering.View.{View};
ghost use Rattle.scc_lower_spec.specs.Gives.{Gives};
ghost use Rattle.scc_svtree.specs.Sizes.{sized};

/// What is converted has the converted word, whatever words variables have and under each reading of a size cast.
pub fn conversions_keep_numbers()
    ensures { (wide : Bool) → (width x : ℕ → ℕ) → (from to : Kind) → (a out : Lowered) → (y : ℕ) → Fits from y → HasWord wide width x from a y → Converts from to a out → HasWord wide width x to out (stored to (number_of from y)) }
{}

/// What becomes of an operator has the word that the operator answers for those of its operands.
pub fn operators_answer_on_lowered_operands()
    ensures two { (wide : Bool) → (width x : ℕ → ℕ) → (o : Op) → (l r : Operand) → (kind : Kind) → (y z v : ℕ) → (out : Lowered) → IsValid l.kind → IsValid r.kind → Fits l.kind y → Fits r.kind z → is_too_wide o l.kind r.kind ≡ false → kind_of o l.kind r.kind ≡ Some kind → HasWord wide width x l.kind l.of y → HasWord wide width x r.kind r.of z → applied o l.kind y r.kind z ≡ Some v → Operated o l r out → HasWord wide width x kind out v }
    ensures one { (wide : Bool) → (width x : ℕ → ℕ) → (o : Op) → (l : Operand) → (kind : Kind) → (y v : ℕ) → (out : Lowered) → IsValid l.kind → Fits l.kind y → is_too_wide o l.kind l.kind ≡ false → kind_of o l.kind l.kind ≡ Some kind → HasWord wide width x l.kind l.of y → applied o l.kind y l.kind y ≡ Some v → OperatedAlone o l out → HasWord wide width x kind out v }
{}

/// What becomes of a choice has the word of the one branch or the other, converted to the kind of the choice.
pub fn choices_answer_on_lowered_operands()
    ensures { (wide : Bool) → (width x : ℕ → ℕ) → (t a b : Operand) → (kind : Kind) → (c y z : ℕ) → (out : Lowered) → Fits t.kind c → Fits a.kind y → Fits b.kind z → HasWord wide width x t.kind t.of c → HasWord wide width x a.kind a.of y → HasWord wide width x b.kind b.of z → Chosen t a b kind out → HasWord wide width x kind out (cond (nat_eq c 0) (stored kind (number_of b.kind z)) (stored kind (number_of a.kind y))) }
{}

/// A read of a cell gives its bits, where variables show its word in its view.
pub fn reads_give_the_words_of_cells()
    ensures { (wide : Bool) → (width x : ℕ → ℕ) → (v : View) → (k : Kind) → (c h l word : ℕ) → Shown v c x word → width (var_read v c) ≡ width_of k → IsValid k → Fits k word → l ≤ h → h < width_of k → Gives false (sized wide width x (read_term v k c h l)) (h - l + 1) (part h l word) }
{}
