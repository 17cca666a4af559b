//! Laws of lowering, each the clause of a function that does nothing.
ghost use Rattle.std.specs.Prelude.{◌≡◌, ◌+◌, ◌-◌, ◌/◌, ◌%◌, ◌^◌, ◌<◌, ◌≤◌, ◌++◌, ◌∷◌, ℕ, Bool, false, true, if◌then◌else◌, nat_lt, List, Some};
ghost use Rattle.scc_base.specs.Names.{AllDiffer};
ghost use Rattle.scc_base.specs.declared.names.Name.{Name};
ghost use Rattle.scc_base.specs.declared.path.PathPart.{PathPart};
ghost use Rattle.scc_base.specs.declared.path.PathPart.TheVariants.{Member};
ghost use Rattle.scc_bits_kinds.specs.declared.kind.Kind.{Kind};
ghost use Rattle.scc_bits_kinds.specs.declared.op.Op.{Op};
ghost use Rattle.scc_bits_kinds.specs.declared.op.Op.TheVariants as op;
ghost use Rattle.scc_bits_kinds.specs.Kinds.{Fits, IsValid, is_signed, number_of, stored, width_of};
ghost use Rattle.scc_bits.specs.declared.operands.Operands.{Operands};
ghost use Rattle.scc_bits.specs.Placed.{operands_of};
ghost use Rattle.scc_bits.specs.Values.{applied, is_too_wide};
ghost use Rattle.scc_svtree.specs.declared.expr.SvBinary.{SvBinary};
ghost use Rattle.scc_svtree.specs.declared.expr.SvUnary.{SvUnary};
ghost use Rattle.scc_svtree.specs.declared.expr.VarId.{VarId};
ghost use Rattle.scc_svtree.specs.Sizes.{part, sized, sized_left};
ghost use Rattle.scc_svtree.specs.Sound.{is_simple};
ghost use Rattle.scc_svtree.specs.Term as term;
ghost use Rattle.scc_svtree.specs.Term.{Term, Unary};
ghost use Rattle.scc_lower_spec.specs.Conversion.{converted_term};
ghost use Rattle.scc_lower_spec.specs.Gives.{Gives};
ghost use Rattle.scc_lower_spec.specs.Operating.{between, binary_of, unary_of};
ghost use Rattle.scc_lower_spec.specs.Parts.{AreParts, joined};
ghost use Rattle.scc_lower_spec.specs.Selected.{GivePieces, Piece, bit_term, halves_term, part_left, pieces_width, pieces_word};

/// Parts that are joined by `$` can be read back: no identifier holds a `$` or begins with a digit.
pub fn names_tell_their_parts()
    ensures { (names : List (List ℕ)) → AllDiffer names → (ps qs : List PathPart) → AreParts names ps → AreParts names qs → joined names ps ≡ joined names qs → ps ≡ qs }
{}

/// So `$$` begins what is put behind a name.
pub fn names_have_no_double_mark()
    ensures { (names : List (List ℕ)) → (ps : List PathPart) → AreParts names ps → (a b : List ℕ) → joined names ps ≡ a ++ 36 ∷ 36 ∷ b → ⊥ }
{}

/// Parts that begin with a member make an identifier of the emitted text.
pub fn names_are_identifiers()
    ensures { (names : List (List ℕ)) → (name : Name) → (ps : List PathPart) → AreParts names (Member name ∷ ps) → is_simple (joined names (Member name ∷ ps)) ≡ true }
{}

/// The text of a conversion gives the converted word in the width of the new kind, under each reading of a size cast.
pub fn conversions_give_converted_words()
    ensures { (wide : Bool) → (width x : ℕ → ℕ) → (from to : Kind) → (t : Term) → (y : ℕ) → Fits from y → Gives false (sized wide width x t) (width_of from) y → Gives false (sized wide width x (converted_term from to t)) (width_of to) (stored to (number_of from y)) }
{}

/// The text of an operator between two operands gives the operator's answer for their words, in the width of its kind.
pub fn operators_give_their_answers()
    ensures { (wide : Bool) → (width x : ℕ → ℕ) → (o : Op) → (j k : Kind) → (y z : ℕ) → (p : Operands) → (text : SvBinary) → (t u : Term) → (v : ℕ) → IsValid j → IsValid k → Fits j y → Fits k z → is_too_wide o j k ≡ false → operands_of o j k ≡ Some p → binary_of o (is_signed p.left) ≡ Some text → Gives false (sized wide width x t) (width_of j) y → Gives false (sized wide width x u) (width_of k) z → applied o j y k z ≡ Some v → Gives false (sized wide width x (between o j k p text t u)) (width_of p.answer) v }
{}

/// So does that of an operator before its one operand; `+` has none.
pub fn operators_of_one_operand_give_their_answers()
    ensures other { (wide : Bool) → (width x : ℕ → ℕ) → (o : Op) → (j : Kind) → (y : ℕ) → (p : Operands) → (text : SvUnary) → (t : Term) → (v : ℕ) → IsValid j → Fits j y → is_too_wide o j j ≡ false → operands_of o j j ≡ Some p → unary_of o ≡ Some text → Gives false (sized wide width x t) (width_of j) y → applied o j y j y ≡ Some v → Gives false (sized wide width x (Unary text (converted_term j p.left t))) (width_of p.answer) v }
    ensures plus { (wide : Bool) → (width x : ℕ → ℕ) → (j : Kind) → (y : ℕ) → (p : Operands) → (t : Term) → (v : ℕ) → IsValid j → Fits j y → is_too_wide op.Plus j j ≡ false → operands_of op.Plus j j ≡ Some p → Gives false (sized wide width x t) (width_of j) y → applied op.Plus j y j y ≡ Some v → Gives false (sized wide width x (converted_term j p.left t)) (width_of p.answer) v }
{}

/// Bits of a variable, the bit of an expression at an index, and concatenations give those bits; a choice by an index gives the
/// expression on its side.
pub fn bits_give_their_words()
    ensures part { (width x : ℕ → ℕ) → (v : VarId) → (w h l : ℕ) → width v.0 ≡ w → x v.0 < 2 ^ w → l ≤ h → h < w → Gives false (sized_left width x (part_left v w h l)) (h - l + 1) (part h l (x v.0)) }
    ensures bit { (wide : Bool) → (width x : ℕ → ℕ) → (t at : Term) → (w m y k : ℕ) → 1 ≤ w → Gives false (sized wide width x t) w y → Gives false (sized wide width x at) m k → Gives false (sized wide width x (bit_term t at)) 1 (y / 2 ^ k % 2) }
    ensures concat { (wide : Bool) → (width x : ℕ → ℕ) → (ts : List Term) → (ps : List Piece) → GivePieces wide width x ts ps → Gives false (sized wide width x (term.joined ts)) (pieces_width ps) (pieces_word ps) }
    ensures halves { (wide : Bool) → (width x : ℕ → ℕ) → (at t u : Term) → (m k n w y z : ℕ) → n < 2 ^ m → Gives false (sized wide width x at) m k → Gives false (sized wide width x t) w y → Gives false (sized wide width x u) w z → Gives false (sized wide width x (halves_term m at n t u)) w (if nat_lt k n then y else z) }
{}
