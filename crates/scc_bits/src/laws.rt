//! Laws of the operator table.
ghost use Rattle.std.specs.Prelude.{◌<◌, ◌≤◌, Bool, ◌≡◌, ℕ, false, Some};
ghost use Rattle.scc_bits_kinds.specs.declared.op.Op.{Op};
ghost use Rattle.scc_bits_kinds.specs.declared.kind.Kind.{Kind};
ghost use Rattle.scc_bits.specs.declared.operands.Operands.{Operands};
ghost use Rattle.scc_bits_kinds.specs.Numbers.{low};
ghost use Rattle.scc_bits_kinds.specs.Operators.{exact, Signs, Divisor};
ghost use Rattle.scc_bits_kinds.specs.Kinds.{IsValid, Fits, width_of, is_signed, number_of, stored, converted};
ghost use Rattle.scc_bits.specs.Values.{kind_of, is_too_wide, applied};
ghost use Rattle.scc_bits.specs.Placed.{operands_of};

/// An operator on operands that are converted to its operand kinds gives its answer, though it may take them by their
/// exact values: these kinds have room enough, or the low bits are enough. They are valid, have the signs that the
/// operator needs, and keep a divisor other than 0.
pub fn operands_keep_answer()
    ensures answer { (o : Op) → (j : Kind) → (x : ℕ) → (k : Kind) → (y : ℕ) → (p : Operands) → IsValid j → IsValid k → Fits j x → Fits k y → is_too_wide o j k ≡ false → operands_of o j k ≡ Some p → applied o j x k y ≡ Some (low (width_of p.answer) (exact o (width_of p.left) (converted p.left (number_of j x)) (converted p.right (number_of k y)))) }
    ensures kind { (o : Op) → (j k : Kind) → (p : Operands) → operands_of o j k ≡ Some p → kind_of o j k ≡ Some p.answer }
    ensures kinds { (o : Op) → (j k : Kind) → (p : Operands) → IsValid j → IsValid k → operands_of o j k ≡ Some p → IsValid p.left × IsValid p.right × IsValid p.answer }
    ensures signs { (o : Op) → (j k : Kind) → (p : Operands) → operands_of o j k ≡ Some p → Signs o (is_signed p.left) (is_signed p.right) }
    ensures divisor { (o : Op) → (j k : Kind) → (y : ℕ) → (p : Operands) → IsValid j → IsValid k → Fits k y → operands_of o j k ≡ Some p → Divisor o y → Divisor o (stored p.right (number_of k y)) }
{}
