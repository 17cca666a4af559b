//! Laws of words.
ghost use Rattle.std.specs.Prelude.{◌<◌, ◌≤◌, ◌^◌, Bool, ℤ, bit_and, bit_or, bit_xor, ◌≡◌, ℕ};
ghost use Rattle.scc_bits_kinds.specs.Numbers.{low, reading, Holds, both, either, differing};

/// The words of w bits and the numbers that they hold, in either sign, stand for one another.
pub fn words_hold_numbers()
    ensures read { (s : Bool) → (w : ℕ) → (z : ℤ) → 1 ≤ w → Holds s w z → reading s w (low w z) ≡ z }
    ensures written { (s : Bool) → (w x : ℕ) → x < 2 ^ w → low w (reading s w x) ≡ x }
    ensures held { (s : Bool) → (w x : ℕ) → 1 ≤ w → x < 2 ^ w → Holds s w (reading s w x) }
{}

/// The bitwise operators on numbers act on the bits of two's complement, at every width.
pub fn bits_are_in_twos_complement()
    ensures and { (w : ℕ) → (a b : ℤ) → low w (both a b) ≡ bit_and (low w a) (low w b) }
    ensures or { (w : ℕ) → (a b : ℤ) → low w (either a b) ≡ bit_or (low w a) (low w b) }
    ensures xor { (w : ℕ) → (a b : ℤ) → low w (differing a b) ≡ bit_xor (low w a) (low w b) }
{}
