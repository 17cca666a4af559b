//! Laws of names, each the clause of a function that does nothing.
ghost use Rattle.std.specs.Prelude.{◌≡◌, ◌++◌, ◌∷◌, ◌<◌, ◌^◌, ℕ, List, Some, codes, decimal, false, map, slice_get};
ghost use Rattle.scc_base.specs.Names.{AllDiffer};
ghost use Rattle.scc_core_spec.specs.Constants.{name_text};
ghost use Rattle.scc_core_spec.specs.Program.{Cell, Process, Program, is_pointer};
ghost use Rattle.scc_core_spec.specs.Source.{Home, cell_location};
ghost use Rattle.scc_core_spec.specs.Term.{CellName};
ghost use Rattle.scc_lower_spec.specs.Parts.{joined, text_at};
ghost use Rattle.scc_blocks_names.specs.Placed.{AreApart, AreNamed, IsLocalOf, IsName, IsPlaced, Objects, piece_of, places_of};
ghost use Rattle.scc_blocks_names.specs.Worked.{small, small_objects, two_names};

/// The text of a name is that of its steps, joined by `$`.
pub fn names_are_joined_steps()
    ensures { (names : List (List ℕ)) → (d : Objects) → (n : CellName) → IsPlaced d n → name_text (text_at names) n ≡ joined names (map piece_of (places_of n)) }
{}

/// No name holds `$$`.
pub fn names_hold_no_double_mark()
    ensures { (names : List (List ℕ)) → (d : Objects) → (n : CellName) → IsName names d n → (a b : List ℕ) → name_text (text_at names) n ≡ a ++ 36 ∷ 36 ∷ b → ⊥ }
{}

/// So ends that begin with `$$` are told from names: names with such ends are the same only where both the names and the ends are.
pub fn ends_are_told_from_names()
    ensures { (names : List (List ℕ)) → AllDiffer names → (d : Objects) → AreApart d → (m n : CellName) → IsName names d m → IsName names d n → (s t : List ℕ) → name_text (text_at names) m ++ 36 ∷ 36 ∷ s ≡ name_text (text_at names) n ++ 36 ∷ 36 ∷ t → (m ≡ n) × (s ≡ t) }
{}

/// Two cells of a core that have one text are one, and their locations too; two processes likewise.
pub fn cells_have_names_of_their_own()
    ensures cells { (names : List (List ℕ)) → (d : Objects) → (p : Program) → AreNamed names d p → (b c : ℕ) → (x y : Cell) → slice_get p.cells b ≡ Some x → slice_get p.cells c ≡ Some y → is_pointer x.sort ≡ false → is_pointer y.sort ≡ false → name_text (text_at names) x.name ≡ name_text (text_at names) y.name → b ≡ c }
    ensures locations { (names : List (List ℕ)) → (d : Objects) → (p : Program) → AreNamed names d p → (home : Home) → (b c : ℕ) → (x y : Cell) → slice_get p.cells b ≡ Some x → slice_get p.cells c ≡ Some y → is_pointer x.sort ≡ false → is_pointer y.sort ≡ false → name_text (text_at names) x.name ≡ name_text (text_at names) y.name → cell_location home p x ≡ cell_location home p y }
    ensures processes { (names : List (List ℕ)) → (d : Objects) → (p : Program) → AreNamed names d p → (i j : ℕ) → (q r : Process) → slice_get p.processes i ≡ Some q → slice_get p.processes j ≡ Some r → name_text (text_at names) q.name ≡ name_text (text_at names) r.name → i ≡ j }
{}

/// A temporary has the name of no cell but the local of its number in its process, and of no other temporary; nor does it hold `$$`.
pub fn temporaries_have_names_of_their_own()
    ensures cells { (names : List (List ℕ)) → (d : Objects) → (p : Program) → AreNamed names d p → (i c k : ℕ) → (q : Process) → (x : Cell) → slice_get p.processes i ≡ Some q → slice_get p.cells c ≡ Some x → is_pointer x.sort ≡ false → k < 2 ^ 32 → name_text (text_at names) x.name ≡ name_text (text_at names) q.name ++ (codes "$" ++ (decimal k ++ codes "$index")) → IsLocalOf q.name x.name k }
    ensures others { (names : List (List ℕ)) → (d : Objects) → (p : Program) → AreNamed names d p → (i j k l : ℕ) → (q r : Process) → slice_get p.processes i ≡ Some q → slice_get p.processes j ≡ Some r → k < 2 ^ 32 → l < 2 ^ 32 → name_text (text_at names) q.name ++ (codes "$" ++ (decimal k ++ codes "$index")) ≡ name_text (text_at names) r.name ++ (codes "$" ++ (decimal l ++ codes "$index")) → (i ≡ j) × (k ≡ l) }
    ensures marks { (names : List (List ℕ)) → (d : Objects) → (p : Program) → AreNamed names d p → (i k : ℕ) → (q : Process) → slice_get p.processes i ≡ Some q → k < 2 ^ 32 → (a b : List ℕ) → name_text (text_at names) q.name ++ (codes "$" ++ (decimal k ++ codes "$index")) ≡ a ++ 36 ∷ 36 ∷ b → ⊥ }
{}

/// A core with a variable, a process and a local is named so.
pub fn a_small_core_is_named()
    ensures { AreNamed two_names small_objects small }
{}
