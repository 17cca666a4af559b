//! Laws of lowering, each the clause of a function that does nothing.
ghost use Rattle.std.specs.Prelude.{◌≡◌, ◌+◌, ◌-◌, ◌*◌, ◌<◌, ◌≤◌, ◌^◌, ℕ, suc, min, Bool, Some, false, true, nat_eq, if◌then◌else◌, List, [], ◌∷◌, length};
ghost use Rattle.scc_base.specs.declared.refusal.Place.{Place};
ghost use Rattle.scc_bits_kinds.specs.declared.kind.Kind.{Kind};
ghost use Rattle.scc_bits_kinds.specs.declared.op.Op.{Op};
ghost use Rattle.scc_bits_kinds.specs.Kinds.{IsValid, width_of};
ghost use Rattle.scc_bits.specs.Values as values;
ghost use Rattle.scc_bits.specs.Values.{is_too_wide};
ghost use Rattle.scc_svtree.specs.Code.{Code, Assign, End, If};
ghost use Rattle.scc_svtree.specs.Term as emitted;
ghost use Rattle.scc_core_spec.specs.Code as core_code;
ghost use Rattle.scc_core_spec.specs.Term as core;
ghost use Rattle.scc_core_spec.specs.Term.{Left, Pick, Term, kind_of};
ghost use Rattle.scc_blocks_spec.specs.Shown.{Sight, top_number};
ghost use Rattle.scc_blocks_spec.specs.Lowered.{IsLoweredCode, IsLoweredTerm};
ghost use Rattle.scc_lower_laws.specs.Sequence.{then_code, whole};
ghost use Rattle.scc_lower_laws.specs.Outcome.{Known, Made, Outcome, chosen, converted, number, operated, operated_alone, text_of};
ghost use Rattle.scc_lower_laws.specs.Lowers.{IsNumbered, Knows, Lowers, Makes, temporary};
ghost use Rattle.scc_core_spec.specs.Program.{is_root};
ghost use Rattle.scc_core_spec.specs.Uses.{has_sort};
ghost use Rattle.scc_lower_laws.specs.Puts.{Assigns, AssignsBelow, IsPut, IsPutBit, IsWritten, PicksBits, Puts, PutsEach, bit_code, bit_value, case_code, written_variable};
ghost use Rattle.scc_lower_laws.specs.Statements.{FitLeaving, Guarded, LowersCode, Skips, block_code, guard_code, leave_code};
ghost use Rattle.scc_blocks_spec.specs.Worked as worked;
ghost use Rattle.scc_lower_laws.specs.Worked.{chosen_text, some_sight, some_widths};
ghost use Rattle.scc_lower_laws.specs.Joins.{LowersAll, joined_text, joins, widths};
ghost use Rattle.scc_lower_laws.specs.Elements.{Dimension, IndexAll, Indexes, IsFound, IsIndexKind, IsNowhere, IsReadable, IsTaken, KnowsIndex, Shown, ShowsElement, ShowsSpan, Slot, index_kind, read_text, variable_of, within_text};
ghost use Rattle.scc_lower_spec.specs.Selected.{bit_term, halves_term, part_left};

/// An expression that is lowered is shown by its text, whatever stands before it.
pub fn lowered_expressions_give_their_values()
    ensures { (s : Sight) → (width : ℕ → ℕ) → (from to : ℕ) → (e : Term) → (front : Code) → (o : Outcome) → IsNumbered s → temporary s to ≤ top_number → Lowers s width from to e front o → IsLoweredTerm s width e front (text_of o) }
{}

/// What is lowered stays so behind code that makes earlier temporaries, and before code that makes later ones.
pub fn lowered_expressions_stand_one_behind_the_other()
    ensures before { (s : Sight) → (width : ℕ → ℕ) → (n m k : ℕ) → (e : Term) → (c d : Code) → (o : Outcome) → Lowers s width n m e c o → m ≤ k → Makes s m k d → Lowers s width n k e (then_code c d) o }
    ensures behind { (s : Sight) → (width : ℕ → ℕ) → (n m k : ℕ) → (e : Term) → (c d : Code) → (o : Outcome) → IsNumbered s → n ≤ m → Makes s n m c → Lowers s width m k e d o → Lowers s width n k e (then_code c d) o }
{}

/// Literals and conversions are lowered so.
pub fn literals_and_conversions_are_lowered()
    ensures literals { (s : Sight) → (width : ℕ → ℕ) → (n : ℕ) → (p : Place) → (k : Kind) → (w : ℕ) → w < 2 ^ width_of k → Lowers s width n n (core.Literal p k w) End (Known (number k w)) }
    ensures conversions { (s : Sight) → (width : ℕ → ℕ) → (n m : ℕ) → (p : Place) → (k : Kind) → (e : Term) → (c : Code) → (o : Outcome) → Lowers s width n m e c o → Lowers s width n m (core.Convert p k e) c (converted (kind_of e) k o) }
{}

/// Operators and choices are lowered so, where one front serves their operands.
pub fn operators_and_choices_are_lowered()
    ensures one { (s : Sight) → (width : ℕ → ℕ) → (n m : ℕ) → (p : Place) → (k : Kind) → (o : Op) → (e : Term) → (c : Code) → (r out : Outcome) → IsValid (kind_of e) → is_too_wide o (kind_of e) (kind_of e) ≡ false → values.kind_of o (kind_of e) (kind_of e) ≡ Some k → operated_alone o (kind_of e) r ≡ Some out → Lowers s width n m e c r → Lowers s width n m (core.Unary p k o e) c out }
    ensures two { (s : Sight) → (width : ℕ → ℕ) → (n m : ℕ) → (p : Place) → (k : Kind) → (o : Op) → (e f : Term) → (c : Code) → (r q out : Outcome) → IsValid (kind_of e) → IsValid (kind_of f) → is_too_wide o (kind_of e) (kind_of f) ≡ false → values.kind_of o (kind_of e) (kind_of f) ≡ Some k → operated o (kind_of e) r (kind_of f) q ≡ Some out → Lowers s width n m e c r → Lowers s width n m f c q → Lowers s width n m (core.Binary p k o e f) c out }
    ensures choices { (s : Sight) → (width : ℕ → ℕ) → (n m : ℕ) → (p : Place) → (k : Kind) → (t e f : Term) → (c : Code) → (u r q : Outcome) → Lowers s width n m t c u → Lowers s width n m e c r → Lowers s width n m f c q → Lowers s width n m (core.Choose p k t e f) c (chosen (kind_of t) u (kind_of e) r (kind_of f) q k) }
{}

/// An index stands in the one variable that it is, or is put into a temporary.
pub fn indices_stand_in_variables()
    ensures variables { (s : Sight) → (width : ℕ → ℕ) → (n m : ℕ) → (e : Term) → (c : Code) → (o : Outcome) → (v : ℕ) → Lowers s width n m e c o → text_of (converted (kind_of e) (index_kind (kind_of e)) o) ≡ variable_of v → Indexes s width n m e c (record { variable = v; width = width_of (index_kind (kind_of e)) }) }
    ensures temporaries { (s : Sight) → (width : ℕ → ℕ) → (n m : ℕ) → (e : Term) → (c : Code) → (o : Outcome) → width (temporary s m) ≡ width_of (index_kind (kind_of e)) → Lowers s width n m e c o → Indexes s width n (m + 1) e (then_code c (Assign (whole (temporary s m)) (text_of (converted (kind_of e) (index_kind (kind_of e)) o)) End)) (record { variable = temporary s m; width = width_of (index_kind (kind_of e)) }) }
    ensures before { (s : Sight) → (width : ℕ → ℕ) → (n m k : ℕ) → (e : Term) → (c d : Code) → (v : Slot) → Indexes s width n m e c v → m ≤ k → Makes s m k d → Indexes s width n k e (then_code c d) v }
    ensures behind { (s : Sight) → (width : ℕ → ℕ) → (n m k : ℕ) → (e : Term) → (c d : Code) → (v : Slot) → IsNumbered s → n ≤ m → Makes s n m c → Indexes s width m k e d v → Indexes s width n k e (then_code c d) v }
{}

/// The text of a cell's bits, and of an element's, by halves of its dimensions, shows them; 0 past an end.
pub fn elements_are_read_by_halves()
    ensures cells { (s : Sight) → (width : ℕ → ℕ) → (m w c h l : ℕ) → IsNumbered s → IsReadable s width w c → l ≤ h → h < w → ShowsElement s width m w [] [] c h l (read_text (s.view c) w c h l) }
    ensures one { (s : Sight) → (width : ℕ → ℕ) → (m w : ℕ) → (v : Slot) → (vs : List Slot) → (d : Dimension) → (ds : List Dimension) → (first low h l : ℕ) → (t : emitted.Term) → ShowsElement s width m w vs ds (first + low * d.stride) h l t → ShowsSpan s width m w v vs d ds first low (low + 1) h l t }
    ensures halves { (s : Sight) → (width : ℕ → ℕ) → (m w : ℕ) → (v : Slot) → (vs : List Slot) → (d : Dimension) → (ds : List Dimension) → (first low middle high h l : ℕ) → (t u : emitted.Term) → v.variable < temporary s m → middle < 2 ^ v.width → ShowsSpan s width m w v vs d ds first low middle h l t → ShowsSpan s width m w v vs d ds first middle high h l u → ShowsSpan s width m w v vs d ds first low high h l (halves_term v.width (variable_of v.variable) middle t u) }
    ensures all { (s : Sight) → (width : ℕ → ℕ) → (m w : ℕ) → (v : Slot) → (vs : List Slot) → (d : Dimension) → (ds : List Dimension) → (first high h l : ℕ) → (t : emitted.Term) → v.variable < temporary s m → high ≡ min d.size (2 ^ v.width) → ShowsSpan s width m w v vs d ds first 0 high h l t → ShowsElement s width m w (v ∷ vs) (d ∷ ds) first h l (within_text v d.size h l t) }
{}

/// What is read of a location, whole or some bits of it, is lowered so; `IsTaken` says that an expression reads it.
pub fn locations_are_read()
    ensures wholes { (s : Sight) → (width : ℕ → ℕ) → (n m : ℕ) → (e : Term) → (place : Left) → (c : Code) → (t : emitted.Term) → IsNumbered s → 1 ≤ width_of (kind_of e) → IsTaken s e place → Shown s width n m (width_of (kind_of e)) place c (width_of (kind_of e) - 1) 0 t → Lowers s width n m e c (Made t) }
    ensures ranges { (s : Sight) → (width : ℕ → ℕ) → (n m : ℕ) → (p : Place) → (k : Kind) → (e : Term) → (h l : ℕ) → (place : Left) → (c : Code) → (t : emitted.Term) → IsNumbered s → width_of k ≡ h - l + 1 → IsTaken s e place → Shown s width n m (width_of (kind_of e)) place c h l t → Lowers s width n m (core.Range p k e h l) c (Made t) }
    ensures bits { (s : Sight) → (width : ℕ → ℕ) → (n m : ℕ) → (p : Place) → (e i : Term) → (b : ℕ) → (place : Left) → (c : Code) → (t : emitted.Term) → IsNumbered s → KnowsIndex s i b → b < width_of (kind_of e) → IsTaken s e place → Shown s width n m (width_of (kind_of e)) place c b b t → Lowers s width n m (core.Bit p e i) c (Made t) }
    ensures no_cells { (s : Sight) → (width : ℕ → ℕ) → (n : ℕ) → (e : Term) → (place : Left) → IsTaken s e place → IsNowhere s place → Lowers s width n n e End (Made (emitted.Literal (width_of (kind_of e)) 0)) }
    ensures no_ranges { (s : Sight) → (width : ℕ → ℕ) → (n : ℕ) → (p : Place) → (k : Kind) → (e : Term) → (h l : ℕ) → (place : Left) → IsTaken s e place → IsNowhere s place → Lowers s width n n (core.Range p k e h l) End (Made (emitted.Literal (width_of k) 0)) }
    ensures no_bits { (s : Sight) → (width : ℕ → ℕ) → (n : ℕ) → (p : Place) → (e i : Term) → (place : Left) → IsTaken s e place → IsNowhere s place → Lowers s width n n (core.Bit p e i) End (Made (emitted.Literal 1 0)) }
{}

/// A bit of any value: 0 past its end, and at an index that isn't known the lowest one of a shift.
pub fn bits_of_values_are_read()
    ensures past { (s : Sight) → (width : ℕ → ℕ) → (n : ℕ) → (p : Place) → (e i : Term) → (b : ℕ) → KnowsIndex s i b → width_of (kind_of e) ≤ b → Lowers s width n n (core.Bit p e i) End (Made (emitted.Literal 1 0)) }
    ensures open_index { (s : Sight) → (width : ℕ → ℕ) → (n m : ℕ) → (p : Place) → (e i : Term) → (c : Code) → (o : Outcome) → (v : Slot) → 1 ≤ width_of (kind_of e) → width_of (kind_of e) ≤ 128 → IsIndexKind (kind_of i) → Lowers s width n m e c o → Indexes s width n m i c v → Lowers s width n m (core.Bit p e i) c (Made (bit_term (text_of o) (variable_of v.variable))) }
{}

/// What is known is lowered to its number.
pub fn what_is_known_is_a_number()
    ensures { (s : Sight) → (width : ℕ → ℕ) → (n : ℕ) → (e : Term) → (w : ℕ) → Knows s e w → Lowers s width n n e End (Known (number (kind_of e) w)) }
{}

/// A concatenation is lowered part by part; `joins` is that of parts behind a first one.
pub fn concatenations_are_lowered()
    ensures { (s : Sight) → (width : ℕ → ℕ) → (n m : ℕ) → (c : Code) → (p : Place) → (k : Kind) → (e : Term) → (es : List Term) → (o : Outcome) → (os : List Outcome) → kind_of (joins p k e es) ≡ k → widths (e ∷ es) ≡ width_of k → LowersAll s width n m (e ∷ es) c (o ∷ os) → Lowers s width n m (joins p k e es) c (Made (joined_text (o ∷ os))) }
{}

/// An assignment to the variable of a cell writes the cell, the whole of it or some bits; a root only as a whole.
pub fn cells_are_written()
    ensures wholes { (s : Sight) → (width : ℕ → ℕ) → (m bits c : ℕ) → (e : Term) → (t : emitted.Term) → IsNumbered s → IsWritten s width bits c → width_of (kind_of e) ≡ bits → Puts s width m (IsPut s width core.Whole e t) [] [] c (Assign (whole (written_variable (s.view c) c)) t End) }
    ensures parts { (s : Sight) → (width : ℕ → ℕ) → (m bits c h l : ℕ) → (k : Pick) → (e : Term) → (t : emitted.Term) → IsNumbered s → IsWritten s width bits c → has_sort is_root s.cells c ≡ false → 1 ≤ bits → l ≤ h → h < bits → width_of (kind_of e) ≡ h - l + 1 → PicksBits s k bits h l → Puts s width m (IsPut s width k e t) [] [] c (Assign (part_left (record { 0 = written_variable (s.view c) c }) bits h l) t End) }
{}

/// An element is written in the arm of its index, and nothing past the end.
pub fn elements_are_written_in_arms()
    ensures { (s : Sight) → (width : ℕ → ℕ) → (m : ℕ) → (k : Pick) → (e : Term) → (t : emitted.Term) → (v : Slot) → (vs : List Slot) → (d : Dimension) → (ds : List Dimension) → (first : ℕ) → (cs : List Code) → length cs ≡ min d.size (2 ^ v.width) → PutsEach s width m (IsPut s width k e t) vs d ds first 0 cs → Puts s width m (IsPut s width k e t) (v ∷ vs) (d ∷ ds) first (case_code v cs) }
{}

/// Behind the front of its indices and its value, such code does what an assignment does; where no cell is named, none does.
pub fn assignments_are_lowered()
    ensures elements { (s : Sight) → (width : ℕ → ℕ) → (n m : ℕ) → (l : Left) → (k : Pick) → (e : Term) → (c d : Code) → (o : Outcome) → (first : ℕ) → (ds : List Dimension) → (vs : List Slot) → IsNumbered s → IsFound s l first ds → IndexAll s width n m ds c vs → Lowers s width n m e c o → Puts s width m (IsPut s width k e (text_of o)) vs ds first d → Assigns s width m l k e (then_code c d) }
    ensures no_cells { (s : Sight) → (width : ℕ → ℕ) → (m : ℕ) → (l : Left) → (k : Pick) → (e : Term) → IsNowhere s l → Assigns s width m l k e End }
{}

/// Statements that are lowered are shown by their code.
pub fn lowered_statements_leave_what_they_leave()
    ensures { (s : Sight) → (width : ℕ → ℕ) → (depth to : ℕ) → (out : ℕ → Bool) → (c : core_code.Code) → (code : Code) → temporary s to ≤ top_number → LowersCode s width depth to out c code → IsLoweredCode s width c code }
{}

/// The end, guarded statements, assignments, branches and exits are lowered so.
pub fn statements_are_lowered()
    ensures ends { (s : Sight) → (width : ℕ → ℕ) → (depth to : ℕ) → (out : ℕ → Bool) → LowersCode s width depth to out core_code.End End }
    ensures guards { (s : Sight) → (width : ℕ → ℕ) → (depth to : ℕ) → (out : ℕ → Bool) → (c : core_code.Code) → (code : Code) → LowersCode s width depth to out c code → LowersCode s width depth to out c (guard_code s width code) }
    ensures skipped { (s : Sight) → (width : ℕ → ℕ) → (code : Code) → Skips s width (guard_code s width code) }
    ensures assignments { (s : Sight) → (width : ℕ → ℕ) → (depth to : ℕ) → (out : ℕ → Bool) → (p : Place) → (l : Left) → (k : Pick) → (e : Term) → (r : core_code.Code) → (c rest : Code) → Assigns s width to l k e c → LowersCode s width depth to out r rest → LowersCode s width depth to out (core_code.Put p l k e r) (then_code c rest) }
    ensures branches { (s : Sight) → (width : ℕ → ℕ) → (depth to n m : ℕ) → (out more : ℕ → Bool) → (p : Place) → (t : Term) → (first other r : core_code.Code) → (front y z rest : Code) → (o : Outcome) → IsNumbered s → m ≤ to → Lowers s width n m t front o → LowersCode s width depth to out first y → LowersCode s width depth to out other z → ((k : ℕ) → out k ≡ true → more k ≡ true) → Guarded s width out rest → FitLeaving s width out → LowersCode s width depth to more r rest → LowersCode s width depth to more (core_code.If p t first other r) (then_code front (If (text_of o) y z rest)) }
    ensures known_tests { (s : Sight) → (width : ℕ → ℕ) → (depth to : ℕ) → (out more : ℕ → Bool) → (p : Place) → (t : Term) → (w : ℕ) → (first other r : core_code.Code) → (y rest : Code) → Knows s t w → LowersCode s width depth to out (if nat_eq w 0 then other else first) y → ((k : ℕ) → out k ≡ true → more k ≡ true) → Guarded s width out rest → FitLeaving s width out → LowersCode s width depth to more r rest → LowersCode s width depth to more (core_code.If p t first other r) (then_code y rest) }
    ensures exits { (s : Sight) → (width : ℕ → ℕ) → (depth to : ℕ) → (out : ℕ → Bool) → (p : Place) → (n : ℕ) → (r : core_code.Code) → (rest : Code) → IsNumbered s → n < depth → out (depth - n) ≡ true → FitLeaving s width out → Skips s width rest → AssignsBelow s to rest → LowersCode s width depth to out (core_code.Exit p n r) (leave_code s width (depth - n) rest) }
    ensures blocks { (s : Sight) → (width : ℕ → ℕ) → (depth to : ℕ) → (out more : ℕ → Bool) → (p : Place) → (b r : core_code.Code) → (body rest : Code) → IsNumbered s → LowersCode s width (suc depth) to out b body → ((k : ℕ) → k < suc depth → out k ≡ true → more k ≡ true) → ((k : ℕ) → k < suc depth → out k ≡ true → Skips s width rest) → FitLeaving s width out → LowersCode s width depth to more r rest → LowersCode s width depth to more (core_code.Block p b r) (then_code (block_code s width depth out body) rest) }
{}

/// A bit at an index that isn't known is written by masks, and where the index is past the width nothing is.
pub fn bits_at_unknown_indices_are_written()
    ensures cells { (s : Sight) → (width : ℕ → ℕ) → (m w c : ℕ) → (index : Term) → (u : Slot) → (t : emitted.Term) → IsNumbered s → IsWritten s width w c → has_sort is_root s.cells c ≡ false → w ≤ 128 → IsIndexKind (kind_of index) → Puts s width m (IsPutBit s width w index u t) [] [] c (bit_code w (written_variable (s.view c) c) u t) }
    ensures arms { (s : Sight) → (width : ℕ → ℕ) → (m w : ℕ) → (i : Term) → (u : Slot) → (t : emitted.Term) → (v : Slot) → (vs : List Slot) → (d : Dimension) → (ds : List Dimension) → (first : ℕ) → (cs : List Code) → length cs ≡ min d.size (2 ^ v.width) → PutsEach s width m (IsPutBit s width w i u t) vs d ds first 0 cs → Puts s width m (IsPutBit s width w i u t) (v ∷ vs) (d ∷ ds) first (case_code v cs) }
    ensures assignments { (s : Sight) → (width : ℕ → ℕ) → (n m w : ℕ) → (l : Left) → (i e : Term) → (c d : Code) → (o : Outcome) → (u : Slot) → (first : ℕ) → (ds : List Dimension) → (vs : List Slot) → IsNumbered s → 1 ≤ w → width_of (kind_of e) ≡ 1 → IsFound s l first ds → IndexAll s width n m ds c vs → Indexes s width n m i c u → Lowers s width n m e c o → Puts s width m (IsPutBit s width w i u (bit_value w o)) vs ds first d → Assigns s width m l (core.OneBit i) e (then_code c d) }
{}

/// A range takes its bits, and a pick at a known index that bit.
pub fn picks_take_bits()
    ensures ranges { (s : Sight) → (bits h l : ℕ) → PicksBits s (core.Bits h l) bits h l }
    ensures known { (s : Sight) → (bits b : ℕ) → (i : Term) → KnowsIndex s i b → b < bits → PicksBits s (core.OneBit i) bits b b }
{}

/// What is skipped in parts is skipped as a whole, and more blocks may be left, and more temporaries be made, than are.
pub fn lowered_statements_may_leave_more()
    ensures end { (s : Sight) → (width : ℕ → ℕ) → Skips s width End }
    ensures parts { (s : Sight) → (width : ℕ → ℕ) → (c d : Code) → Skips s width c → Skips s width d → Skips s width (then_code c d) }
    ensures more { (s : Sight) → (width : ℕ → ℕ) → (depth to top : ℕ) → (out more : ℕ → Bool) → (c : core_code.Code) → (code : Code) → to ≤ top → ((k : ℕ) → out k ≡ true → more k ≡ true) → LowersCode s width depth to out c code → LowersCode s width depth top more c code }
{}

/// `m[a]` is lowered to a choice between two elements.
pub fn an_element_is_lowered_to_a_choice()
    ensures { Lowers some_sight some_widths 0 0 worked.chosen End (Made chosen_text) }
{}
