//! Laws of lowering over trees, each the clause of a function that does nothing.
ghost use Rattle.std.specs.Prelude.{◌≡◌, ◌+◌, ◌*◌, ◌<◌, ◌≤◌, ◌^◌, ℕ, min, length, List, [], ◌∷◌, ◌++◌, Option, Some, None, slice_get};
ghost use Rattle.scc_bits_kinds.specs.declared.kind.Kind.{Kind};
ghost use Rattle.scc_bits_kinds.specs.declared.kind.Word.{Word};
ghost use Rattle.scc_bits_kinds.specs.declared.op.Op.{Op};
ghost use Rattle.scc_bits_kinds.specs.Kinds.{IsValid, width_of};
ghost use Rattle.scc_bits.specs.Value.{Number};
ghost use Rattle.scc_core.specs.declared.expr.CoreExpr.{CoreExpr};
ghost use Rattle.scc_core.specs.declared.expr.CoreExprNode.{out-CoreExprNode};
ghost use Rattle.scc_core.specs.declared.expr.CoreLeft.{CoreLeft};
ghost use Rattle.scc_core.specs.declared.expr.CorePick.{CorePick, out-CorePick};
ghost use Rattle.scc_core.specs.declared.expr.CoreBase.TheOpen as tree;
ghost use Rattle.scc_core.specs.declared.program.Cell.{Cell};
ghost use Rattle.scc_core.specs.Known.{facts_in};
ghost use Rattle.scc_core.specs.Located.{named_in};
ghost use Rattle.scc_core.specs.Numbers.{small};
ghost use Rattle.scc_core.specs.Statics.{value_in};
ghost use Rattle.scc_core_view.specs.Terms.{term_of};
ghost use Rattle.scc_svtree.specs.Term as emitted;
ghost use Rattle.scc_blocks_spec.specs.Shown.{Sight, top_number};
ghost use Rattle.scc_blocks_spec.specs.Lowered.{IsLoweredTerm};
ghost use Rattle.scc_lower_spec.specs.Selected.{halves_term};
ghost use Rattle.scc_lower_laws.specs.Elements.{Slot, index_kind, variable_of, within_text};
ghost use Rattle.scc_lower_laws.specs.Joins.{joined_text};
ghost use Rattle.scc_lower_laws.specs.Lowers.{temporary};
ghost use Rattle.scc_lower_laws.specs.Outcome.{Known, Made, Outcome, chosen, converted, operated, operated_alone, text_of};
ghost use Rattle.scc_lower_tree_laws.specs.Becoming.{Becomes};
ghost use Rattle.scc_lower_tree_laws.specs.Choosing.{Opened, ReadsElement, ReadsSpan, cell_read};
ghost use Rattle.scc_lower_tree_laws.specs.Finding.{BitAt, Chosen, Found, Indexing, IsFoundAt, IsKnownBit, Keeping, LoweringAll, Opening, Picking, Reading};
ghost use Rattle.scc_lower_tree_laws.specs.Sound.{IsSound};
ghost use Rattle.scc_lower_tree_laws.specs.States.{Agrees, Given, Seen, Sees, State};

/// What an expression becomes gives its value, where a process sees the cells so and what stands in the expression is sound.
pub fn what_expressions_become_gives_their_values()
    ensures { (g : Given) → (e : CoreExpr) → (a b : State) → (o : Outcome) → (h : Becomes g e a o b) → (s : Sight) → (width : ℕ → ℕ) → Sees g.cells a.views s width → Agrees s width b.temporaries → IsSound g s e → temporary s (length b.temporaries) ≤ top_number → IsLoweredTerm s width (term_of e) h.leaves.front (text_of o) }
{}

/// Literals, what is known, conversions, operators and choices, an operand behind the one before it.
pub fn operators_become_text()
    ensures literals { (g : Given) → (e : CoreExpr) → (a : State) → (w : Word) → (n : Number) → out-CoreExprNode e.node ≡ tree.Lit w → n.kind ≡ e.kind → n.word ≡ w.bits → Becomes g e a (Known n) a }
    ensures known { (g : Given) → (e : CoreExpr) → (a : State) → (n : Number) → value_in (facts_in g.known) e ≡ Some n → Becomes g e a (Known n) a }
    ensures conversions { (g : Given) → (e f : CoreExpr) → (a b : State) → (o : Outcome) → out-CoreExprNode e.node ≡ tree.Convert f → Becomes g f a o b → Becomes g e a (converted f.kind e.kind o) b }
    ensures one { (g : Given) → (e f : CoreExpr) → (op : Op) → (a b : State) → (o out : Outcome) → out-CoreExprNode e.node ≡ tree.Operate op f None → operated_alone op f.kind o ≡ Some out → Becomes g f a o b → Becomes g e a out b }
    ensures two { (g : Given) → (e f r : CoreExpr) → (op : Op) → (a b c : State) → (o p out : Outcome) → out-CoreExprNode e.node ≡ tree.Operate op f (Some r) → operated op f.kind o r.kind p ≡ Some out → Becomes g f a o b → Becomes g r b p c → Becomes g e a out c }
    ensures choices { (g : Given) → (e t f r : CoreExpr) → (a b c d : State) → (o p q : Outcome) → out-CoreExprNode e.node ≡ tree.Choose t f r → Becomes g t a o b → Becomes g f b p c → Becomes g r c q d → Becomes g e a (chosen t.kind o f.kind p r.kind q e.kind) d }
{}

/// What is read of locations, bits of values, and concatenations.
pub fn reads_become_text()
    ensures loads { (g : Given) → (e : CoreExpr) → (l : CoreLeft) → (a b : State) → (t : emitted.Term) → out-CoreExprNode e.node ≡ tree.Load l → Reading g l l.pick e.kind a t b → Becomes g e a (Made t) b }
    ensures reads { (g : Given) → (e : CoreExpr) → (l : CoreLeft) → (a b : State) → (t : emitted.Term) → out-CoreExprNode e.node ≡ tree.Read l → Reading g l l.pick e.kind a t b → Becomes g e a (Made t) b }
    ensures picks { (g : Given) → (e f : CoreExpr) → (q : CorePick) → (a b : State) → (t : emitted.Term) → out-CoreExprNode e.node ≡ tree.Pick f q → Picking g f q e.kind a t b → Becomes g e a (Made t) b }
    ensures joins { (g : Given) → (e : CoreExpr) → (es : List CoreExpr) → (a b : State) → (os : List Outcome) → (t : emitted.Term) → out-CoreExprNode e.node ≡ tree.Join es → t ≡ joined_text os → LoweringAll g es a os b → Becomes g e a (Made t) b }
    ensures no_parts { (g : Given) → (a : State) → LoweringAll g [] a [] a }
    ensures more_parts { (g : Given) → (es : List CoreExpr) → (e : CoreExpr) → (a b c : State) → (os : List Outcome) → (o : Outcome) → LoweringAll g es a os b → Becomes g e b o c → LoweringAll g (es ++ e ∷ []) a (os ++ o ∷ []) c }
{}

/// An index is kept in a variable, and many one behind the other.
pub fn indices_are_kept()
    ensures one { (g : Given) → (e : CoreExpr) → (o : Outcome) → (a b c : State) → (v : Slot) → Becomes g e a o b → Keeping (length g.cells) (converted e.kind (index_kind e.kind) o) (width_of (index_kind e.kind)) b v c → Indexing g e a v c }
    ensures none { (g : Given) → (a : State) → Opening g [] a [] a }
    ensures more { (g : Given) → (cs : List Chosen) → (x : Chosen) → (a b c : State) → (os : List Opened) → (o : Opened) → Opening g cs a os b → x.size ≡ o.size → x.stride ≡ o.stride → Indexing g x.index b o.slot c → Opening g (cs ++ x ∷ []) a (os ++ o ∷ []) c }
{}

/// A cell is read as it is seen, and an element by halves of its dimensions.
pub fn elements_are_read_as_they_are_seen()
    ensures cells { (g : Given) → (views : List Seen) → (c h l : ℕ) → (t : emitted.Term) → cell_read g.cells views c h l ≡ Some t → ReadsElement g views [] c h l t }
    ensures one { (g : Given) → (views : List Seen) → (o : Opened) → (os : List Opened) → (first low at h l : ℕ) → (t : emitted.Term) → at ≡ first + low * o.stride → ReadsElement g views os at h l t → ReadsSpan g views o os first low (low + 1) h l t }
    ensures halves { (g : Given) → (views : List Seen) → (o : Opened) → (os : List Opened) → (first low middle high h l : ℕ) → (t u : emitted.Term) → low < middle → middle < high → ReadsSpan g views o os first low middle h l t → ReadsSpan g views o os first middle high h l u → ReadsSpan g views o os first low high h l (halves_term o.slot.width (variable_of o.slot.variable) middle t u) }
    ensures all { (g : Given) → (views : List Seen) → (o : Opened) → (os : List Opened) → (first high h l : ℕ) → (t : emitted.Term) → high ≡ min o.size (2 ^ o.slot.width) → ReadsSpan g views o os first 0 high h l t → ReadsElement g views (o ∷ os) first h l (within_text o.slot o.size h l t) }
{}

/// A location is read as a whole, in a range, at a bit that is known and at one that isn't; where it names no cell, 0 is read.
pub fn locations_are_read_where_they_are_found()
    ensures wholes { (g : Given) → (l : CoreLeft) → (k : Kind) → (f : Found) → (os : List Opened) → (a b : State) → (hi lo : ℕ) → (t : emitted.Term) → (cell : Cell) → IsFoundAt g l f → Opening g f.dims a os b → slice_get g.cells f.first ≡ Some cell → hi + 1 ≡ width_of cell.kind → lo ≡ 0 → ReadsElement g b.views os f.first hi lo t → Reading g l None k a t b }
    ensures ranges { (g : Given) → (l : CoreLeft) → (k : Kind) → (f : Found) → (os : List Opened) → (a b : State) → (q : CorePick) → (j : Kind) → (hi lo : ℕ) → (t : emitted.Term) → out-CorePick q ≡ tree.Range j hi lo → IsFoundAt g l f → Opening g f.dims a os b → ReadsElement g b.views os f.first hi lo t → Reading g l (Some q) k a t b }
    ensures known_bits { (g : Given) → (l : CoreLeft) → (k : Kind) → (f : Found) → (os : List Opened) → (a b : State) → (q : CorePick) → (j : Kind) → (i : CoreExpr) → (v : Number) → (hi : ℕ) → (t : emitted.Term) → (cell : Cell) → out-CorePick q ≡ tree.Bit j i → value_in (facts_in g.known) i ≡ Some v → IsFoundAt g l f → Opening g f.dims a os b → slice_get g.cells f.first ≡ Some cell → hi + 1 ≡ width_of cell.kind → IsKnownBit g b.views (small v) hi os f.first t → Reading g l (Some q) k a t b }
    ensures open_bits { (g : Given) → (l : CoreLeft) → (k : Kind) → (f : Found) → (os : List Opened) → (a b c : State) → (q : CorePick) → (j : Kind) → (i : CoreExpr) → (hi lo : ℕ) → (t r : emitted.Term) → (cell : Cell) → out-CorePick q ≡ tree.Bit j i → IsFoundAt g l f → Opening g f.dims a os b → slice_get g.cells f.first ≡ Some cell → hi + 1 ≡ width_of cell.kind → lo ≡ 0 → ReadsElement g b.views os f.first hi lo t → BitAt g t i b r c → Reading g l (Some q) k a r c }
    ensures nowhere { (g : Given) → (l : CoreLeft) → (k : Kind) → (q : Option CorePick) → (a : State) → (t : emitted.Term) → named_in g.known l ≡ None → t ≡ emitted.Literal (width_of k) 0 → Reading g l q k a t a }
{}

/// A literal of a kind that there is, with a word of that kind, is sound.
pub fn literals_are_sound()
    ensures { (g : Given) → (s : Sight) → (e : CoreExpr) → (w : Word) → out-CoreExprNode e.node ≡ tree.Lit w → IsValid e.kind → w.bits < 2 ^ width_of e.kind → IsSound g s e }
{}
