//! Laws on static values.
ghost use Rattle.std.specs.Prelude.{◌≡◌, List, [], Bool, not, nat_eq, map, option_map};
ghost use Rattle.scc_bits_kinds.specs.declared.kind.Kind.{Kind};
ghost use Rattle.scc_core.specs.declared.copy.Counter.{Counter};
ghost use Rattle.scc_core.specs.declared.expr.CoreExpr.{CoreExpr};
ghost use Rattle.scc_core.specs.declared.expr.CoreLeft.{CoreLeft};
ghost use Rattle.scc_core.specs.declared.expr.CorePart.{CorePart};
ghost use Rattle.scc_core.specs.declared.expr.CorePick.{CorePick};
ghost use Rattle.scc_core.specs.declared.program.Cell.{Cell};
ghost use Rattle.scc_core.specs.declared.program.CellName.{CellName};
ghost use Rattle.scc_core.specs.declared.statics.Known.{Known};
ghost use Rattle.scc_core.specs.Counters.{counted, counted_part, counted_pick};
ghost use Rattle.scc_core.specs.Elements.{Part, found};
ghost use Rattle.scc_core.specs.Known.{facts_in};
ghost use Rattle.scc_core.specs.Statics.{facts_of, left_value, part_in, pick_in, static_of, value_in};
ghost use Rattle.scc_core_spec.specs.Fold.{static_index};
ghost use Rattle.scc_core_spec.specs.Program.{Vector};
ghost use Rattle.scc_core_spec.specs.Static.{goes, static};
ghost use Rattle.scc_core_view.specs.Programs.{cell_of};
ghost use Rattle.scc_core_view.specs.Terms.{term_of};
ghost use Rattle.scc_core_view.specs.Whole.{AreWholeCells, IsName, IsWhole};
ghost use Rattle.scc_core_static_laws.specs.Held.{AreCounters, Knows};
ghost use Rattle.scc_core_static_laws.specs.Indices.{Finds};
ghost use Rattle.scc_core_static_laws.specs.Readable.{AreReadableParts, IsReadable, IsReadableLeft, IsReadablePick};

use scc_core_view::static_values_are_those_of_terms;

/// What is found by a table of names is what is sought by the names, so static values are the same.
pub fn static_values_by_a_table_are_those_by_names()
    ensures values { (known : Known) (cells : List Cell) (e : CoreExpr) → Knows known cells [] → IsReadable [] e → value_in (facts_in known) e ≡ static_of cells e }
    ensures lefts { (known : Known) (cells : List Cell) (j k : Kind) (l : CoreLeft) → Knows known cells [] → IsReadableLeft [] j l → left_value (facts_in known) l k ≡ left_value (facts_of cells) l k }
    ensures parts { (known : Known) (cells : List Cell) (ps : List CorePart) → Knows known cells [] → AreReadableParts [] ps → map (part_in (facts_in known)) ps ≡ map (part_in (facts_of cells)) ps }
    ensures picks { (known : Known) (cells : List Cell) (q : CorePick) → Knows known cells [] → IsReadablePick [] q → pick_in (facts_in known) q ≡ pick_in (facts_of cells) q }
    ensures found { (known : Known) (cells : List Cell) (first : Bool) (ps : List Part) (name : CellName) → Knows known cells [] → IsName name → found (facts_in known) first ps name ≡ found (facts_of cells) first ps name }
{}

/// Where counters are known, static values are those of the copy in which they stand as literals.
pub fn static_values_with_counters_are_those_of_copies()
    ensures values { (known : Known) (cells : List Cell) (ns : List Counter) (e : CoreExpr) → Knows known cells ns → IsReadable ns e → value_in (facts_in known) e ≡ static_of cells (counted ns e) }
    ensures parts { (known : Known) (cells : List Cell) (ns : List Counter) (ps : List CorePart) → Knows known cells ns → AreReadableParts ns ps → map (part_in (facts_in known)) ps ≡ map (part_in (facts_of cells)) (map (counted_part ns) ps) }
    ensures picks { (known : Known) (cells : List Cell) (ns : List Counter) (q : CorePick) → Knows known cells ns → IsReadablePick ns q → pick_in (facts_in known) q ≡ pick_in (facts_of cells) (counted_pick ns q) }
    ensures found { (known : Known) (cells : List Cell) (ns : List Counter) (first : Bool) (ps : List Part) (name : CellName) → Knows known cells ns → IsName name → found (facts_in known) first ps name ≡ found (facts_of cells) first ps name }
{}

/// A whole expression is readable where counters have numbers of their cells' kinds; without counters always.
pub fn whole_expressions_are_readable()
    ensures counted { (cells : List Cell) (ns : List Counter) (e : CoreExpr) → AreCounters cells ns → IsWhole cells e → IsReadable ns e }
    ensures alone { (cells : List Cell) (e : CoreExpr) → IsWhole cells e → IsReadable [] e }
{}

/// The static value that is found by a table of names is that of the term for which a whole expression stands. With counters the copy in
/// which they stand as literals has to be whole: where a counter of 0 stands as a divisor it isn't, and the code finds no value.
pub fn static_values_by_a_table_are_those_of_terms()
    ensures values { (known : Known) (cells : List Cell) (e : CoreExpr) → Knows known cells [] → AreWholeCells cells → IsWhole cells e → option_map (λ v. v.word) (value_in (facts_in known) e) ≡ static (map cell_of cells) (term_of e) }
    ensures goes { (known : Known) (cells : List Cell) (e : CoreExpr) → Knows known cells [] → AreWholeCells cells → IsWhole cells e → option_map (λ v. not (nat_eq v.word 0)) (value_in (facts_in known) e) ≡ goes (map cell_of cells) (term_of e) }
    ensures counters { (known : Known) (cells : List Cell) (ns : List Counter) (e : CoreExpr) → Knows known cells ns → AreWholeCells cells → IsReadable ns e → IsWhole cells (counted ns e) → option_map (λ v. v.word) (value_in (facts_in known) e) ≡ static (map cell_of cells) (term_of (counted ns e)) }
{
    static_values_are_those_of_terms();
}

/// The value that is found of a whole index is the number that the definitions have, or neither is known.
pub fn whole_indices_are_found()
    ensures { (known : Known) (cells : List Cell) (vectors : List Vector) (e : CoreExpr) → Knows known cells [] → AreWholeCells cells → IsWhole cells e → Finds (value_in (facts_in known) e) (static_index (map cell_of cells) vectors (term_of e)) }
{
    static_values_are_those_of_terms();
}
