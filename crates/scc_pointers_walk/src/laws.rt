//! Laws on locations as the code makes them.
ghost use Rattle.std.specs.Prelude.{◌≡◌, ◌<◌, ℕ, Bool, false, Some, option_map, unwrap_or};
ghost use Rattle.scc_base.specs.declared.names.Name.{Name};
ghost use Rattle.scc_base.specs.declared.refusal.Place.{Place};
ghost use Rattle.scc_core.specs.declared.expr.CoreExpr.{CoreExpr};
ghost use Rattle.scc_core.specs.declared.expr.CoreLeft.{CoreLeft};
ghost use Rattle.scc_core.specs.Tables.{IsTable};
ghost use Rattle.scc_core_spec.specs.Fold.{as_name, element_of, element_or, in_range, member_of, size_of, static_index};
ghost use Rattle.scc_core_spec.specs.Named.{chooses_object, is_open};
ghost use Rattle.scc_core_spec.specs.Resolved.{Made, leads_to, looked, made_map, pointed};
ghost use Rattle.scc_core_spec.specs.Static.{pattern};
ghost use Rattle.scc_core_spec.specs.Term.{Index};
ghost use Rattle.scc_core_view.specs.Terms.{term_of};
ghost use Rattle.scc_pointers_walk.specs.declared.held.Resolver.{Resolver};
ghost use Rattle.scc_pointers_walk.specs.Led.{leads_of, led_in, left_of, looks_of, target_of};
ghost use Rattle.scc_pointers_walk.specs.Located as located;
ghost use Rattle.scc_pointers_walk.specs.Located.{element_on, is_chosen, is_one_of, looked_in, member_in, pointed_in};
ghost use Rattle.scc_pointers_walk.specs.Read.{AreFound, HasName, HaveNoTargets, HaveSmallNames, HaveSmallPaths, IsFound, IsNamed};

/// Members and elements as the code goes on with them are those of the definitions; what is found of the indices is theirs, too.
pub fn parts_are_those_of_definitions()
    ensures names { (r : Resolver) (l : CoreLeft) → left_of (located.as_name r l) ≡ as_name (leads_of r).cells (leads_of r).vectors (left_of l) }
    ensures members { (r : Resolver) (l : CoreLeft) (n : Name) → left_of (member_in r l n) ≡ member_of (leads_of r).cells (leads_of r).vectors (as_name (leads_of r).cells (leads_of r).vectors (left_of l)) n.0 }
    ensures elements { (r : Resolver) (l : CoreLeft) (size : ℕ) (e : CoreExpr) → size < 4294967296 → IsFound r e → left_of (element_on r l size e) ≡ element_or (leads_of r).cells (leads_of r).vectors (left_of l) (in_range (leads_of r).cells (leads_of r).vectors size (static_index (leads_of r).cells (leads_of r).vectors (term_of e))) (Index (left_of l) size (term_of e)) }
{}

/// Whether a location names several objects, or several cells, is as the definitions have it.
pub fn open_locations_are_those_of_definitions()
    ensures chosen { (r : Resolver) (l : CoreLeft) → AreFound r l.parts → is_chosen r l ≡ unwrap_or (option_map chooses_object (pattern (leads_of r).cells (left_of l))) false }
    ensures some { (r : Resolver) (l : CoreLeft) (other : Bool) → AreFound r l.parts → is_one_of r l other ≡ unwrap_or (option_map is_open (pattern (leads_of r).cells (left_of l))) other }
{}

/// A location as it stands in a resolved body is that of the definitions, or both are refused alike.
pub fn whole_locations_are_those_of_definitions()
    ensures { (r : Resolver) (l : CoreLeft) → IsTable r.places.now r.known.cells.now r.vectors.now → IsNamed l → AreFound r l.parts → made_map left_of (looked_in r l) ≡ looked (leads_of r) (left_of l) }
{}

/// The sizes of vectors are found as the definitions find them, and so elements are the definition's.
pub fn sizes_are_those_of_definitions()
    ensures sizes { (r : Resolver) → IsTable r.places.now r.known.cells.now r.vectors.now → HaveSmallPaths r.vectors.now → (l : CoreLeft) → HasName r l → AreFound r l.parts → (size : ℕ) → located.size_of r l size ≡ size_of (leads_of r).cells (leads_of r).vectors size (left_of l) }
    ensures elements { (r : Resolver) → IsTable r.places.now r.known.cells.now r.vectors.now → HaveSmallPaths r.vectors.now → (l : CoreLeft) → HasName r l → AreFound r l.parts → (size : ℕ) (e : CoreExpr) → located.size_of r l size < 4294967296 → IsFound r e → left_of (element_on r l (located.size_of r l size) e) ≡ element_of (leads_of r).cells (leads_of r).vectors (left_of l) size (term_of e) }
{}

/// A pointer leads where the definition has it, a local one to null before its declaration; so does the one that a location names, or it is
/// refused alike.
pub fn pointers_lead_as_in_definitions()
    ensures targets { (r : Resolver) → HaveNoTargets r.known.cells.now → (p : Place) (n : ℕ) → leads_to (looks_of r) p n ≡ Made (target_of (led_in r p n)) }
    ensures pointed { (r : Resolver) → HaveNoTargets r.known.cells.now → IsTable r.places.now r.known.cells.now r.vectors.now → HaveSmallNames r.known.cells.now → (l : CoreLeft) → HasName r l → AreFound r l.parts → made_map target_of (pointed_in r l) ≡ pointed (looks_of r) (left_of l) }
{}
