//! Laws of walks.
ghost use Rattle.std.specs.Prelude.{◌≡◌, ℕ, Bool, Some};
ghost use Rattle.scc_base.specs.declared.names.Name.{Name};
ghost use Rattle.scc_core.specs.declared.expr.CoreExpr.{CoreExpr};
ghost use Rattle.scc_core.specs.declared.expr.CoreLeft.{CoreLeft};
ghost use Rattle.scc_core_spec.specs.Code.{Code};
ghost use Rattle.scc_core_spec.specs.Term.{Left, Pick};
ghost use Rattle.scc_core_spec.specs.Unpointed.{aimed, resolved_left};
ghost use Rattle.scc_core_spec.specs.Resolved.{Made, Tried, and_made, made_map, resolved, walked};
ghost use Rattle.scc_pointers_walk.specs.declared.held.Resolver.{Resolver};
ghost use Rattle.scc_core_view.specs.Terms.{taken_of, term_of};
ghost use Rattle.scc_pointers_walk.specs.Led.{left_of, looks_of, target_of};
ghost use Rattle.scc_pointers_walk.specs.Walked.{expr_in, loaded_in, target_in, walked_in};
ghost use Rattle.scc_pointers_walk.specs.Located.{element_in, member_in, pointed_in};
ghost use Rattle.scc_pointers_walk.specs.Read.{IsFound};
ghost use Rattle.scc_core.specs.declared.program.Core.{Core};
ghost use Rattle.scc_pointers_laws.specs.Counted.{IsAskedCounted, IsWholeCounted};
ghost use Rattle.scc_pointers_laws.specs.Ready.{IsAsked, IsWholeCore};
ghost use Rattle.scc_unroll_asked.specs.Copied.{HaveCopies};
ghost use Rattle.scc_pointers_laws.specs.Followed.{IsFollowed, IsFollowedLeft, IsKnown, IsSound};

use scc_core_static_laws::whole_indices_are_found;

/// Members and elements of sound locations are sound, and so is where a pointer leads.
pub fn walks_stay_sound()
    ensures members { (r : Resolver) → IsKnown r → (l : CoreLeft) (n : Name) → IsSound r l → IsSound r (member_in r l n) }
    ensures elements { (r : Resolver) → IsKnown r → (l : CoreLeft) (size : ℕ) (e : CoreExpr) → IsSound r l → IsFound r e → IsSound r (element_in r l size e) }
    ensures targets { (r : Resolver) → IsKnown r → (l m : CoreLeft) → pointed_in r l ≡ Made (Some m) → IsSound r m }
{}

/// An expression and a location without pointers are those of the definitions, or both are refused alike.
pub fn a_walk_is_the_definitions()
    ensures locations { (r : Resolver) → IsKnown r → (l : CoreLeft) (soft : Bool) → IsFollowedLeft r l → made_map target_of (walked_in r l soft) ≡ walked (looks_of r) soft (left_of l) }
    ensures expressions { (r : Resolver) → IsKnown r → (e : CoreExpr) → IsFollowed r e → made_map term_of (expr_in r e) ≡ resolved (looks_of r) (term_of e) }
{}

/// A location that is assigned is that of the definition, with the part of a number that is written, or it is refused alike; so is a target,
/// and where one leads is sound.
pub fn what_is_assigned_is_the_definitions()
    ensures locations { (r : Resolver) → IsKnown r → (f : Left → Pick → Tried Code) (l : CoreLeft) → IsFollowedLeft r l → resolved_left (looks_of r) (taken_of l).left (taken_of l).pick f ≡ and_made (loaded_in r l) (λ m. f (taken_of m).left (taken_of m).pick) }
    ensures targets { (r : Resolver) → IsKnown r → (l : CoreLeft) → IsFollowedLeft r l → made_map target_of (target_in r l) ≡ aimed (looks_of r) (left_of l) }
    ensures sound { (r : Resolver) → IsKnown r → (l m : CoreLeft) → IsFollowedLeft r l → target_in r l ≡ Made (Some m) → IsSound r m }
{}

/// A core meets what is asked where its cells are whole, and the indices in its bodies are whole where their pointers are gone.
pub fn whole_cores_are_asked()
    ensures { (c : Core) → IsWholeCore c → IsAsked c }
{
    whole_indices_are_found();
}

/// A core that has copies of the expressions and locations of another, with counters as literals, meets what is asked where the other
/// one meets it with counters. So does an unrolled core.
pub fn copies_of_asked_cores_are_asked()
    ensures { (c m : Core) → m.cells ≡ c.cells → m.vectors ≡ c.vectors → HaveCopies c.cells c.processes m.processes → IsAskedCounted c → IsAsked m }
{}

/// A core meets what is asked with counters where its cells are whole, and the indices in its bodies are whole with any counters.
pub fn whole_cores_are_asked_with_counters()
    ensures { (c : Core) → IsWholeCounted c → IsAskedCounted c }
{
    whole_indices_are_found();
}
