//! Laws that cite the definitions.
ghost use Rattle.std.specs.Prelude.{◌≡◌, Bool, [], ◌∷◌, true, false, Some};
ghost use Rattle.scc_base.specs.declared.refusal.Refusal.{Refusal};
ghost use Rattle.scc_base.specs.declared.code.Code.TheVariants as reason;
ghost use Rattle.scc_core_spec.specs.First.{refused};
ghost use Rattle.scc_templates_spec.specs.Walk.{Calls, OfFile, ByClass};
ghost use Rattle.scc_elab_spec.specs.Program.{Plain};
ghost use Rattle.scc_plain_first.specs.Recursion.{calls_itself, names_object};
ghost use Rattle.scc_plain_first.specs.Static.{Walks, refusal_of};
ghost use Rattle.scc_plain_first.specs.Stages.{first_refusal};
ghost use Rattle.scc_plain_first.specs.Worked.{at, bodies, walks};

/// A call by a class's name of a function that names an object, if only by another function, is refused before what comes back to itself, and after all that a
/// walk meets.
#[tactic(auto, unfolding(scc_templates_spec::specs::Stage::staged_from))]
pub fn what_is_looked_for_last_is_refused_last()
    ensures object { names_object bodies 0 ≡ true }
    ensures once { calls_itself bodies 0 ≡ false }
    ensures again { calls_itself bodies 2 ≡ true }
    ensures by_class { refusal_of (walks (Calls (OfFile 0) ByClass (at 4) ∷ [])) ≡ Some (refused reason.Mismatch (at 4)) }
    ensures recursion { refusal_of (walks []) ≡ Some (refused reason.Recursion (at 9)) }
{}

/// What the static stage refuses is the first refusal.
pub fn what_stages_refuse()
    ensures { (many : Bool) (w : Walks) (plain : Plain) (r : Refusal) → refusal_of w ≡ Some r → first_refusal many w plain ≡ Some r }
{}
