//! Laws that cite the definitions.
ghost use Rattle.std.specs.Prelude.{◌≡◌, ℕ, List, [], ◌∷◌, Option, Some, None};
ghost use Rattle.scc_base.specs.declared.code.Code.TheVariants as reason;
ghost use Rattle.scc_templates_spec.specs.Walk.{Event, Fault, Need, Late, Free, Tally, Went, empty, go};
ghost use Rattle.scc_templates_spec.specs.Walked.{pure, fault};
ghost use Rattle.scc_templates_spec.specs.Stage.{judged, stage, IsReached};
ghost use Rattle.scc_templates_spec.specs.Worked.{asked, asked_beside, used_beside, here, there};

/// A chain of 64 classes whose constants ask for one another has a value, one of 65 is refused where the last is asked for.
pub fn chains_of_constants_are_bounded()
    ensures value { asked 63 ≡ pure 1 }
    ensures refused { asked 64 ≡ fault reason.TemplateDepth there }
{}

/// Specialisations are worked out in a chain of their own: 31 classes that ask for a class whose specialisations ask for 41 others have a value. A class that is
/// used while its own are worked out is refused at that use.
pub fn specialisations_begin_a_chain()
    ensures own { asked_beside 2 30 ≡ pure 1 }
    ensures again { used_beside 3 3 ≡ fault reason.TemplateDepth there }
{}

/// What is needed is noted once, in order; a late call is refused before what is refused behind it, but for a smaller number at its own place.
pub fn the_first_of_a_walk_stops_it()
    ensures noted { go (Late here ∷ Need (Free 2) here ∷ Need (Free 2) there ∷ []) empty ≡ record { tally = record { queue = Free 2 ∷ []; late = Some here }; stop = None } }
    ensures late { judged (go (Late here ∷ Fault reason.Divisor there None ∷ []) empty) ≡ Some (record { code = reason.CallPlace; place = here; other = None }) }
    ensures smaller { judged (go (Late here ∷ Fault reason.Mismatch here None ∷ []) empty) ≡ Some (record { code = reason.Mismatch; place = here; other = None }) }
    ensures stage { stage (λ x. []) 5 0 empty ≡ record { tally = empty; stop = None } }
    ensures reached { IsReached (λ x. []) empty empty }
{}
