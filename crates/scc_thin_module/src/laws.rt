//! Laws over the definitions alone, each the clause of a function that does nothing.
ghost use Rattle.scc_thin_module.specs.Laws.{ThinIsShown, ThinIsSound, ThinMatches, ThinStarts, ThinNeedsNoReset};

/// The module of the design that a thin text denotes shows, from any start and for every list of steps, the same outputs
/// as the design in each observation.
pub fn thin_texts_are_shown()
    ensures shown { ThinIsShown }
{}

/// The module of the design that joined files denote, where they are a thin text, has no wrong sizes, names, drivers or
/// cycles.
pub fn thin_texts_are_sound()
    ensures sound { ThinIsSound }
{}

/// Every design of a thin text has a start, and none has a thread that needs a reset.
#[tactic(auto, using(crate::proofs::Starts::thin_starts, crate::proofs::Starts::needs_no_reset))]
pub fn thin_texts_have_starts()
    ensures starts { ThinStarts }
    ensures resets { ThinNeedsNoReset }
{}

/// The module of a design matches it: its name, its ports in order, and no registers.
#[tactic(auto, using(crate::proofs::Matching::matches))]
pub fn modules_match_thin_texts()
    ensures matches { ThinMatches }
{}
