//! Laws over the definitions alone, each the clause of a function that does nothing.
ghost use Rattle.scc_drive.specs.Laws.{OneOutcome};

/// What a command comes to is one.
#[tactic(auto, using(crate::proofs::OneKind::one_outcome))]
pub fn what_a_command_comes_to_is_one()
    ensures one { OneOutcome }
{}
