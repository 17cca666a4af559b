//! Laws on lists of what is read and written.
ghost use Rattle.std.specs.Prelude.{◌≡◌, ℕ, Bool, List, [], map};
ghost use Rattle.scc_core_spec.specs.Clashes.{shared_variable, two_writers};
ghost use Rattle.scc_core_spec.specs.Feeding.{feeds};
ghost use Rattle.scc_core_spec.specs.Program.{Program};
ghost use Rattle.scc_core_spec.specs.Rules.{clock_as_data, clocks, latch, missing_sensitivity};
ghost use Rattle.scc_core_spec.specs.Uses.{among};
ghost use Rattle.scc_rules_laws.specs.Alike.{AreAllAlike};
ghost use Rattle.scc_rules_laws.specs.Feeds.{feeds_by};
ghost use Rattle.scc_rules_laws.specs.Found.{clock_used, first_along, missed_put, shared_in, two_in, unlisted_read};
ghost use Rattle.scc_rules_laws.specs.Seen.{AreSeen, Seen};

/// Of what the processes read, in order, or of a list without what tells nothing new, one tells a clock that is data (E408), and a root
/// that isn't in its sensitivity (E503), as the definitions do.
pub fn clocks_and_sensitivities_are_told_by_lists()
    ensures clocks { (p : Program) (thin : List (List Seen)) → AreSeen p thin → first_along (clock_used (λ n. among n (clocks p))) p.processes thin ≡ clock_as_data p }
    ensures senses { (p : Program) (thin : List (List Seen)) → AreSeen p thin → first_along (unlisted_read p.cells) p.processes thin ≡ missing_sensitivity p }
{}

/// So one tells a root with two writers (E501).
pub fn two_writers_are_told_by_lists()
    ensures { (p : Program) (thin : List (List Seen)) → AreSeen p thin → two_in p.cells [] thin ≡ two_writers p }
{}

/// And a variable that two processes share (E502).
pub fn shared_variables_are_told_by_lists()
    ensures { (p : Program) (thin : List (List Seen)) → AreSeen p thin → shared_in p.cells [] thin ≡ shared_variable p }
{}

/// And the first write of a root that some path doesn't write (E504).
pub fn latches_are_told_by_lists()
    ensures { (p : Program) (thin : List (List Seen)) → AreSeen p thin → first_along (missed_put p.cells) p.processes thin ≡ latch p }
{}

/// And which combinational method feeds which, so their cycles (E505) and their order.
pub fn what_feeds_is_told_by_lists()
    ensures { (p : Program) (thin : List (List Seen)) → AreSeen p thin → (i j : ℕ) → feeds p i j ≡ feeds_by p thin i j }
{}

/// Lists whose locations name the same cells in another order, or some of them more than once, tell the same of E408, E501 to
/// E504, and which method feeds which.
pub fn rules_are_told_by_members()
    ensures clocks { (p : Program) (thin marks : List (List Seen)) → AreSeen p thin → AreAllAlike thin marks → first_along (clock_used (λ n. among n (clocks p))) p.processes marks ≡ clock_as_data p }
    ensures writers { (p : Program) (thin marks : List (List Seen)) → AreSeen p thin → AreAllAlike thin marks → two_in p.cells [] marks ≡ two_writers p }
    ensures senses { (p : Program) (thin marks : List (List Seen)) → AreSeen p thin → AreAllAlike thin marks → first_along (unlisted_read p.cells) p.processes marks ≡ missing_sensitivity p }
    ensures shared { (p : Program) (thin marks : List (List Seen)) → AreSeen p thin → AreAllAlike thin marks → shared_in p.cells [] marks ≡ shared_variable p }
    ensures feeds { (p : Program) (thin marks : List (List Seen)) → AreSeen p thin → AreAllAlike thin marks → (i j : ℕ) → feeds p i j ≡ feeds_by p marks i j }
    ensures latches { (p : Program) (thin marks : List (List Seen)) → AreSeen p thin → AreAllAlike thin marks → first_along (missed_put p.cells) p.processes marks ≡ latch p }
{}
