//! Laws that cite the definitions.
ghost use Rattle.std.specs.Prelude.{◌≡◌, ℕ, List, [], ◌∷◌, length, Option, Some, None, true, false};
ghost use Rattle.scc_semantics.specs.Design.{Design};
ghost use Rattle.scc_semantics.specs.Process.{State, Well};
ghost use Rattle.scc_semantics.specs.Location.{Location};
ghost use Rattle.scc_semantics.specs.Run.{Step, shown};
ghost use Rattle.scc_semantics.specs.Statement.{AllSame, Seen, ShowsTheSame};
ghost use Rattle.scc_semantics.specs.Start.{IsStart, FindsResets};
ghost use Rattle.scc_semantics.specs.Same.{SameDesign};
ghost use Rattle.scc_semantics.specs.Rounds.{EndsSoon};
ghost use Rattle.scc_semantics.specs.Schedule.{AnyOrder, SameShown};
ghost use Rattle.scc_semantics.specs.Worked.{handing_on};

/// No steps show nothing.
pub fn a_design_without_processes_shows_its_ports()
    ensures none { (d : Design) (s : State) → shown (λ i. 0) d [] s ≡ Well [] }
    ensures resets { (d : Design) → FindsResets d [] [] [] }
{}

/// A design of one method at a clock's edge means what it means, shows the same in any order at all locations, and its settling ends at once.
pub fn a_design_at_one_clock_shows_the_same()
    ensures nothing { SameShown (λ l. true) [] [] }
    ensures same { SameDesign 1 handing_on handing_on }
    ensures order { AnyOrder (λ l. true) handing_on }
    ensures soon { EndsSoon handing_on }
{}

/// No steps show nothing on both sides.
pub fn nothing_is_shown_alike()
    ensures nothing { AllSame [] [] }
    ensures statement { (register : ℕ → Location → Option ℕ) (d : Design) → ShowsTheSame ℕ register (λ x xs seen. AllSame [] seen) d → (s : State) × IsStart d s }
{}
