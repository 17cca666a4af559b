//! Laws that stand on the definitions alone.
ghost use Rattle.std.specs.Prelude.{◌≡◌, ℕ, ◌*◌, Bool, List, [], Option};
ghost use Rattle.scc_semantics.specs.Location.{Location};
ghost use Rattle.scc_semantics.specs.Places.{Places};
ghost use Rattle.scc_semantics.specs.Store.{Request};
ghost use Rattle.scc_semantics.specs.Body.{Body};
ghost use Rattle.scc_semantics.specs.Design.{Design};
ghost use Rattle.scc_semantics.specs.Value.{Held};
ghost use Rattle.scc_semantics.specs.Machine.{Frames, run};
ghost use Rattle.scc_semantics.specs.Process.{State, Well};
ghost use Rattle.scc_semantics.specs.Run.{Step, Shown, Shows, FitSteps, shown};
ghost use Rattle.scc_semantics.specs.Start.{IsStart};
ghost use Rattle.scc_semantics.specs.Statement.{AllSame, ShowsTheSame};
ghost use Rattle.scc_semantics.specs.Rounds.{EndsSoon};
ghost use Rattle.scc_semantics.specs.Schedule.{AnyOrder};
ghost use Rattle.scc_semantics.specs.Same.{SameDesign};
ghost use Rattle.scc_semantics.specs.Steady.{IsSteady};
ghost use Rattle.scc_semantics_laws.specs.Refuted.{OldLaw, staying, resolved};
ghost use Rattle.scc_semantics_laws.specs.Words.{IsOver, PlainFrames, aimed, all_aimed, behind, all_behind, unnumbered_design};

/// A design means the same as itself.
pub fn a_design_means_what_it_means()
    ensures { (d : Design) → SameDesign 1 d d }
{}

/// What is kept by one pass and by another is kept by both, one behind the other.
pub fn one_pass_behind_another_keeps_the_meaning()
    ensures { (k j : ℕ) (d e f : Design) → SameDesign k d e → SameDesign j e f → SameDesign (k * j) d f }
{}

/// A resume that is over comes to one outcome, whatever was requested before it, with however many statements allowed; without pointers, wherever pointers lead.
pub fn a_resume_comes_to_one_outcome()
    ensures one { (places : Places) (functions : ℕ → Body) (signals : Location → ℕ) (n m : ℕ) (f : Frames) (h : Held) → IsOver (run places functions signals n f h)
        → IsOver (run places functions signals m f h) → run places functions signals n f h ≡ run places functions signals m f h }
    ensures behind { (places : Places) (functions : ℕ → Body) (signals : Location → ℕ) (rs : List Request) (n : ℕ) (f : Frames) (h : Held) →
        run places functions signals n f (behind rs h) ≡ all_behind rs (run places functions signals n f h) }
    ensures blind { (places : Places) (functions : ℕ → Body) (signals : Location → ℕ) (t : Location → Option Location) (n : ℕ) (f : Frames) (h : Held) → PlainFrames f →
        run places functions signals n f (aimed t h) ≡ all_aimed t (run places functions signals n f h) }
{}

/// Designs that mean the same show the same, where the second is steady: d needs at most k times the statements of e, and e some number of statements.
pub fn what_means_the_same_runs_alike()
    ensures slower { (k : ℕ) (d e : Design) → SameDesign k d e → IsSteady e → (s t : State) → IsStart d s → IsStart e t → ((l : Location) → s.store.words l ≡ t.store.words l)
        → (xs : List Step) → FitSteps d xs → (b : ℕ → ℕ) (os : List Shown) → shown b e xs t ≡ Well os → shown (λ i. k * b i) d xs s ≡ Well os }
    ensures back { (k : ℕ) (d e : Design) → SameDesign k d e → IsSteady e → (s t : State) → IsStart d s → IsStart e t → ((l : Location) → s.store.words l ≡ t.store.words l)
        → (xs : List Step) → FitSteps d xs → (b : ℕ → ℕ) (os : List Shown) → shown b d xs s ≡ Well os → Shows e t xs os }
{}

/// What an emitted side shows of a steady design it shows of every design that means the same.
pub fn what_means_the_same_is_shown_the_same()
    ensures { (k : ℕ) (d e : Design) (register : ℕ → Location → Option ℕ) → SameDesign k d e → IsSteady e
        → ShowsTheSame ℕ register (λ x xs seen. AllSame [] seen) e → ShowsTheSame ℕ register (λ x xs seen. AllSame [] seen) d }
{}

/// The numbers of waits don't show.
pub fn numbers_of_waits_do_not_show()
    ensures { (d : Design) → SameDesign 1 d (unnumbered_design d) }
{}

/// What means the same as a steady design shows the same in any order, where that design does, and its settling ends as soon.
pub fn what_means_the_same_runs_in_any_order()
    ensures shows { (k : ℕ) (d e : Design) → SameDesign k d e → IsSteady e → (registers : Location → Bool) → AnyOrder registers e → AnyOrder registers d }
    ensures ends { (k : ℕ) (d e : Design) → SameDesign k d e → IsSteady e → EndsSoon e → EndsSoon d }
{}

/// Where what a process makes of pointers isn't seen, and those of others aren't found, designs that mean the same don't run alike.
pub fn the_old_definition_is_too_weak()
    ensures steady { IsSteady resolved }
    ensures same { SameDesign 1 staying resolved }
    ensures refuted { OldLaw → ⊥ }
{}
