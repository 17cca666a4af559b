//! Laws that stand on the definitions alone.
ghost use Rattle.std.specs.Prelude.{◌≡◌, ℕ, Bool, List, None};
ghost use Rattle.scc_semantics.specs.Location.{Location};
ghost use Rattle.scc_semantics.specs.Design.{Design};
ghost use Rattle.scc_semantics.specs.Process.{State};
ghost use Rattle.scc_semantics.specs.Run.{Step, Shown, Shows};
ghost use Rattle.scc_svtree.specs.declared.module.SvModule.{SvModule};
ghost use Rattle.scc_blocks_spec.specs.Emitted.{ModuleShows};
ghost use Rattle.scc_core_spec.specs.IsResolved.{IsResolved};
ghost use Rattle.scc_core_spec.specs.Program.{Program};
ghost use Rattle.scc_blocks_spec.specs.Passed.{IsHome};
ghost use Rattle.scc_core_spec.specs.Rules.{first_rule};
ghost use Rattle.scc_core_spec.specs.Source.{Home};
ghost use Rattle.scc_blocks_spec.specs.Tied.{Registers};
ghost use Rattle.scc_svtree.specs.Sound.{IsSound};
ghost use Rattle.scc_blocks_run_laws.specs.Blocks.{Built};
ghost use Rattle.scc_core_effect_laws.specs.Follows.{design_of};
ghost use Rattle.scc_blocks_spec.specs.Matches.{Matches};
ghost use Rattle.scc_blocks_spec.specs.Names.{is_kept_at};
ghost use Rattle.scc_drive_stages_laws.specs.Joined.{IsJoined};
ghost use Rattle.scc_drive_stages_laws.specs.Written.{IsWritten, number_at};

/// What a design shows from a start does not turn on the number of statements that are allowed.
pub fn one_run_at_every_bound()
    ensures { (d : Design) (s : State) (xs : List Step) (os ps : List Shown) → Shows d s xs os → Shows d s xs ps → os ≡ ps }
{}

/// Where a module matches a core's design and names are written as `IsWritten` says, they tell on both sides what stands for what.
pub fn what_matches_is_joined()
    ensures { (home : Home) (p : Program) (text : Location → List ℕ) (own : List ℕ → Bool) (many : Bool) (r : Registers) (m : SvModule) (clock_variable : ℕ → ℕ) (top : List ℕ) → IsSound many m
        → Matches text own (is_kept_at home p) (design_of home p) m top → IsWritten home p text own r m clock_variable → IsJoined home p text (number_at home p) r m clock_variable }
{}

/// The module that is built of a resolved core, whose rules aren't broken, shows what the core's design shows.
pub fn what_is_emitted_shows_the_same()
    ensures { (home : Home) (p : Program) (text : Location → List ℕ) (at : Location → ℕ) (many : Bool) (r : Registers) (m : SvModule) (built : Built p r m) → IsSound many m
        → IsHome home → IsResolved p → first_rule p ≡ None → IsJoined home p text at r m built.clock_variable → ModuleShows text (design_of home p) m }
{}
