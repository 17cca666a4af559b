//! Laws of programs that all stages accept.
ghost use Rattle.std.specs.Prelude.{◌≡◌, ℕ, Bool, true, false, None, Some, List, option_map};
ghost use Rattle.scc_semantics.specs.Location.{Location};
ghost use Rattle.scc_semantics.specs.Rounds.{EndsSoon};
ghost use Rattle.scc_semantics.specs.Same.{SameDesign};
ghost use Rattle.scc_semantics.specs.Schedule.{AnyOrder};
ghost use Rattle.scc_svtree.specs.declared.module.SvModule.{SvModule};
ghost use Rattle.scc_svtree.specs.Sound.{IsSound};
ghost use Rattle.scc_core_spec.specs.Constants.{constants_of};
ghost use Rattle.scc_core_spec.specs.Program.{Program};
ghost use Rattle.scc_core_spec.specs.Renumbered.{resolved_program};
ghost use Rattle.scc_core_spec.specs.Resolved.{Made, made_map};
ghost use Rattle.scc_core_spec.specs.Rules.{first_rule};
ghost use Rattle.scc_core_spec.specs.Source.{source_of};
ghost use Rattle.scc_core_spec.specs.Unrolled.{unrolled_program};
ghost use Rattle.scc_core_effect_laws.specs.Follows.{design_of as core_design};
ghost use Rattle.scc_core_resolvable_laws.specs.Fitting.{statements_fit};
ghost use Rattle.scc_blocks_spec.specs.Emitted.{ModuleShows};
ghost use Rattle.scc_blocks_spec.specs.Matches.{Matches};
ghost use Rattle.scc_blocks_spec.specs.Names.{is_kept_at};
ghost use Rattle.scc_blocks_spec.specs.Tied.{Registers};
ghost use Rattle.scc_blocks_run_laws.specs.Blocks.{Built};
ghost use Rattle.scc_states_laws.specs.InTime.{DesignInTime};
ghost use Rattle.scc_elab_spec.specs.Design.{Design};
ghost use Rattle.scc_elab_spec.specs.Elaborated.{elaborated};
ghost use Rattle.scc_elab_spec.specs.Meant.{design_of};
ghost use Rattle.scc_elab_spec.specs.Program.{Plain};
ghost use Rattle.scc_inline_spec.specs.Inlined.{home_of};
ghost use Rattle.scc_inline_spec.specs.Stages.{compiled};
ghost use Rattle.scc_inline_spec.specs.Static.{inlined};
ghost use Rattle.scc_inline_orderly_laws.specs.Program.{is_orderly_program};
ghost use Rattle.scc_drive_stages_laws.specs.Written.{IsWritten};
ghost use Rattle.scc_inline_orderly_laws.specs.Worked.{counted, counting};
ghost use Rattle.scc_inline_orderly_laws.specs.WorkedTable.{tabled};
ghost use Rattle.scc_elab_spec.specs.Worked.{program, made};
ghost use Rattle.scc_drive_source_laws.specs.Fitting.{is_fitting_program};
ghost use Rattle.scc_plain_spec.specs.Program.{program_of};
ghost use Rattle.scc_templates_spec.specs.Source.{Source};

/// The core of a program that all stages accept comes of its design by the passes in turn, and it breaks no rule.
pub fn an_accepted_program_comes_of_its_stages()
    ensures { (many : Bool) (p : Plain) (r : Program) → compiled many p ≡ Some (Made r)
        → (d : Design) × (c : Program) × (elaborated many p ≡ Some (Made d)) × (inlined p d ≡ Made c) × (resolved_program (unrolled_program c) ≡ Made r) × (first_rule r ≡ None) }
{}

/// With what the static stage gives, a program that fits is orderly.
pub fn what_fits_is_orderly()
    ensures { (s : Source) (top : ℕ) (p : Plain) (d : Design) → program_of s top ≡ Made p → is_fitting_program p d ≡ true → is_orderly_program p d ≡ true }
{}

/// Programs fit in which a counter chooses the object of a call, and one in which it does so by a table.
pub fn counted_programs_fit()
    ensures counted { is_fitting_program counted counting ≡ true }
    ensures tabled { option_map (λ t. made_map (λ d. is_fitting_program tabled d) t) (elaborated false tabled) ≡ Some (Made true) }
    ensures values { is_fitting_program program made ≡ true }
{}

/// The design of a source that all stages accept means what its core means, where the program fits (a test of its functions, the names of its processes and its
/// arrays) and the core's statements do.
pub fn an_accepted_source_means_what_its_core_means()
    ensures { (many : Bool) (s : Source) (top : ℕ) (p : Plain) (r : Program) → program_of s top ≡ Made p → compiled many p ≡ Some (Made r) → statements_fit r ≡ true
        → (d : Design) × (elaborated many p ≡ Some (Made d))
        × (is_fitting_program p d ≡ true → SameDesign 3 (design_of p d (constants_of (home_of p d) r)) (source_of (home_of p d) r (constants_of (home_of p d) r))) }
{}

/// Within three times the bounds of the core's bodies each process of such a source comes to its next wait or to its end, and any order of the scheduler shows the same and
/// comes to rest.
pub fn an_accepted_source_is_timely()
    ensures { (many : Bool) (s : Source) (top : ℕ) (p : Plain) (r : Program) → program_of s top ≡ Made p → compiled many p ≡ Some (Made r) → statements_fit r ≡ true
        → (d : Design) × (elaborated many p ≡ Some (Made d))
        × (is_fitting_program p d ≡ true → DesignInTime 3 (design_of p d (constants_of (home_of p d) r)) r × AnyOrder (is_kept_at (home_of p d) r) (design_of p d (constants_of (home_of p d) r))
        × EndsSoon (design_of p d (constants_of (home_of p d) r))) }
{}

/// The module that is built of the core of such a source shows what the source shows, where it matches the core's design and has its names.
pub fn a_module_shows_what_its_source_shows()
    ensures { (many : Bool) (s : Source) (top : ℕ) (p : Plain) (r : Program) → program_of s top ≡ Made p → compiled many p ≡ Some (Made r) → statements_fit r ≡ true
        → (d : Design) × (elaborated many p ≡ Some (Made d))
        × (is_fitting_program p d ≡ true → (text : Location → List ℕ) (own : List ℕ → Bool) (g : Registers) (m : SvModule) (name : List ℕ) (built : Built r g m) → IsSound many m
        → Matches text own (is_kept_at (home_of p d) r) (core_design (home_of p d) r) m name → IsWritten (home_of p d) r text own g m built.clock_variable
        → ModuleShows text (design_of p d (constants_of (home_of p d) r)) m) }
{}
