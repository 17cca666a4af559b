//! Laws that join those of the passes.
ghost use Rattle.std.specs.Prelude.{◌≡◌, ℕ, ◌*◌, Bool, true, None, Some, Option, List};
ghost use Rattle.scc_semantics.specs.Location.{Location};
ghost use Rattle.scc_svtree.specs.declared.module.SvModule.{SvModule};
ghost use Rattle.scc_svtree.specs.Sound.{IsSound};
ghost use Rattle.scc_core_spec.specs.Constants.{constants_of};
ghost use Rattle.scc_core_resolvable_laws.specs.Fitting.{statements_fit};
ghost use Rattle.scc_core_spec.specs.Program.{Program};
ghost use Rattle.scc_core_spec.specs.Renumbered.{resolved_program};
ghost use Rattle.scc_core_spec.specs.Unrolled.{unrolled_program};
ghost use Rattle.scc_core_spec.specs.Resolved.{Made};
ghost use Rattle.scc_core_spec.specs.Rules.{first_rule};
ghost use Rattle.scc_blocks_spec.specs.Emitted.{ModuleShows};
ghost use Rattle.scc_semantics.specs.Rounds.{EndsSoon};
ghost use Rattle.scc_semantics.specs.Schedule.{AnyOrder};
ghost use Rattle.scc_blocks_spec.specs.Names.{is_kept_at};
ghost use Rattle.scc_blocks_spec.specs.Passed.{Law};
ghost use Rattle.scc_states_laws.specs.InTime.{DesignInTime};
ghost use Rattle.scc_blocks_spec.specs.Tied.{Registers};
ghost use Rattle.scc_blocks_run_laws.specs.Blocks.{Built};
ghost use Rattle.scc_blocks_spec.specs.Matches.{Matches};
ghost use Rattle.scc_core_effect_laws.specs.Follows.{design_of as core_design};
ghost use Rattle.scc_elab_growth_laws.specs.Apart.{is_whole_plain};
ghost use Rattle.scc_elab_spec.specs.Design.{Design};
ghost use Rattle.scc_elab_spec.specs.Elaborated.{elaborated};
ghost use Rattle.scc_elab_spec.specs.Meant.{design_of};
ghost use Rattle.scc_elab_spec.specs.Program.{Plain};
ghost use Rattle.scc_inline_spec.specs.Inlined.{home_of};
ghost use Rattle.scc_inline_spec.specs.Static.{inlined};
ghost use Rattle.scc_inline_core_laws.specs.Kinded.{is_kinded};
ghost use Rattle.scc_inline_orderly_laws.specs.Program.{is_orderly_program};
ghost use Rattle.scc_drive_stages_laws.specs.Written.{IsWritten};

/// Passes that keep the meaning keep it one after another, with the product of what they allow.
pub fn passes_keep_the_meaning_one_after_another()
    ensures { (j k : ℕ) (constant : Location → Option ℕ) (c u r : Program) → Law j constant c u → Law k constant u r → Law (j * k) constant c r }
{}

/// Of an elaborated design the unrolled and resolved core means what the copied core means, three statements for one, where members have different names, operators the kinds
/// that they say, and the program passes the test of what is asked of its functions, the names of its processes and its arrays.
pub fn unrolled_loops_and_resolved_pointers_keep_the_meaning()
    ensures { (many : Bool) (p : Plain) (d : Design) (c r : Program) (constant : Location → Option ℕ) → is_whole_plain p ≡ true → is_kinded p ≡ true → elaborated many p ≡ Some (Made d)
        → is_orderly_program p d ≡ true → inlined p d ≡ Made c → resolved_program (unrolled_program c) ≡ Made r → Law 3 constant c r }
{}

/// The module that is built of the resolved core of such a design shows what the design shows, where the core's statements fit, no rule is broken, and the module matches the
/// core's design and has its names.
pub fn a_module_shows_what_the_source_shows()
    ensures { (many : Bool) (p : Plain) (d : Design) (c r : Program) (text : Location → List ℕ) (own : List ℕ → Bool) (g : Registers) (m : SvModule) (top : List ℕ) (built : Built r g m)
        → is_whole_plain p ≡ true → is_kinded p ≡ true → elaborated many p ≡ Some (Made d) → is_orderly_program p d ≡ true → inlined p d ≡ Made c → resolved_program (unrolled_program c) ≡ Made r
        → statements_fit r ≡ true → first_rule r ≡ None → IsSound many m → Matches text own (is_kept_at (home_of p d) r) (core_design (home_of p d) r) m top → IsWritten (home_of p d) r text own g m built.clock_variable
        → ModuleShows text (design_of p d (constants_of (home_of p d) r)) m }
{}

/// Within three times the bounds of the resolved core's bodies each process of such a design comes to its next wait or to its end, from each start and over all steps that
/// fit; and any order of the scheduler shows the same, and comes to rest. So it is where the core's statements fit and no rule is broken.
pub fn a_design_is_timely()
    ensures in_time { (many : Bool) (p : Plain) (d : Design) (c r : Program) → is_whole_plain p ≡ true → is_kinded p ≡ true → elaborated many p ≡ Some (Made d) → is_orderly_program p d ≡ true → inlined p d ≡ Made c
        → resolved_program (unrolled_program c) ≡ Made r → statements_fit r ≡ true → first_rule r ≡ None → DesignInTime 3 (design_of p d (constants_of (home_of p d) r)) r }
    ensures any_order { (many : Bool) (p : Plain) (d : Design) (c r : Program) → is_whole_plain p ≡ true → is_kinded p ≡ true → elaborated many p ≡ Some (Made d) → is_orderly_program p d ≡ true → inlined p d ≡ Made c
        → resolved_program (unrolled_program c) ≡ Made r → statements_fit r ≡ true → first_rule r ≡ None
        → AnyOrder (is_kept_at (home_of p d) r) (design_of p d (constants_of (home_of p d) r)) × EndsSoon (design_of p d (constants_of (home_of p d) r)) }
{}
