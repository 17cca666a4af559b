//! Laws of the plain programs that the static stage gives.
ghost use Rattle.std.specs.Prelude.{◌≡◌, ℕ, false, length, option_map, Some, true};
ghost use Rattle.scc_core_spec.specs.Resolved.{Made, made_map};
ghost use Rattle.scc_elab_growth_laws.specs.Apart.{is_whole_plain};
ghost use Rattle.scc_elab_spec.specs.Elaborated.{elaborated};
ghost use Rattle.scc_elab_spec.specs.Program.{Plain};
ghost use Rattle.scc_inline_spec.specs.Stages.{compiled};
ghost use Rattle.scc_inline_core_laws.specs.Kinded.{is_kinded};
ghost use Rattle.scc_inline_orderly_laws.specs.Program.{is_orderly_program};
ghost use Rattle.scc_plain_kinds_laws.specs.WorkedLone.{lone};
ghost use Rattle.scc_plain_spec.specs.Program.{program_of};
ghost use Rattle.scc_templates_spec.specs.Source.{Source};

/// Operators of the functions of the plain program that a source has have the kinds that their operands give.
pub fn what_the_static_stage_gives_is_kinded()
    ensures { (s : Source) (top : ℕ) (p : Plain) → program_of s top ≡ Made p → is_kinded p ≡ true }
{}

/// The members of each of its classes have different names.
pub fn what_the_static_stage_gives_is_whole()
    ensures { (s : Source) (top : ℕ) (p : Plain) → program_of s top ≡ Made p → is_whole_plain p ≡ true }
{}

/// The elements of its arrays need not be alike: all stages accept a program in which one element of an array of pointers leads to an object and the other is null, and it passes
/// the test that the law of copied calls asks.
pub fn elements_need_not_be_alike()
    ensures accepted { option_map (λ t. made_map (λ c. length c.processes) t) (compiled false lone) ≡ Some (Made 1) }
    ensures orderly { option_map (λ t. made_map (λ d. is_orderly_program lone d) t) (elaborated false lone) ≡ Some (Made true) }
{}
