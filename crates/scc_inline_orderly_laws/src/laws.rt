//! Laws of orderly programs.
ghost use Rattle.std.specs.Prelude.{◌≡◌, ℕ, Bool, true, false, length, Option, Some, option_map};
ghost use Rattle.scc_blocks_spec.specs.Comes.{Keeps};
ghost use Rattle.scc_core_spec.specs.Program as prog;
ghost use Rattle.scc_core_spec.specs.Resolved.{Made, made_map};
ghost use Rattle.scc_core_spec.specs.Source.{source_of};
ghost use Rattle.scc_elab_growth_laws.specs.Apart.{is_whole_plain};
ghost use Rattle.scc_elab_spec.specs.Design as design;
ghost use Rattle.scc_elab_spec.specs.Elaborated.{elaborated};
ghost use Rattle.scc_elab_spec.specs.Meant.{design_of};
ghost use Rattle.scc_elab_spec.specs.Program.{Plain};
ghost use Rattle.scc_elab_spec.specs.Worked.{program, made};
ghost use Rattle.scc_inline_laws.specs.OrderlyDesign.{IsOrderly};
ghost use Rattle.scc_inline_orderly_laws.specs.Program.{IsOrderlyProgram, is_orderly_program};
ghost use Rattle.scc_inline_orderly_laws.specs.Reached.{among, is_closed, reached};
ghost use Rattle.scc_inline_orderly_laws.specs.Whole.{is_orderly};
ghost use Rattle.scc_inline_orderly_laws.specs.Worked.{counted, counting};
ghost use Rattle.scc_inline_orderly_laws.specs.WorkedTable.{tabled};
ghost use Rattle.scc_inline_spec.specs.Inlined.{copied_program, home_of};
ghost use Rattle.scc_inline_spec.specs.Stages.{compiled};
ghost use Rattle.scc_inline_spec.specs.Static.{inlined};
ghost use Rattle.scc_semantics.specs.Location.{Location};
ghost use Rattle.scc_semantics.specs.Same.{SameDesign};

/// A program and its design that pass the test are orderly.
pub fn what_passes_the_test_is_orderly()
    ensures { (p : Plain) (d : design.Design) → is_orderly p d ≡ true → IsOrderly p d }
{}

/// So the core of such a program means what the program means, where no process changes what is fixed, nor assigns a pointer but at its declaration.
pub fn what_passes_the_test_means_the_same()
    ensures { (p : Plain) (d : design.Design) (c : prog.Program) (constant : Location → Option ℕ) → is_orderly p d ≡ true → inlined p d ≡ Made c → Keeps (source_of (home_of p d) c constant)
        → SameDesign 1 (design_of p d constant) (source_of (home_of p d) c constant) }
{}

/// Of a program whose design construction made only the functions of its processes, the names of processes and its arrays are asked for.
pub fn what_is_elaborated_is_orderly()
    ensures { (many : Bool) (p : Plain) (d : design.Design) → elaborated many p ≡ Some (Made d) → is_whole_plain p ≡ true → IsOrderlyProgram p d → IsOrderly p d }
{}

/// And the core of one that passes the test of these means what the program means, where no process changes what is fixed, nor assigns a pointer but at its declaration.
pub fn what_is_elaborated_means_the_same()
    ensures { (many : Bool) (p : Plain) (d : design.Design) (c : prog.Program) (constant : Location → Option ℕ) → elaborated many p ≡ Some (Made d) → is_whole_plain p ≡ true → is_orderly_program p d ≡ true
        → inlined p d ≡ Made c → Keeps (source_of (home_of p d) c constant) → SameDesign 1 (design_of p d constant) (source_of (home_of p d) c constant) }
{}

/// The core of a program means the same in which the counter of a loop chooses the object of a call: the law's premises are met there.
pub fn a_counted_program_means_the_same()
    ensures { (constant : Location → Option ℕ) → SameDesign 1 (design_of counted counting constant) (source_of (home_of counted counting) (copied_program counted counting) constant) }
{}

/// A program passes the tests, and goes through all stages, in which the counter of a loop chooses the object of a call; and one with values and results passes.
pub fn a_counted_program_is_orderly()
    ensures counted { is_orderly counted counting ≡ true }
    ensures accepted { inlined counted counting ≡ Made (copied_program counted counting) }
    ensures made { elaborated false counted ≡ Some (Made counting) }
    ensures whole { is_whole_plain counted ≡ true }
    ensures program { is_orderly_program counted counting ≡ true }
    ensures compiled { option_map (λ t. made_map (λ c. length c.processes) t) (compiled false counted) ≡ Some (Made 1) }
    ensures values { is_orderly program made ≡ true }
{}

/// So does one in which it chooses the object by a table, beside an array of pointers of which only one leads to an object.
pub fn a_tabled_program_is_orderly()
    ensures whole { is_whole_plain tabled ≡ true }
    ensures program { option_map (λ t. made_map (λ d. is_orderly_program tabled d) t) (elaborated false tabled) ≡ Some (Made true) }
    ensures compiled { option_map (λ t. made_map (λ c. length c.processes) t) (compiled false tabled) ≡ Some (Made 1) }
{}

/// What the calls of a function lead to, as it is looked for, has the function, and no call of it leads elsewhere.
pub fn what_calls_lead_to_is_reached()
    ensures itself { (p : Plain) (f : ℕ) → among f (reached p f) ≡ true }
    ensures closed { (p : Plain) (f : ℕ) → is_closed p (reached p f) ≡ true }
{}
