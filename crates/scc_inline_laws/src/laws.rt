//! Laws of copied bodies.
ghost use Rattle.std.specs.Prelude.{◌≡◌, ℕ, Bool, true, false, List, [], length, Option, None, Some, option_map, slice_get};
ghost use Rattle.std.specs.List.{list_any};
ghost use Rattle.scc_semantics.specs.Location.{Location, Root, same_root};
ghost use Rattle.scc_semantics.specs.Places.{Places};
ghost use Rattle.scc_semantics.specs.Scene.{Scene, Names};
ghost use Rattle.scc_semantics.specs.Value.{locate};
ghost use Rattle.scc_semantics.specs.Same.{MeansTheSame};
ghost use Rattle.scc_core_spec.specs.Term as core;
ghost use Rattle.scc_core_spec.specs.Program as prog;
ghost use Rattle.scc_core_spec.specs.Static.{Cells};
ghost use Rattle.scc_core_spec.specs.Fold.{named};
ghost use Rattle.scc_core_spec.specs.Source.{Home, left_of};
ghost use Rattle.scc_elab_spec.specs.Term.{Left};
ghost use Rattle.scc_elab_spec.specs.Program.{Plain};
ghost use Rattle.scc_elab_spec.specs.Design as design;
ghost use Rattle.scc_elab_spec.specs.Copied.{Here};
ghost use Rattle.scc_elab_spec.specs.Copied.{left_of as left_here};
ghost use Rattle.scc_elab_spec.specs.Bodies.{result_name};
ghost use Rattle.scc_inline_spec.specs.Static.{is_static};
ghost use Rattle.scc_inline_spec.specs.Inlined.{here_of, home_of, copied_program};
ghost use Rattle.scc_elab_spec.specs.Numbering.{levels, numbered, number_of};
ghost use Rattle.scc_elab_spec.specs.Worked.{program, made, method};
ghost use Rattle.scc_core_unroll_laws.specs.Kinds.{IsKinded};
ghost use Rattle.scc_inline_process_laws.specs.Sound.{IsSoundLeft};
ghost use Rattle.scc_core_unroll_laws.specs.Named.{IsNamed};
ghost use Rattle.scc_inline_laws.specs.OrderlyDesign.{IsOrderly};
ghost use Rattle.scc_semantics.specs.Same.{SameDesign};
ghost use Rattle.scc_core_spec.specs.Resolved.{Made};
ghost use Rattle.scc_inline_spec.specs.Static.{inlined};
ghost use Rattle.scc_elab_spec.specs.Meant.{design_of};
ghost use Rattle.scc_blocks_spec.specs.Comes.{Keeps};
ghost use Rattle.scc_blocks_spec.specs.Passed.{IsHome};
ghost use Rattle.scc_inline_process_laws.specs.Own.{OwnMoves};
ghost use Rattle.scc_inline_laws.specs.Untyped.{untyped};
ghost use Rattle.scc_inline_process_laws.specs.SoundCode.{core_scene};
ghost use Rattle.scc_semantics.specs.Store.{Store};
ghost use Rattle.scc_semantics.specs.Value.{value};
ghost use Rattle.scc_semantics.specs.Same.{is_own};
ghost use Rattle.scc_core_spec.specs.Static.{static};
ghost use Rattle.scc_core_spec.specs.Source.{expr_of, source_of};
ghost use Rattle.scc_inline_process_laws.specs.Relation.{IsSoundAt, around};
ghost use Rattle.scc_inline_laws.specs.WorkedProcess.{process};
ghost use Rattle.scc_core_spec.specs.Code.{End};
ghost use Rattle.scc_core_spec.specs.Counted.{Behind, Counter, counted_by};
ghost use Rattle.scc_inline_laws.specs.Defect.{aimed, unaimed, start, count, turning};
ghost use Rattle.scc_inline_process_laws.specs.SoundCode.{IsFirm};
ghost use Rattle.scc_inline_process_laws.specs.Chosen.{AreHeld, IsChosenStatically};
ghost use Rattle.scc_core_unroll_laws.specs.Unrolling.{Counters};
ghost use Rattle.scc_inline_counter_laws.specs.Even.{is_even};
ghost use Rattle.scc_inline_process_laws.specs.Whole.{IsReady, own_names, spoken_design, copied_design, spoken_process, copied_as_process};

/// The cell of a name stands at the name's location.
pub fn a_cell_stands_at_its_name()
    ensures { (home : Home) (cs : Cells) (vs : List prog.Vector) (i : ℕ) (s : Scene) (pointer : Bool) (l : core.Left) → locate s (left_of home cs i (named cs vs pointer l)) ≡ locate s (left_of home cs i l) }
{}

/// An object that static indices and counters choose stays while its function runs, where nothing assigns the counters.
pub fn an_object_stays()
    ensures { (home : Home) (places : Places) (own : Names) (h : Here) (held : ℕ → Bool) (ns : List Counter) (l : Left) → Counters (around home places own h) → AreHeld h held ns → IsChosenStatically home h ns l
        → IsFirm home places own h held l }
{}

/// An object that isn't refused as chosen by an index that isn't static, the counters around the call taken as 0, stays while its function runs, whatever the counters hold.
pub fn an_object_that_is_not_refused_stays()
    ensures { (home : Home) (places : Places) (own : Names) (h : Here) (held : ℕ → Bool) (ns : List Counter) (l : Left) → Counters (around home places own h) → AreHeld h held ns → is_even h.cells ns (left_here h (result_name h) true l) ≡ true → IsSoundLeft home h l
        → is_static h.cells ns (left_here h (result_name h) true l) ≡ true → IsFirm home places own h held l }
{}

/// A method with two calls meets what is asked of its statements.
pub fn a_worked_method_is_sound()
    ensures { (c : Location → Option ℕ) → IsSoundAt (home_of program made) (spoken_design program made c).places (own_names program made c 0 process) (here_of program made 0 process method) levels (here_of program made 0 process method) (λ o. false) 0 method.body }
{}

/// The number of a local or result that is numbered leads back to it.
pub fn a_number_leads_back()
    ensures { (p : Plain) (d : design.Design) (i : ℕ) (q : design.Process) (r : Root) → slice_get d.processes i ≡ Some q → list_any (same_root r) (numbered p i q.function) ≡ true
        → home_of p d i (number_of (numbered p i q.function) r) ≡ r }
{}

/// A loop isn't counted where a pointer leads to its counter, through which its turn may write it; without the pointer's aim it is, with two turns.
pub fn a_counter_behind_a_pointer_does_not_count()
    ensures aimed { counted_by aimed [] (Behind start) (Some count) turning End ≡ None }
    ensures counter { option_map (λ g. g.cell) (counted_by unaimed [] (Behind start) (Some count) turning End) ≡ Some 0 }
    ensures turns { option_map (λ g. length g.turns.list) (counted_by unaimed [] (Behind start) (Some count) turning End) ≡ Some 2 }
{}

/// The copied body of a process means the same as its function with calls.
pub fn a_copied_process_means_the_same()
    ensures { (p : Plain) (d : design.Design) (constant : Location → Option ℕ) (i : ℕ) (q : design.Process) → IsReady p d constant i q
        → MeansTheSame 1 (spoken_design p d constant) (copied_design p d constant) i (spoken_process p d constant i q) (copied_as_process p d constant i q) }
{}

/// A static value of a core is the machine's, where fixed locations hold their words.
pub fn a_static_value_holds()
    ensures { (home : Home) (p : prog.Program) (constant : Location → Option ℕ) (i : ℕ) → ((i n : ℕ) → is_own i (home i n) ≡ true) → OwnMoves p.cells
        → (names : Names) (signals : Location → ℕ) (s : Store) → ((l : Location) (w : ℕ) → (source_of home p constant).fixed l ≡ Some w → s.words l ≡ w)
        → (e : core.Term) (w : ℕ) → IsKinded e → static p.cells e ≡ Some w → value (core_scene home (source_of home p constant).places signals names s) (expr_of home p.cells i e) ≡ Some w }
{}

/// The core of an orderly program means what the program means, where no process changes what is fixed, nor assigns a pointer but at its declaration.
pub fn what_is_inlined_means_the_same()
    ensures { (p : Plain) (d : design.Design) (c : prog.Program) (constant : Location → Option ℕ) → IsOrderly p d → inlined p d ≡ Made c → Keeps (source_of (home_of p d) c constant)
        → SameDesign 1 (design_of p d constant) (source_of (home_of p d) c constant) }
{}

/// Each number of each process leads to a root of its own.
pub fn numbers_lead_home()
    ensures { (p : Plain) (d : design.Design) → IsOrderly p d → IsHome (home_of p d) }
{}

/// The worked program is orderly, and what is inlined of it means the same: the law's premises are met.
pub fn the_worked_program_means_the_same()
    ensures orderly { IsOrderly program made }
    ensures same { (constant : Location → Option ℕ) → SameDesign 1 (design_of program made constant) (source_of (home_of program made) (copied_program program made) constant) }
{}

/// Where parts of an expression say other kinds than their operators give, its static value isn't the machine's.
pub fn an_untyped_value_differs()
    ensures static_word { static [] untyped ≡ Some 0 }
    ensures word { (home : Home) (cs : Cells) (i : ℕ) (s : Scene) → value s (expr_of home cs i untyped) ≡ Some 1 }
{}

/// The names of a copied core tell its processes and locals apart.
pub fn a_copied_core_is_named()
    ensures { (p : Plain) (d : design.Design) → IsOrderly p d → IsNamed (copied_program p d) }
{}
