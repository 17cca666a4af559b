//! Laws that cite the definitions.
ghost use Rattle.std.specs.Prelude.{◌≡◌, ℕ, List, [], ◌∷◌, ◌++◌, codes, decimal, Option, Some, None, true, false, map, flat_map, length, slice_get};
ghost use Rattle.scc_semantics.specs.Location.{Location};
ghost use Rattle.scc_semantics.specs.Process.{State};
ghost use Rattle.scc_semantics.specs.Design.{Design};
ghost use Rattle.scc_svtree.specs.Code as emitted_code;
ghost use Rattle.scc_svtree.specs.Term as emitted;
ghost use Rattle.scc_core_spec.specs.Term.{Term};
ghost use Rattle.scc_core_spec.specs.Program.{Program, Process};
ghost use Rattle.scc_core_spec.specs.Code.{Code, End};
ghost use Rattle.scc_core_spec.specs.Static.{Cells};
ghost use Rattle.scc_core_spec.specs.Feeding.{IsOrder};
ghost use Rattle.scc_core_spec.specs.Flow.{flow};
ghost use Rattle.scc_core_spec.specs.Worked.{count_body, count_cells};
ghost use Rattle.scc_core_spec.specs.WorkedRules.{at};
ghost use Rattle.scc_core_spec.specs.WorkedRun.{counting, counting_process, design, home};
ghost use Rattle.scc_blocks_spec.specs.Acting.{Acting};
ghost use Rattle.scc_blocks_spec.specs.Effect.{Place, effect, Fell};
ghost use Rattle.scc_blocks_spec.specs.Shown.{Sight, Shows};
ghost use Rattle.scc_blocks_spec.specs.Lowered.{IsLoweredTerm, IsLoweredCode};
ghost use Rattle.scc_blocks_spec.specs.WorkedLowered.{as_itself, eight, its_text, gives_three, three};
ghost use Rattle.scc_core_spec.specs.Worked.{load};
ghost use Rattle.scc_blocks_spec.specs.Edged.{own_view};
ghost use Rattle.scc_blocks_spec.specs.WorkedEdged.{by_number, clocked_by};
ghost use Rattle.scc_blocks_spec.specs.WorkedClocks.{asynchronous, two_clocks};
ghost use Rattle.scc_blocks_spec.specs.Turns.{Regs};
ghost use Rattle.scc_blocks_spec.specs.Places.{frames_at};
ghost use Rattle.scc_blocks_spec.specs.Tied.{Tied, Mirrors, MirrorsRegisters, Registers, own_names};
ghost use Rattle.scc_blocks_spec.specs.Passed.{Law, SameShape, TellsAccepted, thread_of};
ghost use Rattle.scc_blocks_spec.specs.Names.{registers, is_own, location_text, is_kept_at};
ghost use Rattle.scc_blocks_spec.specs.Listed.{process_line};
ghost use Rattle.scc_trace.specs.Text.{hex_text};
ghost use Rattle.scc_blocks_spec.specs.Traced.{trace_from, IsTrace, IsClockedTrace};
ghost use Rattle.scc_blocks_spec.specs.Generated.{IsGenerated, generated_line, steps_of};
ghost use Rattle.scc_blocks_spec.specs.WorkedGenerated.{passing};
ghost use Rattle.scc_svtree.specs.Steps.{Steps};
ghost use Rattle.scc_blocks_spec.specs.Built.{Acts, AtEdge, owners, constant_outputs, InOrder, HasRegisters, IsBounded};
ghost use Rattle.scc_svtree.specs.declared.module.SvModule.{SvModule};
ghost use Rattle.scc_blocks_spec.specs.Worked.{anything, first_edge, second_edge, first_frames_in, registers_after, words_after, waiting_thread, waiting_body, count_first, two_outputs, unwritten_local, unwritten_member, reader_first, some_cells, early_code};
ghost use Rattle.scc_core_spec.specs.Source.{Home};

/// The counting thread on registers: 0 at its reset, 1 behind the next edge; it stands behind wait 0, then behind wait 1.
pub fn registers_count()
    ensures zero { first_edge.word 2 ≡ 0 }
    ensures place { first_edge.place 0 ≡ Some (record { number = 0; left = 0 }) }
    ensures one { second_edge.word 2 ≡ 1 }
    ensures next { second_edge.place 0 ≡ Some (record { number = 1; left = 0 }) }
    ensures kept { registers counting ≡ 2 ∷ 3 ∷ [] }
{}

/// Threads on registers: a wait for five edges that a reset ends, at which the thread stands behind wait 1 with two edges to wait for; an output that is read
/// shows what was written before; a local that is read and that nothing writes is a register; a member that no process writes has its constant, and no register.
pub fn registers_wait_and_are_reset()
    ensures waits { words_after 2 waiting_thread (1 ∷ 0 ∷ 0 ∷ 0 ∷ 1 ∷ 0 ∷ 0 ∷ 0 ∷ 0 ∷ 0 ∷ 0 ∷ []) ≡ 0 ∷ 1 ∷ 1 ∷ 1 ∷ 0 ∷ 1 ∷ 1 ∷ 1 ∷ 1 ∷ 1 ∷ 0 ∷ [] }
    ensures place { map (λ g. g.place 0) (registers_after waiting_thread (1 ∷ 0 ∷ 0 ∷ 0 ∷ []) anything) ≡
        Some (record { number = 0; left = 0 }) ∷ Some (record { number = 1; left = 4 }) ∷ Some (record { number = 1; left = 3 }) ∷ Some (record { number = 1; left = 2 }) ∷ [] }
    ensures frames { count_first (frames_at home count_cells 0 (own_names 0) waiting_body (record { number = 1; left = 2 })) ≡ Some 2 }
    ensures written { words_after 2 two_outputs (1 ∷ 0 ∷ 0 ∷ []) ≡ 0 ∷ 3 ∷ 3 ∷ [] }
    ensures read { words_after 3 two_outputs (1 ∷ 0 ∷ 0 ∷ []) ≡ 0 ∷ 0 ∷ 3 ∷ [] }
    ensures unwritten { registers unwritten_local ≡ 1 ∷ 3 ∷ [] }
    ensures constant { words_after 2 unwritten_member (1 ∷ 0 ∷ 0 ∷ []) ≡ 0 ∷ 3 ∷ 3 ∷ [] }
    ensures member { registers unwritten_member ≡ 2 ∷ [] }
{}

/// The frames of its first suspension are those of its place; the registers are tied to a state, and mirrored by a valuation.
pub fn waits_have_frames()
    ensures frames { frames_at home count_cells 0 (own_names 0) count_body (record { number = 0; left = 0 }) ≡ first_frames_in design.processes }
    ensures tied { (h : Home) (p : Program) (s : State) (g : Regs) (i : ℕ) (q : Process) (place : Place) → Tied h p s g → slice_get p.processes i ≡ Some q → q.is_thread ≡ true → g.place i ≡ Some place → frames_at h p.cells i (own_names i) q.body place ≡ Some (s.frames i) }
    ensures mirrored { (p : Program) (r : Registers) (y : ℕ → ℕ) (g : Regs) → Mirrors p r y g → MirrorsRegisters p r y g }
{}

/// No statements leave what they find, and are no statements of emitted text.
pub fn valuations_show_stores()
    ensures nothing { (cs : Cells) (a : Acting) → effect cs End a ≡ Fell a }
    ensures term { (s : Sight) (width : ℕ → ℕ) (e : Term) (front : emitted_code.Code) (t : emitted.Term) → IsLoweredTerm s width e front t → IsLoweredTerm s width e front t }
    ensures code { (s : Sight) (width : ℕ → ℕ) (c : Code) (code : emitted_code.Code) → IsLoweredCode s width c code → IsLoweredCode s width c code }
    ensures leaving { (s : Sight) (a : Acting) (x : ℕ → ℕ) → Shows s a x → Shows s a x }
{}

/// A variable that is read and written as itself is lowered by the variable of its cell, and an assignment to it by one to that variable.
pub fn a_variable_is_lowered_as_itself()
    ensures term { IsLoweredTerm as_itself eight (load 0) emitted_code.End its_text }
    ensures code { IsLoweredCode as_itself eight three gives_three }
{}

/// A pass keeps what its law says; the rules tell what paths do.
pub fn passes_keep_shapes()
    ensures shape { (k : ℕ) (constant : Location → Option ℕ) (c m : Program) → Law k constant c m → SameShape c m }
    ensures rules { (p : Program) → TellsAccepted p → TellsAccepted p }
    ensures waits { (thread_of count_cells 0 (record { is_thread = true; name = record { path = []; own = None; indices = [] }; place = at 0; senses = []; edge = None; reset = None; body = count_body })).waits ≡ 1 ∷ 1 ∷ [] }
{}

/// A module of a core has the blocks of its processes, its registers, and no more statements than its measure allows.
pub fn modules_are_built_of_processes()
    ensures blocks { owners counting [] ≡ Acts 0 ∷ AtEdge 0 ∷ [] }
    ensures order { owners reader_first (1 ∷ 0 ∷ []) ≡ Acts 1 ∷ Acts 0 ∷ [] }
    ensures constants { constant_outputs counting ≡ [] }
    ensures mentions { (text : ℕ → List ℕ) (p : Program) (m : SvModule) → InOrder text p m → (order : List ℕ) × IsOrder p order }
    ensures state { (text : ℕ → List ℕ) (p : Program) (m : SvModule) → HasRegisters text p m → HasRegisters text p m }
    ensures bounded { (p : Program) (m : SvModule) → IsBounded p m → IsBounded p m }
{}

/// A block at an edge has the clock and the edge of its own process, and its asynchronous reset: the counting thread's stands at no other clock.
pub fn an_edge_is_that_of_its_process()
    ensures alone { own_view by_number count_cells counting_process ≡ record { clock = 0 ∷ []; rising = true; reset = None } ∷ [] }
    ensures reset { own_view by_number count_cells asynchronous ≡ record { clock = 0 ∷ []; rising = true; reset = Some (1 ∷ [], true) } ∷ [] }
    ensures clocks { flat_map (own_view by_number two_clocks.cells) two_clocks.processes ≡ record { clock = 0 ∷ []; rising = true; reset = None } ∷ record { clock = 1 ∷ []; rising = true; reset = None } ∷ [] }
    ensures own { InOrder by_number counting (clocked_by 0) }
    ensures other { InOrder by_number counting (clocked_by 1) → ⊥ }
{}

/// The writer of a signal comes first.
pub fn a_reader_stands_behind_its_writer()
    ensures { IsOrder reader_first (1 ∷ 0 ∷ []) }
{}

/// Of an array of which one element may not have been written, that element is read too early.
pub fn an_element_is_read_early()
    ensures { map (λ e. e.1) (flow some_cells early_code (λ x. true)).early ≡ (0 ∷ []) ∷ (0 ∷ []) ∷ (2 ∷ []) ∷ [] }
{}

/// The trace of a design, with one clock and with several.
pub fn the_trace_of_a_design()
    ensures none { (text : Location → List ℕ) (d : Design) → trace_from text d 0 [] ≡ [] }
    ensures trace { (text : Location → List ℕ) (d : Design) (file : ℕ) (stimulus trace : List ℕ) → IsTrace text d file stimulus trace → IsTrace text d file stimulus trace }
    ensures clocked { (text : Location → List ℕ) (d : Design) (file : ℕ) (stimulus trace : List ℕ) → IsClockedTrace text d file stimulus trace → IsClockedTrace text d file stimulus trace }
{}

/// The line of a generated design. A module that hands on what stands at d shows 1 behind the edges of two steps.
pub fn the_line_of_a_generated_design()
    ensures line { generated_line 1 counting (record { name = []; vars = []; blocks = [] }) 7 ≡ codes "stages " ++ (decimal 1 ++ (codes " processes " ++ (decimal 1 ++ (codes " registers " ++ (decimal 0
        ++ (codes " states " ++ (decimal 2 ++ (codes " q " ++ (hex_text 4 7 ++ codes "\n"))))))))) }
    ensures steps { (m : SvModule) → length (steps_of m 2) ≡ 3 }
    ensures ran { (n : ℕ) (p : Program) (m : SvModule) (line : List ℕ) → IsGenerated n p m line → (observed : List (List (ℕ → ℕ))) × Steps m (λ v. 0) (steps_of m n) observed }
    ensures passes { IsGenerated 1 counting passing (generated_line 1 counting passing 1) }
{}

/// The line of the counting thread, and which names are a thread's own.
pub fn the_list_of_the_counting_thread()
    ensures line { process_line (λ n. codes "run") count_cells counting_process ≡ codes "thread run states " ++ (decimal 2 ++ (codes " steps " ++ (decimal 72 ++ (codes " statements " ++ (decimal 9 ++ codes "\n"))))) }
    ensures own { (text : ℕ → List ℕ) → is_own text (record { top = 0; cells = []; vectors = []; processes = [] }) [] ≡ false }
    ensures kept { (l : Location) → is_kept_at home (record { top = 0; cells = []; vectors = []; processes = [] }) l ≡ false }
    ensures name { (text : ℕ → List ℕ) (l : Location) → location_text home (record { top = 0; cells = []; vectors = []; processes = [] }) text l ≡ [] }
{}
