//! Laws that cite the definitions.
ghost use Rattle.std.specs.Prelude.{◌≡◌, ℕ, ◌+◌, ◌++◌, List, [], Option, Some, None, true, false, slice_get};
ghost use Rattle.scc_semantics.specs.Location.{Location};
ghost use Rattle.scc_semantics.specs.Places.{Places};
ghost use Rattle.scc_semantics.specs.Store.{Request};
ghost use Rattle.scc_semantics.specs.Body.{Body};
ghost use Rattle.scc_semantics.specs.Design as running;
ghost use Rattle.scc_semantics.specs.Machine.{Frames, Suspended, run};
ghost use Rattle.scc_semantics.specs.Start.{IsProper};
ghost use Rattle.scc_semantics.specs.Value.{Held};
ghost use Rattle.scc_core_spec.specs.Code.{Code, End, append, numbered, waits_in};
ghost use Rattle.scc_core_spec.specs.Live.{alive, live};
ghost use Rattle.scc_core_spec.specs.Flow.{idle, idle_loops};
ghost use Rattle.scc_core_spec.specs.Program.{Program, Process};
ghost use Rattle.scc_core_spec.specs.Rules.{end_reached, loop_may_not_wait, wait_in_method};
ghost use Rattle.scc_core_spec.specs.Segments.{Segment, segment, segments, behind as after_block};
ghost use Rattle.scc_core_spec.specs.Source.{Home, source_of};
ghost use Rattle.scc_core_spec.specs.Static.{Cells};
ghost use Rattle.scc_blocks_spec.specs.Comes.{Comes, Keeps, fresh};
ghost use Rattle.scc_states_laws.specs.Alike.{acting_of, Alike, IsFitCode, TellsApart};
ghost use Rattle.scc_states_path_laws.specs.Aside.{aside, behind};
ghost use Rattle.scc_core_spec.specs.Exits.{exits_within};
ghost use Rattle.scc_states_laws.specs.InTime.{CoreInTime, DesignInTime, NeverStuck};
ghost use Rattle.scc_states_path_laws.specs.Moved.{World, effect_on, Fell};
ghost use Rattle.scc_states_laws.specs.Processes.{HoldsFixed, Reached, running_of, world_of};
ghost use Rattle.scc_states_path_laws.specs.Tracks.{MayEnd, Tracks};
ghost use Rattle.scc_states_laws.specs.Turned.{ComesToWaits, IsDone, MakesTurns, MethodTurns, ThreadTurns};
ghost use Rattle.scc_states_path_laws.specs.Within.{Tests};

/// No statements leave what they find.
pub fn nothing_moves()
    ensures { (w : World) (h : Held) → effect_on w End h ≡ Fell h }
{}

/// A thread of whose loops none may come round without a wait is tracked by its place.
pub fn a_thread_is_tracked_by_its_place()
    ensures { (home : Home) (constant : Location → Option ℕ) (p : Program) (i : ℕ) (q : running.Process) (signals : Location → ℕ) (c : Code)
        → Keeps (source_of home p constant) → slice_get (source_of home p constant).processes i ≡ Some q
        → Tests (world_of home constant p i signals) (HoldsFixed (source_of home p constant)) c → idle_loops (live p.cells c) ≡ []
        → Tracks (world_of home constant p i signals) c (Reached (source_of home p constant) i q signals) }
{}

/// A resume of a thread, with or without reset, is a turn of its registers.
pub fn a_resume_of_a_thread_is_a_turn()
    ensures { (home : Home) (constant : Location → Option ℕ) (p : Program) (i : ℕ) (q : Process) (signals : Location → ℕ)
        → slice_get p.processes i ≡ Some q → Keeps (source_of home p constant) → TellsApart home p i q → IsFitCode q p.cells q.body → loop_may_not_wait p ≡ None
        → ThreadTurns home constant p i q signals (Reached (source_of home p constant) i (running_of home p i q) signals) }
{}

/// A run of a method is a turn of its registers.
pub fn a_run_of_a_method_is_a_turn()
    ensures { (home : Home) (constant : Location → Option ℕ) (p : Program) (i : ℕ) (q : Process) (signals : Location → ℕ)
        → slice_get p.processes i ≡ Some q → Keeps (source_of home p constant) → TellsApart home p i q → IsFitCode q p.cells q.body → loop_may_not_wait p ≡ None
        → wait_in_method p ≡ None → q.is_thread ≡ false → exits_within 0 q.body ≡ true
        → MethodTurns home constant p i q signals (Reached (source_of home p constant) i (running_of home p i q) signals) }
{}

/// No segment of a thread fails, whatever the registers hold, where its body fits and no loop may come round without a wait.
pub fn a_thread_makes_its_turns()
    ensures { (p : Program) (i : ℕ) (q : Process) → slice_get p.processes i ≡ Some q → IsFitCode q p.cells q.body → loop_may_not_wait p ≡ None → MakesTurns p.cells q }
{}

/// No method is lost, where its body fits and it has no wait.
pub fn a_method_is_done()
    ensures { (p : Program) (i : ℕ) (q : Process) → slice_get p.processes i ≡ Some q → IsFitCode q p.cells q.body → loop_may_not_wait p ≡ None
        → wait_in_method p ≡ None → q.is_thread ≡ false → exits_within 0 q.body ≡ true → IsDone p.cells q }
{}

/// A thread that is suspended may go on from where it stands, from any proper words.
pub fn a_suspended_thread_goes_on()
    ensures { (d : running.Design) (i : ℕ) (p : running.Process) (signals : Location → ℕ) (n : ℕ) (f g : Frames) (h k : Held) (now words : Location → ℕ)
        → IsProper d now → IsProper d words → Reached d i p signals f h → run d.places d.functions signals n f h ≡ Suspended g k → Comes d i p now g (fresh words k.store.targets) }
{}

/// A thread of which no path comes to the end, and whose exits leave blocks that stand around, never ends.
pub fn a_thread_never_ends()
    ensures { (cs : Cells) (c : Code) → exits_within 0 c ≡ true → (alive cs c).ends ≡ false → MayEnd cs c → ⊥ }
{}

/// A run does not look at what was asked before it.
pub fn requests_stand_aside()
    ensures { (rs : List Request) (places : Places) (functions : ℕ → Body) (signals : Location → ℕ) (n : ℕ) (f : Frames) (h : Held)
        → run places functions signals n f (behind rs h) ≡ aside rs (run places functions signals n f h) }
{}

/// The segment of one list behind another, and what follows its waits.
pub fn lists_are_cut_one_behind_another()
    ensures segment { (a b : Code) (n : ℕ) (next : Segment) (outer : List Segment)
        → segment (numbered n (append a b)) next outer ≡ segment (numbered n a) (segment (numbered (n + waits_in a) b) next outer) outer }
    ensures segments { (a b : Code) (n : ℕ) (next : Segment) (outer : List Segment)
        → segments (numbered n (append a b)) next outer ≡ segments (numbered n a) (segment (numbered (n + waits_in a) b) next outer) outer ++ segments (numbered (n + waits_in a) b) next outer }
{}

/// A segment turns on what follows it only where a path without a wait comes there: the loop again may stand for the end of a loop's body.
pub fn a_segment_turns_on_what_it_comes_to()
    ensures { (cs : Cells) (c : Code) (n : ℕ) (s t : Segment) (outer more : List Segment) → idle_loops (live cs c) ≡ [] → ((idle (live cs c)).ends ≡ true → s ≡ t)
        → ((j : ℕ) → (idle (live cs c)).leaves j ≡ true → after_block j outer ≡ after_block j more)
        → segment (numbered n (live cs c)) s outer ≡ segment (numbered n (live cs c)) t more }
{}

/// To any store some registers are alike.
pub fn registers_are_alike_to_any_store()
    ensures { (home : Home) (p : Program) (signals : Location → ℕ) (h : Held) → Alike home p signals (acting_of home p signals h) h }
{}

/// Each resume of a thread, with or without reset, comes to a wait within the bound of its body, and is never stuck.
pub fn a_thread_comes_to_its_waits()
    ensures { (home : Home) (constant : Location → Option ℕ) (p : Program) (i : ℕ) (q : Process) (signals : Location → ℕ)
        → slice_get p.processes i ≡ Some q → Keeps (source_of home p constant) → TellsApart home p i q → IsFitCode q p.cells q.body → loop_may_not_wait p ≡ None → end_reached p ≡ None
        → q.is_thread ≡ true → exits_within 0 q.body ≡ true
        → ComesToWaits home constant p i q signals (Reached (source_of home p constant) i (running_of home p i q) signals) }
{}

/// What is left to prove of the bound on steps.
pub fn bounds_are_stated()
    ensures core { (home : Home) (p : Program) → CoreInTime home p → CoreInTime home p }
    ensures design { (d : running.Design) (p : Program) → DesignInTime 3 d p → DesignInTime 3 d p }
    ensures stuck { (home : Home) (p : Program) → NeverStuck home p → NeverStuck home p }
{}
