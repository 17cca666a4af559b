//! Laws that stand on the definitions alone.
ghost use Rattle.std.specs.Prelude.{◌≡◌, ℕ, Bool, true, false, None, Some, List, slice_get};
ghost use Rattle.scc_svtree.specs.declared.module.SvModule.{SvModule};
ghost use Rattle.scc_svtree.specs.Code.{Code, code_of};
ghost use Rattle.scc_svtree.specs.Running.{run};
ghost use Rattle.scc_svtree.specs.Steps.{StepInput, SettlesTo, Steps};
ghost use Rattle.scc_svtree.specs.Variables.{width_at};
ghost use Rattle.scc_core_spec.specs.Program.{Program, Process};
ghost use Rattle.scc_blocks_spec.specs.Tied.{Registers, Mirrors};
ghost use Rattle.scc_blocks_spec.specs.Turns.{Regs, Left, turn, settled};
ghost use Rattle.scc_blocks_run_laws.specs.Blocks.{IsBlock, IsProper};
ghost use Rattle.scc_blocks_run_laws.specs.Follows.{IsSteady, IsModuleOf, ModuleFollows, StepsFollow};
ghost use Rattle.scc_semantics.specs.Location.{Location};
ghost use Rattle.scc_core_spec.specs.Feeding.{IsOrder};
ghost use Rattle.scc_core_spec.specs.Program.{is_combinational};
ghost use Rattle.scc_blocks_spec.specs.Renamed.{code_as};
ghost use Rattle.scc_blocks_run_laws.specs.Blocks.{Built, IsEdge};
ghost use Rattle.scc_blocks_run_laws.specs.Follows.{IsRanked};
ghost use Rattle.scc_blocks_run_laws.specs.Pieces.{firsts_code};
ghost use Rattle.scc_blocks_laws.specs.Shots.{IsNamed, ModuleShowsRegs};
ghost use Rattle.scc_blocks_laws.specs.Worked.{passing_on, passing_process, passing_numbers, passing_body, handing, handing_registers, handing_module};
ghost use Rattle.scc_blocks_laws.specs.WorkedThread.{sync, sync_process, sync_block, pulse, pulse_process, pulse_registers, pulse_module, pulse_id, pulse_block, pulse_wide, pulse_numbers};
ghost use Rattle.scc_blocks_run_laws.specs.Leaves.{Sees, IsReady, LeavesTurn, Stores};

/// A run of a process's block leaves what the process's turn leaves.
pub fn a_block_makes_the_turn_of_its_process()
    ensures { (p : Program) (r : Registers) (m : SvModule) (i : ℕ) (q : Process) (code : Code) (b : IsBlock p r m i q code) (g : Regs) → IsSteady p r → IsProper p r g → (x : ℕ → ℕ) → Sees p r i q x g
        → (l : Left) → (q.is_thread ≡ true → IsReady i q g) → slice_get p.processes i ≡ Some q → turn p i q g ≡ Some l → LeavesTurn p i q b.wide b.numbers l (run (width_at m.vars) code x) }
{}

/// What is settled mirrors registers that are settled.
pub fn a_settled_valuation_mirrors_settled_registers()
    ensures { (many : Bool) (p : Program) (r : Registers) (m : SvModule) (mo : IsModuleOf many p r m) (x z : ℕ → ℕ) → SettlesTo m x z → (g : Regs) → IsProper p r g → Stores p r m mo.built x g → Mirrors p r z (settled p g) }
{}

/// Step by step the module of a core shows what its registers show, and it goes through all steps.
pub fn a_module_follows_registers()
    ensures step { (many : Bool) (p : Program) (r : Registers) (m : SvModule) (mo : IsModuleOf many p r m) → ModuleFollows p r m mo.built.clock_variable }
    ensures steps { (many : Bool) (p : Program) (r : Registers) (m : SvModule) (mo : IsModuleOf many p r m) → StepsFollow p r m mo.built.clock_variable }
    ensures runs { (many : Bool) (p : Program) (r : Registers) (m : SvModule) → IsModuleOf many p r m → (ss : List StepInput) (x : ℕ → ℕ) → (seen : List (List (ℕ → ℕ))) × Steps m x ss seen }
{}

/// What is observed of it, outputs and registers by their locations, is what the registers hold.
pub fn a_module_shows_registers()
    ensures { (many : Bool) (p : Program) (r : Registers) (m : SvModule) (mo : IsModuleOf many p r m) (text : Location → List ℕ) (at : Location → ℕ) (outputs : List ℕ) → IsNamed text at r m outputs
        → ModuleShowsRegs text at p r m mo.built.clock_variable outputs }
{}

/// An order of the combinational methods gives each a rank above those that feed it.
pub fn an_order_ranks_methods()
    ensures { (p : Program) (order : List ℕ) → IsOrder p order → ((i : ℕ) (q : Process) → slice_get p.processes i ≡ Some q → is_combinational q ≡ true → q.reset ≡ None) → (rank : ℕ → ℕ) × IsRanked p rank }
{}

/// A module that hands an input on is built of its core, which is steady; the block and the edge of a thread with an asynchronous reset, two states and a counter.
pub fn worked_modules_are_built()
    ensures built { Built handing handing_registers handing_module }
    ensures steady { IsSteady handing handing_registers }
    ensures whole { IsModuleOf false handing handing_registers handing_module }
    ensures method { IsBlock passing_on handing_registers handing_module 0 passing_process (firsts_code passing_numbers.width passing_numbers.firsts passing_body) }
    ensures block { IsBlock pulse pulse_registers pulse_module 0 pulse_process (code_as pulse_id pulse_block) }
    ensures sequential { IsBlock sync pulse_registers pulse_module 0 sync_process (code_as pulse_id sync_block) }
    ensures edge { IsEdge pulse pulse_registers pulse_module (λ c. c) 0 pulse_process (record { cell = 0; rising = true }) pulse_wide pulse_numbers }
{}
