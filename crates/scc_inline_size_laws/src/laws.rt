//! Laws on what copied bodies come to.
ghost use Rattle.std.specs.Prelude.{◌≡◌, ◌≤◌, ◌<◌, ℕ, suc, min, List, Some, slice_get};
ghost use Rattle.scc_base.specs.declared.code.Code.TheVariants as reason;
ghost use Rattle.scc_core_spec.specs.Term as core;
ghost use Rattle.scc_core_spec.specs.Code as stmt;
ghost use Rattle.scc_core_spec.specs.First.{when, refused};
ghost use Rattle.scc_elab_spec.specs.Bodies.{Calling};
ghost use Rattle.scc_elab_spec.specs.Copied.{Here};
ghost use Rattle.scc_elab_spec.specs.Design as design;
ghost use Rattle.scc_elab_spec.specs.Design.{Design};
ghost use Rattle.scc_elab_spec.specs.Program.{Code, Function, Plain};
ghost use Rattle.scc_inline_spec.specs.Inlined.{body_of, too_large};
ghost use Rattle.scc_inline_size_laws.specs.Counts.{Comes, StandsStill, deep, height_in, is_too_large, many, passes, size_in};

/// How deep the copy of a function's code nests, up to a level, is told by how deep the copies of called functions nest, up to the level below.
#[tactic(auto, using(crate::proofs::Counting::high))]
pub fn heights_are_told_by_functions()
    ensures { (m : ℕ) (heights : ℕ → ℕ) (call : Calling) (h : Here) → ((n : ℕ) (cs : List ℕ) (this : core.Left) → min (stmt.height (call cs n this)) m ≡ min (heights n) m)
        → (c : Code) (d : ℕ) (before : List ℕ) → min (stmt.height (body_of call h d before c)) (suc m) ≡ min (height_in heights h.plain h.function c) (suc m) }
{}

/// How many statements it has is told by how many these have, where it nests at most so deep.
#[tactic(auto, using(crate::proofs::Counting::long))]
pub fn sizes_are_told_by_functions()
    ensures { (m : ℕ) (heights sizes : ℕ → ℕ) (call : Calling) (h : Here) → ((n : ℕ) (cs : List ℕ) (this : core.Left) → heights n < m → many (stmt.size (call cs n this)) ≡ many (sizes n))
        → (c : Code) (d : ℕ) (before : List ℕ) → height_in heights h.plain h.function c ≤ m → many (stmt.size (body_of call h d before c)) ≡ many (size_in sizes h.plain h.function c) }
{}

/// What a function's copied body comes to is told by what those of all functions come to.
pub fn a_function_comes_to_what_it_calls()
    ensures { (p : Plain) (heights sizes : ℕ → ℕ) → ((n : ℕ) → Comes p n (sizes n) (heights n)) → (n : ℕ) (f : Function) → slice_get p.functions n ≡ Some f → Comes p n (size_in sizes p f f.body) (height_in heights p f f.body) }
{}

/// Counts that stand still past their limits tell the same.
pub fn counts_past_limits_are_alike()
    ensures { (p : Plain) (n size height : ℕ) → Comes p n size height → Comes p n (many size) (deep height) }
{}

/// E601 is told by what the copied bodies of functions come to.
pub fn too_large_is_told_by_functions()
    ensures { (p : Plain) (heights sizes : ℕ → ℕ) → ((n : ℕ) → Comes p n (sizes n) (heights n)) → (d : Design) (i : ℕ) (q : design.Process) (f : Function) → slice_get p.functions q.function ≡ Some f
        → too_large p d i q ≡ when (is_too_large sizes heights p f) (refused reason.TooLarge q.place) }
{}

/// Counts of functions that stand still are what their copied bodies come to.
pub fn counts_that_stand_still_tell()
    ensures { (p : Plain) (heights sizes : ℕ → ℕ) → StandsStill p heights sizes → (n : ℕ) → Comes p n (sizes n) (heights n) }
{}

/// E601 is told by counts that stand still.
pub fn too_large_is_told_by_counts_that_stand_still()
    ensures { (p : Plain) (heights sizes : ℕ → ℕ) → StandsStill p heights sizes → (d : Design) (i : ℕ) (q : design.Process)
        → too_large p d i q ≡ when (passes (sizes q.function) (heights q.function)) (refused reason.TooLarge q.place) }
{}
