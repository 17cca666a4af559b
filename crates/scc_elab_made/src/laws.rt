//! Laws of the definitions by which constructors run.
ghost use Rattle.std.specs.Prelude.{◌≡◌, ◌∷◌, false, List, Option, true, ℕ};
ghost use Rattle.scc_base.specs.declared.refusal.Place.{Place};
ghost use Rattle.scc_elab_works.specs.Hows.{How};
ghost use Rattle.scc_elab_works.specs.Firsts.{begins_if, takes_first};
ghost use Rattle.scc_elab_works.specs.Works.{Stand, chosen_of, run_at};
ghost use Rattle.scc_elab_spec.specs.Program.{Code, Count, End, Loop, Plain};
ghost use Rattle.scc_elab_spec.specs.Worth.{Site};
ghost use Rattle.scc_elab_spec.specs.Construct.{Making, Now, looped, ran_in, then_run};
ghost use Rattle.scc_plain_tree.specs.declared.stmt.PlainStmt.{PlainStmt};
ghost use Rattle.scc_plain_view.specs.Codes.{code_of, stmt_code};

/// A statement runs before what follows it.
pub fn statements_run_in_order()
    ensures { (t : ℕ) (make : Making) (s : Site) (x : PlainStmt) (r : Code) (n : Now) → ran_in t make s (stmt_code x r) n ≡ then_run (ran_in t make s (stmt_code x End) n) (ran_in t make s r) }
{}

/// The first of some initialisers runs before the others, where it is one of those that are run.
pub fn initialisers_run_in_order()
    ensures taken { (p : Plain) (a : Stand) (x : PlainStmt) (xs : List PlainStmt) (h : How) (n : Now) → takes_first h (code_of (x ∷ xs)) ≡ true → run_at p a (chosen_of h (code_of (x ∷ xs))) n ≡ then_run (run_at p a (stmt_code x End) n) (run_at p a (chosen_of h (code_of xs))) }
    ensures left { (p : Plain) (a : Stand) (x : PlainStmt) (xs : List PlainStmt) (h : How) (n : Now) → takes_first h (code_of (x ∷ xs)) ≡ false → run_at p a (chosen_of h (code_of (x ∷ xs))) n ≡ run_at p a (chosen_of h (code_of xs)) n }
{}

/// A loop whose body begins with an `if` tests by it before each turn.
pub fn loops_test_before_turns()
    ensures tested { (t : ℕ) (make : Making) (s : Site) (x : PlainStmt) (q : Place) (c : Option Count) (r k : Code) (n : Now) → begins_if (stmt_code x End) ≡ true → ran_in t make s (Loop q c (stmt_code x r) k) n ≡ looped t q (ran_in t make s (stmt_code x End)) (ran_in t make s r) n }
    ensures whole { (t : ℕ) (make : Making) (s : Site) (x : PlainStmt) (q : Place) (c : Option Count) (r k : Code) (n : Now) → begins_if (stmt_code x End) ≡ false → ran_in t make s (Loop q c (stmt_code x r) k) n ≡ looped t q (ran_in t make s End) (ran_in t make s (stmt_code x r)) n }
{}
