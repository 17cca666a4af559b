//! Laws on the numbers of locals.
ghost use Rattle.std.specs.Prelude.{◌≡◌, ◌∷◌, ◌++◌, ℕ, List, []};
ghost use Rattle.scc_elab_spec.specs.Numbering.{Calling, declares, once};
ghost use Rattle.scc_elab_spec.specs.Program.{End};
ghost use Rattle.scc_plain_tree.specs.declared.stmt.PlainStmt.{PlainStmt};
ghost use Rattle.scc_plain_view.specs.Codes.{code_of, stmt_code};
ghost use Rattle.scc_semantics.specs.Location.{Root};
ghost use Rattle.scc_inline.specs.Named.{added};

/// Locals that are named one by one are numbered as the definition numbers them.
pub fn locals_are_numbered_one_by_one()
    ensures { (rs : List Root) → added [] rs ≡ once [] rs }
{}

/// A list of statements names what its first statement names, and then what the others name.
pub fn locals_are_named_statement_by_statement()
    ensures { (call : Calling) (i : ℕ) (cs : List ℕ) (roots : List Root) (s : PlainStmt) (ss : List PlainStmt)
        → added roots (declares call i cs (code_of (s ∷ ss))) ≡ added (added roots (declares call i cs (stmt_code s End))) (declares call i cs (code_of ss)) }
{}
