//! A law on copies.
ghost use Rattle.std.specs.Prelude.{◌≡◌, ℕ};
ghost use Rattle.scc_core.specs.declared.expr.CoreExpr.{CoreExpr};
ghost use Rattle.scc_core.specs.declared.expr.CoreLeft.{CoreLeft};
ghost use Rattle.scc_core_spec.specs.Renumbered.{renamed, renamed_left, renamed_pick};
ghost use Rattle.scc_core_view.specs.Terms.{taken_of, term_of};
ghost use Rattle.scc_pointers_numbers.specs.Numbered.{numbered, numbered_left};

/// A copy with other numbers stands for what the tree stands for, with these numbers.
pub fn numbered_copies_are_renamed()
    ensures expressions { (f : ℕ → ℕ) (e : CoreExpr) → term_of (numbered f e) ≡ renamed f (term_of e) }
    ensures locations { (f : ℕ → ℕ) (l : CoreLeft) → (taken_of (numbered_left f l)).left ≡ renamed_left f (taken_of l).left }
    ensures picks { (f : ℕ → ℕ) (l : CoreLeft) → (taken_of (numbered_left f l)).pick ≡ renamed_pick f (taken_of l).pick }
{}
