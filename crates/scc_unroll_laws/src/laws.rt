//! Laws on unrolled bodies.
ghost use Rattle.std.specs.Prelude.{◌≡◌, List};
ghost use Rattle.scc_core.specs.declared.copy.Counter.{Counter};
ghost use Rattle.scc_core.specs.declared.expr.CoreExpr.{CoreExpr};
ghost use Rattle.scc_core.specs.declared.expr.CoreLeft.{CoreLeft};
ghost use Rattle.scc_core.specs.Counters.{counted, counted_left};
ghost use Rattle.scc_core_spec.specs.Counted.{counting, counting_left, counting_pick};
ghost use Rattle.scc_core_view.specs.Terms.{taken_of, term_of};
ghost use Rattle.scc_unroll_laws.specs.Counters.{counters_of};

/// A copy with counters as literals stands for what its tree stands for, with the same counters as literals.
pub fn a_copy_counts()
    ensures terms { (ns : List Counter) (e : CoreExpr) → term_of (counted ns e) ≡ counting (counters_of ns) (term_of e) }
    ensures lefts { (ns : List Counter) (l : CoreLeft) → (taken_of (counted_left ns l)).left ≡ counting_left (counters_of ns) (taken_of l).left }
    ensures picks { (ns : List Counter) (l : CoreLeft) → (taken_of (counted_left ns l)).pick ≡ counting_pick (counters_of ns) (taken_of l).pick }
{}
