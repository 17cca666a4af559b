//! Laws that cite the definitions.
ghost use Rattle.std.specs.Prelude.{◌≡◌, ℕ, List, map};
ghost use Rattle.scc_templates_spec.specs.Walk.{Args};
ghost use Rattle.scc_templates_spec.specs.World.{Member, count};
ghost use Rattle.scc_templates_scopes.specs.Chains.{Apart, counted, number_of};

/// The members of a chain, each by the number of its instance, count as the definition counts them.
pub fn chains_are_counted()
    ensures { (n : ℕ → Args → ℕ) (ms : List Member) → Apart n ms → counted (map (number_of n) ms) ≡ count ms }
{}
