//! A law of the definitions by which local variables are declared.
ghost use Rattle.std.specs.Prelude.{◌≡◌, [], false, if◌then◌else◌, List, None, true, ℕ};
ghost use Rattle.scc_elab_spec.specs.Grown.{Grown};
ghost use Rattle.scc_elab_spec.specs.Made.{elements_at};
ghost use Rattle.scc_elab_works.specs.Clears.{is_element};
ghost use Rattle.scc_elab_works.specs.Paths.{all_cleared};
ghost use Rattle.scc_semantics.specs.Location.{Location};

/// A declaration makes each element of a variable 0, or null, and leaves what stands elsewhere.
pub fn declarations_clear_elements()
    ensures words { (o n : ℕ) (sizes : List ℕ) (g : Grown) (l : Location) → (all_cleared true o n (elements_at [] sizes) g).store.words l ≡ (if is_element o n sizes l then 0 else g.store.words l) }
    ensures targets { (o n : ℕ) (sizes : List ℕ) (g : Grown) (l : Location) → (all_cleared false o n (elements_at [] sizes) g).store.targets l ≡ (if is_element o n sizes l then None else g.store.targets l) }
    ensures other_words { (o n : ℕ) (sizes : List ℕ) (g : Grown) → (all_cleared false o n (elements_at [] sizes) g).store.words ≡ g.store.words }
    ensures other_targets { (o n : ℕ) (sizes : List ℕ) (g : Grown) → (all_cleared true o n (elements_at [] sizes) g).store.targets ≡ g.store.targets }
{}
