//! Laws that cite the definitions.
ghost use Rattle.std.specs.Prelude.{◌≡◌, [], ◌∷◌, map, Some};
ghost use Rattle.scc_base.specs.declared.code.Code.TheVariants as reason;
ghost use Rattle.scc_tree.specs.declared.item.FileTree.{FileTree};
ghost use Rattle.scc_templates_spec.specs.Walk.{Fault};
ghost use Rattle.scc_templates_spec.specs.Tree.{Name, Given};
ghost use Rattle.scc_templates_spec.specs.ReplaceBody.{replace_stmts};
ghost use Rattle.scc_templates_spec.specs.SourceView.{source_of, top_of};
ghost use Rattle.scc_templates_spec.specs.Twice.{twice};
ghost use Rattle.scc_templates_spec.specs.WorkedSource.{at, both, same_params, bound, eight, body};

/// A source has the declarations of its tree.
pub fn a_source_is_its_tree()
    ensures { (t : FileTree) → (source_of t).items ≡ map top_of t.items }
{}

/// A local variable hides a parameter of its name, in its own value too.
pub fn parameters_are_replaced()
    ensures hidden { replace_stmts bound (body (Name (at 2) 22) (Name (at 4) 22)) ≡ body (Name (at 2) 22) (Name (at 4) 22) }
    ensures other { replace_stmts (λ x. Some eight) (body (Name (at 2) 23) (Name (at 4) 22)) ≡ body (Given (at 2) eight) (Name (at 4) 22) }
{}

/// A class that is declared again is refused there; the other place is the first. The parameters of a template come before its name.
pub fn names_are_declared_once()
    ensures class { twice both ≡ Fault reason.DuplicateName (at 4) (Some (at 2)) ∷ [] }
    ensures params { twice same_params ≡ Fault reason.DuplicateName (at 6) (Some (at 4)) ∷ (Fault reason.DuplicateName (at 8) (Some (at 2)) ∷ []) }
{}
