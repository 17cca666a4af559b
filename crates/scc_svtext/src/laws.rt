//! Laws of the text of a module, each the clause of a function that does nothing.
ghost use Rattle.std.specs.Prelude.{◌≡◌, ℕ, Bool, List};
ghost use Rattle.scc_svtree.specs.declared.module.SvModule.{SvModule};
ghost use Rattle.scc_svtext.specs.Emitted.{SvReads};

/// A module has at most one text.
pub fn a_module_has_one_text()
    ensures { (many : Bool) (m : SvModule) (a b : List ℕ) → SvReads many a m → SvReads many b m → a ≡ b }
{}
