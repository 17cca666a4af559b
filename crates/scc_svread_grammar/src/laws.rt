//! Laws of emitted texts, each the clause of a function that does nothing.
ghost use Rattle.scc_svread_grammar.specs.Claim.{OneModule};

/// No bytes are the texts of two modules.
pub fn a_text_is_one_module()
    ensures { OneModule }
{}
