//! Laws over the definitions alone.
ghost use Rattle.scc_tokens_directives.specs.Laws.{ExpandsWhole};

/// What a macro's tokens give, with the macros within them, is what is joined for its use.
pub fn macros_are_expanded()
    ensures { ExpandsWhole }
{}
