//! What is true of the grammar alone.
ghost use Rattle.scc_grammar_spec.specs.Laws.{OneTree};

/// No tokens are two files (C++, the grammar with its rules that tell declarations from expressions).
pub fn one_tree()
    ensures { OneTree }
{}
