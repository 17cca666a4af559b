//! Laws over the definitions alone.
ghost use Rattle.scc_tokens_lexer.specs.Laws.{FindsTokens, FindsFault};

/// A text has exactly one list of tokens, or exactly one first fault, and it is the one that is found.
pub fn text_has_one_reading()
    ensures tokens { FindsTokens }
    ensures fault { FindsFault }
{}
