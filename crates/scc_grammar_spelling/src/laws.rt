//! Laws over the tables of words and marks, each the clause of a function that does nothing.
ghost use Rattle.scc_grammar_spelling.specs.Laws.{WordsAreSpelled, MarksAreSpelled, KeywordsAreSpelled, PunctsAreSpelled, WordsHaveOneSpelling, MarksHaveOneSpelling, ThinWordsAreSpelled, ThinMarksAreSpelled, ElseIsSpelled, ScopesAreSpelled, ScopeMarkIsSpelled, ParametersAreSpelled, HeaderIsSpelled, OldHeaderIsSpelled};

/// The grammar takes each text that is a word for the terminal of that spelling.
#[tactic(auto, using(crate::proofs::Spelled::words_are_spelled))]
pub fn words_are_spelled()
    ensures spelled { WordsAreSpelled }
{}

/// The grammar takes each text that is a mark for the terminal of that spelling.
#[tactic(auto, using(crate::proofs::Spelled::marks_are_spelled))]
pub fn marks_are_spelled()
    ensures spelled { MarksAreSpelled }
{}

/// A text that is a word has the number of the keyword of that spelling.
#[tactic(auto, using(crate::proofs::Spelled::keywords_are_spelled))]
pub fn keywords_are_spelled()
    ensures spelled { KeywordsAreSpelled }
{}

/// A text that is a mark has the number of the punctuator of that spelling.
#[tactic(auto, using(crate::proofs::Spelled::puncts_are_spelled))]
pub fn puncts_are_spelled()
    ensures spelled { PunctsAreSpelled }
{}

/// A number of a word or mark has one spelling.
pub fn numbers_have_one_spelling()
    ensures words { WordsHaveOneSpelling }
    ensures marks { MarksHaveOneSpelling }
{}

/// Thin texts are read by the numbers of these words and marks.
pub fn thin_texts_are_spelled()
    ensures words { ThinWordsAreSpelled }
    ensures marks { ThinMarksAreSpelled }
{}

/// What directives look for is spelled so.
pub fn directives_are_spelled()
    ensures words { ElseIsSpelled }
    ensures scopes { ScopesAreSpelled }
    ensures scope_mark { ScopeMarkIsSpelled }
    ensures parameters { ParametersAreSpelled }
    ensures header { HeaderIsSpelled }
    ensures old_header { OldHeaderIsSpelled }
{}
