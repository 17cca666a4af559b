//! Laws over the definitions alone.
ghost use Rattle.scc_tokens_laws.specs.Laws.{JoinsAgain, JoinsWhole, StopsFirst};

/// What the parts of files do, one after another and within one another, is what joining gives, and nothing else is: the
/// joined tokens where all parts are joined, and the first fault where one is refused or a file is missing.
pub fn parts_are_joined()
    ensures joins { JoinsWhole }
    ensures stops { StopsFirst }
{}

/// Where more files are there, files that were joined are joined again, to the same.
pub fn more_files_join_to_the_same()
    ensures { JoinsAgain }
{}
