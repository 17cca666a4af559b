//! The tree of a source, for the tests that ask for one thing at a time.
use scc_base::{CalmFiles, List, Name, Names};
use scc_grammar::parse;
use scc_tokens::join;
use scc_tree::FileTree;
use std::alloc::Global;
use std::test::Fail;

/// A tree with its names, one of which is a top's.
#[derive(Drop)]
pub struct Parsed {
    pub names: Names,
    pub top: Name,
    pub tree: FileTree,
}

/// The tree of a file `a.cpp` with this text; None where an earlier stage refuses it.
pub fn tree_of(alloc: Global, top: &str, source: &str) -> Result<Option<Parsed>, Fail> {
    let mut roots = Vec::new(alloc);
    roots.push(String::from_str(alloc, "a.cpp")?)?;
    let mut files = CalmFiles::new(alloc);
    files.add("a.cpp", source.as_bytes())?;
    let mut names = Names::new(alloc)?;
    let top = names.intern(top)?;
    let mut sources = List::new(alloc);
    let Ok(joined) = join(
        alloc,
        roots.as_slice(),
        &mut files,
        &mut names,
        &mut sources,
    ) else {
        return Ok(None);
    };
    let Ok(tree) = parse(alloc, &joined) else {
        return Ok(None);
    };
    Ok(Some(Parsed { names, top, tree }))
}
