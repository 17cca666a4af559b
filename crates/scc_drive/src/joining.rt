//! Files that are joined and read by the grammar.
ghost use Rattle.std.specs.Prelude.{◌≡◌, ◌≤◌, ◌<◌, ◌+◌, length, IfOk, IfErr};
ghost use Rattle.scc_grammar.specs.Claim.{IsReadFile, IsFault};
ghost use Rattle.scc_drive.specs.CommandOutcome.{JoinedOutcome};
ghost use Rattle.scc_drive.specs.Stages.{IsJoined, IsUnjoined};
ghost use Rattle.scc_drive.specs.Stops.{IsFaulty};
ghost use Rattle.scc_drive_spec.specs.Words.{roots_of};

use crate::words::roots;
use scc_base::{Files, List, Names, Refusal, Stop};
use scc_drive_errors::fault::{refused, stopped_by};
use scc_drive_errors::stopped::Stopped;
use scc_grammar::parse;
use scc_tokens::{Joined, Source, join};
use scc_tree::FileTree;
use std::alloc::Global;

/// Files that were joined, and what the grammar reads of them.
pub struct Read {
    pub names: Names,
    pub sources: List<Source>,
    pub joined: Joined,
    pub tree: FileTree,
}

// One call at each exit of what owns it.
impl Drop for Read {
    fn drop(self) {
        let Read {
            names: _names,
            sources: _sources,
            joined: _joined,
            tree: _tree,
        } = self;
    }
}

/// Joins so many of the files that the words name from word 2 on, and reads them by the grammar.
pub fn read_files<F: Files>(
    alloc: Global,
    words: &[String],
    count: usize,
    files: &mut F,
) -> Result<Read, Stopped>
    requires some { 0 < count }
    requires few { count ≤ 64 }
    requires within { count + 2 ≤ length words.now }
    ensures joined { IfOk result (IsJoined (roots_of words.now count) (F.held files.old)) }
    ensures unjoined { IfErr result (IsUnjoined (roots_of words.now count) (F.held files.old) (F.misses files.old) (F.misses files.new) (F.faults files.old) (F.faults files.new)) }
    ensures kept { F.held files.new ≡ F.held files.old }
    ensures no_fewer_misses { F.misses files.old ≤ F.misses files.new }
    ensures no_fewer_faults { F.faults files.old ≤ F.faults files.new }
{
    let Ok(mut names) = Names::new(alloc) else {
        return Err(Stopped::NoMemory);
    };
    let mut sources = List::new(alloc);
    match join(alloc, roots(words, count), files, &mut names, &mut sources) {
        Ok(joined) => read_joined(alloc, names, sources, joined),
        Err(fault) => Err(stopped_by(alloc, sources.as_slice(), fault)),
    }
}

fn read_joined(
    alloc: Global,
    names: Names,
    sources: List<Source>,
    joined: Joined,
) -> Result<Read, Stopped>
    ensures read { IfOk result (λ r. (r.names ≡ names) × (r.sources ≡ sources) × (r.joined ≡ joined) × IsReadFile joined r.tree) }
    ensures fault { IfErr result (IsFaulty sources joined) }
{
    match parse(alloc, &joined) {
        Ok(tree) => Ok(Read {
            names,
            sources,
            joined,
            tree,
        }),
        Err(Stop::Refused(Refusal { code, place, .. })) => Err(refused(
            alloc,
            sources.as_slice(),
            place,
            code,
        )),
        Err(Stop::NoMemory) => Err(Stopped::NoMemory),
    }
}
