//! Lists of statements.
ghost use Rattle.std.specs.Prelude.{IfErr};
ghost use Rattle.scc_plain_drafts.specs.Refusals.{MayStop};

use scc_base::{List, NoMemory, Place, Stop};
use scc_plain_bodies::Body;
use scc_plain_tree::{PlainNode, PlainStmt};

/// Appends a statement.
pub(crate) fn put(
    out: &mut List<PlainStmt>,
    place: Place,
    node: PlainNode,
) -> Result<(), NoMemory> {
    out.push(PlainStmt { place, node })
}

/// Appends a statement after the calls that it makes.
pub(crate) fn finish(
    b: &mut Body,
    out: &mut List<PlainStmt>,
    place: Place,
    node: PlainNode,
) -> Result<(), Stop>
    ensures stop { IfErr result MayStop }
{
    b.flush(out)?;
    put(out, place, node)?;
    Ok(())
}
