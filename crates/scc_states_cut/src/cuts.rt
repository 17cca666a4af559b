//! The segments behind the waits of a thread.
ghost use Rattle.std.specs.Prelude.{◌≡◌, [], ◌∷◌, IfOk};
ghost use Rattle.scc_states_segments.specs.Frames.{framed, from, scene};
ghost use Rattle.scc_states_segments.specs.Behind.{behind_waits, own_waits};
ghost use Rattle.scc_states_cut.specs.Cut.{AreUnfolded};

use crate::types::SegStmt;
use crate::unfold::unfolded;
use scc_base::{List, NoMemory, Stop};
use scc_states_segments::{Count, DEEPEST, Frame, Part, PartNode, Sort, again};
use std::alloc::Global;

/// Adds the segment behind each wait of some parts, in text order, with these frames around, the innermost last.
#[cycle(cuts)]
pub fn cuts<'a>(
    alloc: Global,
    body: &'a [Part],
    around: &[Frame<'a>],
    waits: &[u32],
    count: &mut Count,
    out: &mut List<List<SegStmt>>,
) -> Result<(), Stop>
    ensures { AreUnfolded waits.now (behind_waits body.now (scene around.now)) out.old out.new count.old count.new result }
{
    for (k, part) in body.iter().enumerate() {
        let (_front, rest) = body.split_at(k + 1);
        cut(alloc, part, rest, around, waits, count, out)?;
    }
    Ok(())
}

// Those of one part, before others.
#[cycle(cuts)]
fn cut<'a>(
    alloc: Global,
    part: &'a Part,
    rest: &'a [Part],
    around: &[Frame<'a>],
    waits: &[u32],
    count: &mut Count,
    out: &mut List<List<SegStmt>>,
) -> Result<(), Stop>
    ensures { AreUnfolded waits.now (own_waits part.now rest.now (scene around.now)) out.old out.new count.old count.new result }
{
    match &part.node {
        PartNode::Plain(_) => Ok(()),
        PartNode::Exit(_) => Ok(()),
        PartNode::Wait { .. } => {
            let here = again(alloc, around)?;
            behind_wait(alloc, rest, here, waits, count, out)
        }
        PartNode::Test { yes, no, .. } => {
            let inner = inside(alloc, around, Sort::Rest, rest)?;
            cuts(alloc, yes.as_slice(), inner.as_slice(), waits, count, out)?;
            cuts(alloc, no.as_slice(), inner.as_slice(), waits, count, out)
        }
        PartNode::Block(body) => {
            let inner = inside(alloc, around, Sort::Block, rest)?;
            cuts(alloc, body.as_slice(), inner.as_slice(), waits, count, out)
        }
        PartNode::Loop(body) => {
            let inner = inside(alloc, around, Sort::Again, body.as_slice())?;
            cuts(alloc, body.as_slice(), inner.as_slice(), waits, count, out)
        }
    }
}

// The segment behind a wait.
fn behind_wait<'a>(
    alloc: Global,
    rest: &'a [Part],
    around: List<Frame<'a>>,
    waits: &[u32],
    count: &mut Count,
    out: &mut List<List<SegStmt>>,
) -> Result<(), Stop>
    ensures { AreUnfolded waits.now (from rest.now (scene around.entry) ∷ []) out.old out.new count.old count.new result }
{
    let segment = unfolded(alloc, rest, around, waits, 1, DEEPEST + 2, count)?;
    out.push(segment)?;
    Ok(())
}

// One frame more.
fn inside<'a>(
    alloc: Global,
    around: &[Frame<'a>],
    sort: Sort,
    rest: &'a [Part],
) -> Result<List<Frame<'a>>, NoMemory>
    ensures { IfOk result (λ fs. scene fs ≡ framed (record { sort = sort; rest = rest.entry }) (scene around.now)) }
{
    let mut inner = again(alloc, around)?;
    inner.push(Frame { sort, rest })?;
    Ok(inner)
}
