//! Sizes of segments.
ghost use Rattle.std.specs.Prelude.{◌≡◌, min, map};
ghost use Rattle.scc_drive_sim.specs.Segments.{most, total, statement_statements, segment_statements, statements_of};

use scc_base::List;
use scc_core_bounds::size_of_one;
use scc_states::Split;
use scc_states_cut::{SegNode, SegStmt};

/// How many statements a thread's segments have together, a wait counting 1.
pub fn segments_size(split: &Split) -> u64
    ensures { result ≡ min (statements_of split.now) most }
{
    let reset = segment_size(split.reset.as_slice());
    let others = all_sizes(split.segments.as_slice());
    reset.saturating_add(others)
}

fn all_sizes(segments: &[List<SegStmt>]) -> u64
    ensures { result ≡ min (total (map segment_statements segments.now)) most }
{
    let mut size: u64 = 0;
    for segment in segments {
        size = size.saturating_add(segment_size(segment.as_slice()));
    }
    size
}

#[cycle(segment)]
fn segment_size(list: &[SegStmt]) -> u64
    ensures { result ≡ min (segment_statements list.now) most }
{
    let mut size: u64 = 0;
    for s in list {
        size = size.saturating_add(segment_size_of_one(s));
    }
    size
}

#[cycle(segment)]
#[tactic(auto, using(crate::proofs::Sums::both_branches))]
fn segment_size_of_one(s: &SegStmt) -> u64
    ensures { result ≡ min (statement_statements s.now) most }
{
    match &s.node {
        SegNode::Plain(s) => size_of_one(s).statements,
        SegNode::If { yes, no, .. } => segment_size(yes.as_slice())
            .saturating_add(segment_size(no.as_slice()))
            .saturating_add(1),
        SegNode::Wait(_) => 1,
    }
}
