//! What tells whether a statement stands in a segment by itself.
ghost use Rattle.std.specs.Prelude.{◌≡◌, [], ◌∷◌};
ghost use Rattle.scc_core_spec.specs.Segments as spec;
ghost use Rattle.scc_core_view.specs.Codes.{code_of};
ghost use Rattle.scc_states_segments.specs.Reach.{lower, reach, reaches};

use scc_core::{CoreNode, CoreStmt};

/// Whether a wait stands in a statement, or an exit from a block around it.
pub fn opens(s: &CoreStmt) -> bool
    ensures { result ≡ spec.opens 0 (code_of (s.now ∷ [])) }
{
    is_open(reach_in(s))
}

fn is_open(blocks: Option<u64>) -> bool
    ensures { result ≡ reaches 0 blocks }
{
    match blocks {
        Some(blocks) => blocks > 0,
        None => true,
    }
}

// How many blocks around it a statement's furthest exit leaves; None where a wait stands in it.
#[cycle(reach)]
fn reach_in(s: &CoreStmt) -> Option<u64>
    ensures { result ≡ reach (code_of (s.now ∷ [])) }
{
    match &s.node {
        CoreNode::Wait { .. } => None,
        CoreNode::Exit(n) => Some(u64::from(*n) + 1),
        CoreNode::If { yes, no, .. } => {
            let yes = reach_of(yes.as_slice())?;
            let no = reach_of(no.as_slice())?;
            Some(yes.max(no))
        }
        CoreNode::Block(body) => Some(inside_one(reach_of(body.as_slice())?)),
        CoreNode::Loop { body, .. } => reach_of(body.as_slice()),
        CoreNode::Assign { .. } | CoreNode::Alias { .. } => Some(0),
    }
}

// One of the blocks is the statement's own.
fn inside_one(blocks: u64) -> u64
    ensures { result ≡ lower blocks }
{
    blocks.saturating_sub(1)
}

#[cycle(reach)]
fn reach_of(body: &[CoreStmt]) -> Option<u64>
    ensures { result ≡ reach (code_of body.now) }
{
    let mut most = 0u64;
    for s in body {
        match reach_in(s) {
            Some(here) => most = most.max(here),
            None => return None,
        }
    }
    Some(most)
}
