//! Exits leave blocks that stand around them.
ghost use Rattle.std.specs.Prelude.{◌≡◌, ◌&&◌, true};
ghost use Rattle.scc_core_spec.specs.Code.{End};
ghost use Rattle.scc_core_spec.specs.Exits.{exits_within};
ghost use Rattle.scc_core_view.specs.Codes.{code_of, stmt_code};

use scc_core::{CoreNode, CoreStmt};

pub fn both(a: bool, b: bool) -> bool
    ensures { result ≡ (a && b) }
{
    a && b
}

/// Whether each exit leaves one of the blocks around it, of which so many stand around the list. Where blocks stand deeper than 2^64 - 1 the
/// answer is no.
#[cycle(exits)]
pub fn exits_stay(depth: u64, list: &[CoreStmt]) -> bool
    ensures { result ≡ true → exits_within depth (code_of list.now) ≡ true }
{
    let mut stay = true;
    for s in list {
        stay = both(stay, statement_exits_stay(depth, s));
    }
    stay
}

/// The same of one statement.
#[cycle(exits)]
#[tactic(auto, using(crate::proofs::Leaving::if_stays, crate::proofs::Leaving::block_stays, crate::proofs::Leaving::loop_stays, crate::proofs::Leaving::exit_stays))]
pub fn statement_exits_stay(depth: u64, s: &CoreStmt) -> bool
    ensures { result ≡ true → exits_within depth (stmt_code s.now End) ≡ true }
{
    match &s.node {
        CoreNode::If { yes, no, .. } => both(
            exits_stay(depth, yes.as_slice()),
            exits_stay(depth, no.as_slice()),
        ),
        CoreNode::Block(body) => match depth.checked_add(1) {
            Some(inner) => exits_stay(inner, body.as_slice()),
            None => false,
        },
        CoreNode::Loop { body, .. } => exits_stay(depth, body.as_slice()),
        CoreNode::Exit(n) => u64::from(*n) < depth,
        CoreNode::Assign { .. } | CoreNode::Wait { .. } | CoreNode::Alias { .. } => true,
    }
}
