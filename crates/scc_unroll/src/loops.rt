//! Whether loops stand in statements.
ghost use Rattle.std.specs.Prelude.{◌≡◌, ◌||◌, [], ◌∷◌};
ghost use Rattle.scc_core_view.specs.Codes.{code_of};
ghost use Rattle.scc_unroll_laws.specs.Heads.{has_loops};

use crate::shape::either;
use scc_core::{CoreNode, CoreStmt};

/// Whether a loop stands in statements.
#[cycle(loops)]
pub fn has_loops(body: &[CoreStmt]) -> bool
    ensures { result ≡ has_loops (code_of body.now) }
{
    let mut found = false;
    for s in body {
        let here = loops_in(s);
        found = either(found, here);
    }
    found
}

#[cycle(loops)]
fn loops_in(s: &CoreStmt) -> bool
    ensures { result ≡ has_loops (code_of (s.now ∷ [])) }
{
    match &s.node {
        CoreNode::Loop { .. } => true,
        CoreNode::If { yes, no, .. } => has_loops(yes.as_slice()) || has_loops(no.as_slice()),
        CoreNode::Block(body) => has_loops(body.as_slice()),
        CoreNode::Assign { .. } => false,
        CoreNode::Exit(_) => false,
        CoreNode::Wait { .. } => false,
        CoreNode::Alias { .. } => false,
    }
}
