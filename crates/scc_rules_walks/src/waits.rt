//! The first wait of a body.
ghost use Rattle.std.specs.Prelude.{◌≡◌, Some, [], ◌∷◌};
ghost use Rattle.scc_core_spec.specs.First.{first_of, or_else};
ghost use Rattle.scc_core_spec.specs.Rules.{waits};
ghost use Rattle.scc_core_view.specs.Codes.{code_of};

use scc_base::Place;
use scc_core::{CoreNode, CoreStmt};

/// The first wait of a body.
#[cycle(first_wait)]
pub fn first_wait(body: &[CoreStmt]) -> Option<Place>
    ensures { result ≡ first_of Some (waits (code_of body.now)) }
{
    for s in body {
        match wait_in(s) {
            Some(place) => return Some(place),
            None => {}
        }
    }
    None
}

#[cycle(first_wait)]
fn wait_in(s: &CoreStmt) -> Option<Place>
    ensures { result ≡ first_of Some (waits (code_of (s.now ∷ []))) }
{
    match &s.node {
        CoreNode::Wait { .. } => Some(s.place),
        CoreNode::If { yes, no, .. } => {
            let a = first_wait(yes.as_slice());
            let b = first_wait(no.as_slice());
            earlier(a, b)
        }
        CoreNode::Block(body) | CoreNode::Loop { body, .. } => first_wait(body.as_slice()),
        CoreNode::Assign { .. } | CoreNode::Exit(_) | CoreNode::Alias { .. } => None,
    }
}

fn earlier(a: Option<Place>, b: Option<Place>) -> Option<Place>
    ensures { result ≡ or_else a b }
{
    match a {
        Some(place) => Some(place),
        None => b,
    }
}
