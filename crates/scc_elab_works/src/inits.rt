//! Which of a constructor's initialisers are run.
ghost use Rattle.std.specs.Prelude.{◌≡◌};
ghost use Rattle.scc_elab_inits.specs.Makes.{begins_make};
ghost use Rattle.scc_elab_works.specs.Firsts.{begins_if};
ghost use Rattle.scc_elab_spec.specs.Program.{End};
ghost use Rattle.scc_plain_view.specs.Codes.{code_of, stmt_code};

use scc_elab_inits::is_make;
use scc_plain_tree::{PlainNode, PlainStmt};

/// Whether a statement is an `if`.
pub fn is_if(s: &PlainStmt) -> bool
    ensures { result ≡ begins_if (stmt_code s.now End) }
{
    match &s.node {
        PlainNode::If { .. } => true,
        PlainNode::Declare(_) => false,
        PlainNode::Assign { .. } => false,
        PlainNode::Point { .. } => false,
        PlainNode::Write { .. } => false,
        PlainNode::Call { .. } => false,
        PlainNode::Loop { .. } => false,
        PlainNode::Block(_) => false,
        PlainNode::Exit(_) => false,
        PlainNode::Return(_) => false,
        PlainNode::Wait(_) => false,
        PlainNode::Make { .. } => false,
        PlainNode::Bind { .. } => false,
        PlainNode::Process { .. } => false,
        PlainNode::Sense(_) => false,
        PlainNode::Quiet => false,
        PlainNode::Reset { .. } => false,
    }
}

/// Whether the first of some statements makes an object.
pub fn makes_first(list: &[PlainStmt]) -> bool
    ensures { result ≡ begins_make (code_of list.now) }
{
    match list {
        [] => false,
        [s, _rest @ ..] => is_make(s),
    }
}
