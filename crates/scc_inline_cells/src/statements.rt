//! What a statement changes by itself, and the lists of statements that it holds.
ghost use Rattle.std.specs.Prelude.{◌≡◌, Bool};
ghost use Rattle.scc_elab_spec.specs.Program.{End, Function, Plain};
ghost use Rattle.scc_elab_spec.specs.Types.{moved};
ghost use Rattle.scc_plain_view.specs.Codes.{stmt_code};
ghost use Rattle.scc_inline_cells.specs.Moved.{parts_moved};

use scc_plain_tree::{PlainArg, PlainLeft, PlainNode, PlainStmt, PlainTarget};

/// A statement's left side, what it gives a pointer or reference, its arguments, and the lists that it holds.
#[derive(Clone, Copy)]
pub struct Parts<'t> {
    pub left: Option<&'t PlainLeft>,
    pub target: Option<&'t PlainTarget>,
    pub args: Option<&'t [PlainArg]>,
    pub first: Option<&'t [PlainStmt]>,
    pub second: Option<&'t [PlainStmt]>,
}

/// The parts of a statement in which something may move.
pub fn parts_of(s: &PlainStmt) -> Parts<'_>
    ensures { (p : Plain) (f : Function) (c : Bool) → parts_moved p f c result ≡ moved p f c (stmt_code s.now End) }
{
    match &s.node {
        PlainNode::Assign { left, .. } => Parts {
            left: Some(left),
            target: None,
            args: None,
            first: None,
            second: None,
        },
        PlainNode::Write { to, .. } => Parts {
            left: Some(to),
            target: None,
            args: None,
            first: None,
            second: None,
        },
        PlainNode::Point { left, target } => Parts {
            left: Some(left),
            target: Some(target),
            args: None,
            first: None,
            second: None,
        },
        PlainNode::Make { left, args, .. } => Parts {
            left: Some(left),
            target: None,
            args: Some(args.as_slice()),
            first: None,
            second: None,
        },
        PlainNode::Call { args, .. } => Parts {
            left: None,
            target: None,
            args: Some(args.as_slice()),
            first: None,
            second: None,
        },
        PlainNode::If { yes, no, .. } => Parts {
            left: None,
            target: None,
            args: None,
            first: Some(yes.as_slice()),
            second: Some(no.as_slice()),
        },
        PlainNode::Loop { body, .. } => Parts {
            left: None,
            target: None,
            args: None,
            first: Some(body.as_slice()),
            second: None,
        },
        PlainNode::Block(body) => Parts {
            left: None,
            target: None,
            args: None,
            first: Some(body.as_slice()),
            second: None,
        },
        PlainNode::Declare(_)
        | PlainNode::Exit(_)
        | PlainNode::Return(_)
        | PlainNode::Wait(_)
        | PlainNode::Bind { .. }
        | PlainNode::Process { .. }
        | PlainNode::Sense(_)
        | PlainNode::Quiet
        | PlainNode::Reset { .. } => Parts {
            left: None,
            target: None,
            args: None,
            first: None,
            second: None,
        },
    }
}
