//! Which member initialisers belong to, and what makes it in place.
ghost use Rattle.std.specs.Prelude.{◌≡◌, ◌≤◌, drop, length};
ghost use Rattle.scc_elab_spec.specs.Inits.{either, first_make as first_make_of, first_member as first_there, owner};
ghost use Rattle.scc_elab_spec.specs.Program.{End};
ghost use Rattle.scc_plain_view.specs.Codes.{code_of, stmt_code};
ghost use Rattle.scc_plain_view.specs.Terms.{left_of};
ghost use Rattle.scc_elab_inits.specs.Makes.{args_in, begins_make};

use crate::lefts::first_member;
use scc_plain_tree::{PlainArg, PlainLeft, PlainNode, PlainStmt};

#[tactic(auto, using(crate::proofs::Owning::alone))]
fn begins(left: &PlainLeft) -> Option<u32>
    ensures { result ≡ either (first_there (left_of left.now)) None }
{
    first_member(left)
}

// The member that a statement fills or makes by itself.
fn own(s: &PlainStmt) -> Option<u32>
    ensures { result ≡ owner (stmt_code s.now End) }
{
    match &s.node {
        PlainNode::Assign { left, .. } => begins(left),
        PlainNode::Point { left, .. } => begins(left),
        PlainNode::Make { left, .. } => begins(left),
        PlainNode::Bind { port, .. } => begins(port),
        PlainNode::Declare(_) => None,
        PlainNode::Write { .. } => None,
        PlainNode::Call { .. } => None,
        PlainNode::If { .. } => None,
        PlainNode::Loop { .. } => None,
        PlainNode::Block(_) => None,
        PlainNode::Exit(_) => None,
        PlainNode::Return(_) => None,
        PlainNode::Wait(_) => None,
        PlainNode::Process { .. } => None,
        PlainNode::Sense(_) => None,
        PlainNode::Quiet => None,
        PlainNode::Reset { .. } => None,
    }
}

fn own_of_first(list: &[PlainStmt]) -> Option<u32>
    ensures { either result (owner (code_of (drop 1 list.now))) ≡ owner (code_of list.now) }
{
    match list {
        [] => None,
        [s, _rest @ ..] => own(s),
    }
}

fn from(list: &[PlainStmt], i: usize) -> &[PlainStmt]
    requires { i ≤ length list.now }
    ensures { result.now ≡ drop i list.now }
{
    &list[i..]
}

/// The member that a list of initialisers begins with: what belongs to none goes with what follows it.
pub fn owner_of(list: &[PlainStmt]) -> Option<u32>
    ensures { result ≡ owner (code_of list.now) }
{
    for i in 0..list.len() {
        let member = own_of_first(from(list, i));
        if member.is_some() {
            return member;
        }
    }
    None
}

/// Whether a statement makes an object.
pub fn is_make(s: &PlainStmt) -> bool
    ensures { result ≡ begins_make (stmt_code s.now End) }
{
    match &s.node {
        PlainNode::Make { .. } => true,
        PlainNode::Assign { .. } => false,
        PlainNode::Point { .. } => false,
        PlainNode::Bind { .. } => false,
        PlainNode::Declare(_) => false,
        PlainNode::Write { .. } => false,
        PlainNode::Call { .. } => false,
        PlainNode::If { .. } => false,
        PlainNode::Loop { .. } => false,
        PlainNode::Block(_) => false,
        PlainNode::Exit(_) => false,
        PlainNode::Return(_) => false,
        PlainNode::Wait(_) => false,
        PlainNode::Process { .. } => false,
        PlainNode::Sense(_) => false,
        PlainNode::Quiet => false,
        PlainNode::Reset { .. } => false,
    }
}

/// The arguments of a statement that makes an object.
pub fn args_of(s: &PlainStmt) -> Option<&[PlainArg]>
    ensures { args_in result ≡ first_make_of (stmt_code s.now End) }
{
    match &s.node {
        PlainNode::Make { args, .. } => Some(args.as_slice()),
        PlainNode::Assign { .. } => None,
        PlainNode::Point { .. } => None,
        PlainNode::Bind { .. } => None,
        PlainNode::Declare(_) => None,
        PlainNode::Write { .. } => None,
        PlainNode::Call { .. } => None,
        PlainNode::If { .. } => None,
        PlainNode::Loop { .. } => None,
        PlainNode::Block(_) => None,
        PlainNode::Exit(_) => None,
        PlainNode::Return(_) => None,
        PlainNode::Wait(_) => None,
        PlainNode::Process { .. } => None,
        PlainNode::Sense(_) => None,
        PlainNode::Quiet => None,
        PlainNode::Reset { .. } => None,
    }
}
