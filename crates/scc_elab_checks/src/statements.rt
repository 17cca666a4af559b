//! Statements of construction: the first one in a body. A `switch` nests as many blocks as it has labels, so the lists that are
//! still to be looked at are kept.
ghost use Rattle.std.specs.Prelude.{◌≡◌, map, IfOk, None};
ghost use Rattle.scc_core_spec.specs.First.{or_else};
ghost use Rattle.scc_elab_spec.specs.Program.{End};
ghost use Rattle.scc_elab_spec.specs.After.{constructing};
ghost use Rattle.scc_plain_view.specs.Codes.{code_of, stmt_code};
ghost use Rattle.scc_elab_checks.specs.Open.{waiting};
ghost use Rattle.scc_elab_checks.specs.Found.{found_in};

use scc_base::{NoMemory, Place, lost, push};
use scc_plain_tree::{PlainNode, PlainStmt};
use std::alloc::Global;

/// Where the first statement of construction stands, in the order of the text.
#[tactic(auto, using(crate::proofs::Leading::waiting_snoc))]
pub fn first_constructing(alloc: Global, body: &[PlainStmt]) -> Result<Option<Place>, NoMemory>
    ensures { IfOk result (λ found. found ≡ constructing (code_of body.now)) }
{
    let mut lists = Vec::new(alloc);
    push(&mut lists, body)?;
    for _ in 0..usize::MAX {
        let Some(list) = lists.pop() else {
            return Ok(None);
        };
        if let Some(place) = next(list, &mut lists)? {
            return Ok(Some(place));
        }
    }
    Err(lost())
}

// The beginning of a list is looked at, behind which the rest of it comes.
#[tactic(auto, using(crate::proofs::Leading::entered))]
fn next<'t>(
    list: &'t [PlainStmt],
    lists: &mut Vec<&'t [PlainStmt]>,
) -> Result<Option<Place>, NoMemory>
    ensures { IfOk result (λ found. or_else found (waiting lists.new.items None) ≡ or_else (constructing (code_of list.now)) (waiting lists.old.items None)) }
{
    match list {
        [] => Ok(None),
        [s, rest @ ..] => {
            push(lists, rest)?;
            enter(s, lists)
        }
    }
}

/// What a statement holds: both branches, a body, or itself a statement of construction.
#[derive(Clone, Copy)]
pub enum Held<'t> {
    Both(&'t [PlainStmt], &'t [PlainStmt]),
    One(&'t [PlainStmt]),
    Itself(Place),
    Nothing,
}

fn parts_of(s: &PlainStmt) -> Held<'_>
    ensures { found_in result ≡ constructing (stmt_code s.now End) }
{
    match &s.node {
        PlainNode::If { yes, no, .. } => Held::Both(yes.as_slice(), no.as_slice()),
        PlainNode::Loop { body, .. } => Held::One(body.as_slice()),
        PlainNode::Block(body) => Held::One(body.as_slice()),
        PlainNode::Make { .. }
        | PlainNode::Bind { .. }
        | PlainNode::Process { .. }
        | PlainNode::Sense(_)
        | PlainNode::Quiet
        | PlainNode::Reset { .. } => Held::Itself(s.place),
        PlainNode::Declare(_)
        | PlainNode::Assign { .. }
        | PlainNode::Point { .. }
        | PlainNode::Write { .. }
        | PlainNode::Call { .. }
        | PlainNode::Exit(_)
        | PlainNode::Return(_)
        | PlainNode::Wait(_) => Held::Nothing,
    }
}

// A statement of construction itself, or else the lists that it holds, to be looked at.
#[tactic(auto, using(crate::proofs::Leading::one_list, crate::proofs::Leading::two_lists))]
fn enter<'t>(s: &'t PlainStmt, lists: &mut Vec<&'t [PlainStmt]>) -> Result<Option<Place>, NoMemory>
    ensures { IfOk result (λ found. or_else found (waiting lists.new.items None) ≡ or_else (constructing (stmt_code s.now End)) (waiting lists.old.items None)) }
{
    match parts_of(s) {
        Held::Both(first, second) => {
            push(lists, second)?;
            push(lists, first)?;
            Ok(None)
        }
        Held::One(body) => {
            push(lists, body)?;
            Ok(None)
        }
        Held::Itself(place) => Ok(Some(place)),
        Held::Nothing => Ok(None),
    }
}
