//! Loops (C++, [stmt.iter]). Each is a block with what stands before it and the loop, whose turns are blocks: `break` leaves the outer
//! block, `continue` the inner one.
ghost use Rattle.std.specs.Prelude.{IfErr};
ghost use Rattle.scc_plain_drafts.specs.Refusals.{MayStop};

use crate::count::counted;
use crate::local::locals;
use crate::simple::simple;
use crate::stmts::put;
use scc_base::{List, Place, Stop, lost};
use scc_plain_bodies::{Body, Flow, Walk};
use scc_plain_tree::{PlainCount, PlainNode, PlainStmt};
use scc_tree::{Expr, FileTree, ForFirst, LocalTree, SimpleTree};
use std::alloc::Global;

/// Inside a turn's block.
pub(crate) fn turn_flow(flow: Flow) -> Flow {
    flow.within(Some(1), Some(0))
}

/// Leaves a loop where its condition doesn't hold.
pub(crate) fn loop_test(
    e: &Expr,
    tree: &FileTree,
    flow: Flow,
    w: &mut Walk,
    b: &mut Body,
) -> Result<PlainStmt, Stop>
    ensures stop { IfErr result MayStop }
{
    let place = e.place;
    let test = w.test(e, tree, flow.without_calls(), b)?.expr;
    let yes = List::new(w.alloc);
    let mut no = List::new(w.alloc);
    put(&mut no, place, PlainNode::Exit(0))?;
    let node = PlainNode::If { test, yes, no };
    Ok(PlainStmt { place, node })
}

/// Appends a loop of two statements, in its block.
pub(crate) fn looped(
    alloc: Global,
    place: Place,
    first: PlainStmt,
    second: PlainStmt,
    out: &mut List<PlainStmt>,
) -> Result<(), Stop>
    ensures stop { IfErr result MayStop }
{
    let mut body = List::new(alloc);
    body.push(first)?;
    body.push(second)?;
    let mut list = List::new(alloc);
    put(&mut list, place, PlainNode::Loop { count: None, body })?;
    put(out, place, PlainNode::Block(list))?;
    Ok(())
}

/// The head of a `for`: what stands before the loop, the test, and what stands after a turn.
#[derive(Drop)]
pub(crate) struct Head {
    before: List<PlainStmt>,
    test: List<PlainStmt>,
    step: List<PlainStmt>,
    count: Option<PlainCount>,
}

impl Head {
    /// Appends the loop of a turn, in its block.
    pub fn looped(
        self,
        place: Place,
        turn: PlainStmt,
        out: &mut List<PlainStmt>,
    ) -> Result<(), Stop>
        ensures stop { IfErr result MayStop }
    {
        let Head {
            before,
            test,
            step,
            count,
        } = self;
        let mut body = test;
        body.push(turn)?;
        body.append(step)?;
        let mut list = before;
        put(&mut list, place, PlainNode::Loop { count, body })?;
        put(out, place, PlainNode::Block(list))?;
        Ok(())
    }
}

/// The head of a `for`, in which no call may stand. What it declares is known until the caller closes its scope.
pub(crate) fn for_head(
    first: &ForFirst,
    test: &Option<Expr>,
    step: &Option<SimpleTree>,
    tree: &FileTree,
    flow: Flow,
    w: &mut Walk,
    b: &mut Body,
) -> Result<Head, Stop>
    ensures stop { IfErr result MayStop }
{
    let flow = flow.without_calls();
    let counter = u32::try_from(b.locals.len()).map_err(|_| lost())?;
    let mut before = List::new(w.alloc);
    match first {
        ForFirst::Nothing => {}
        ForFirst::Local(declared) => locals(declared, tree, flow, w, b, &mut before)?,
        ForFirst::Simple(one) => simple(one, tree, flow, w, b, &mut before)?,
    }
    let mut tests = List::new(w.alloc);
    if let Some(e) = test {
        tests.push(loop_test(e, tree, flow, w, b)?)?;
    }
    let mut steps = List::new(w.alloc);
    if let Some(one) = step {
        simple(one, tree, flow, w, b, &mut steps)?;
    }
    let count = match one_name(first) {
        true => counted(
            w.alloc,
            counter,
            before.as_slice(),
            tests.as_slice(),
            steps.as_slice(),
        )?,
        false => None,
    };
    Ok(Head {
        before,
        test: tests,
        step: steps,
        count,
    })
}

// Whether the head declares one variable.
fn one_name(first: &ForFirst) -> bool {
    match first {
        ForFirst::Local(declared) => has_one(declared),
        _ => false,
    }
}

fn has_one(declared: &LocalTree) -> bool {
    declared.names.len() == 1
}
