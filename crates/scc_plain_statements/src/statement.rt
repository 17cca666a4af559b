//! Statements that hold others. The braces of a source give no block of their own.
ghost use Rattle.std.specs.Prelude.{IfErr};
ghost use Rattle.scc_plain_drafts.specs.Refusals.{MayStop};

use crate::construct::{process, reset, sensitive};
use crate::local::locals;
use crate::loops::{for_head, loop_test, looped, turn_flow};
use crate::simple::simple;
use crate::stmts::{finish, put};
use crate::switch::{Cases, hide, labels_of, selector};
use scc_base::{Code, List, Place, Stop};
use scc_plain_bodies::{Body, Flow, Walk, convert, refuse};
use scc_plain_tree::{PlainNode, PlainStmt};
use scc_tree::{Expr, FileTree, Stmt, StmtNode, SwitchItem, SwitchNode};

/// Statements in braces, which are a scope.
#[cycle(statement)]
pub(crate) fn scoped(
    list: &[Stmt],
    tree: &FileTree,
    flow: Flow,
    w: &mut Walk,
    b: &mut Body,
    out: &mut List<PlainStmt>,
) -> Result<(), Stop>
    ensures stop { IfErr result MayStop }
{
    let mark = b.names.mark();
    for s in list {
        stmt(s, tree, flow, w, b, out)?;
    }
    b.names.close(mark);
    Ok(())
}

// A statement with a scope of its own.
#[cycle(statement)]
fn alone(
    s: &Stmt,
    tree: &FileTree,
    flow: Flow,
    w: &mut Walk,
    b: &mut Body,
) -> Result<List<PlainStmt>, Stop>
    ensures stop { IfErr result MayStop }
{
    let mark = b.names.mark();
    let mut list = List::new(w.alloc);
    stmt(s, tree, flow, w, b, &mut list)?;
    b.names.close(mark);
    Ok(list)
}

// The block of a loop's turn.
#[cycle(statement)]
fn turn(
    body: &Stmt,
    place: Place,
    tree: &FileTree,
    flow: Flow,
    w: &mut Walk,
    b: &mut Body,
) -> Result<PlainStmt, Stop>
    ensures stop { IfErr result MayStop }
{
    let list = alone(body, tree, turn_flow(flow), w, b)?;
    let node = PlainNode::Block(list);
    Ok(PlainStmt { place, node })
}

#[cycle(statement)]
fn stmt(
    s: &Stmt,
    tree: &FileTree,
    flow: Flow,
    w: &mut Walk,
    b: &mut Body,
    out: &mut List<PlainStmt>,
) -> Result<(), Stop>
    ensures stop { IfErr result MayStop }
{
    let place = s.place;
    match s.node.get() {
        StmtNode::Block(list) => scoped(list.as_slice(), tree, flow, w, b, out),
        StmtNode::If { test, yes, no } => {
            let test = w.test(test, tree, flow, b)?.expr;
            b.flush(out)?;
            let yes = alone(yes, tree, flow, w, b)?;
            let no = match no {
                Some(no) => alone(no, tree, flow, w, b)?,
                None => List::new(w.alloc),
            };
            put(out, place, PlainNode::If { test, yes, no })?;
            Ok(())
        }
        StmtNode::Switch { of, items } => {
            switch(items.as_slice(), of, place, tree, flow, w, b, out)
        }
        StmtNode::While { test, body } => {
            let test = loop_test(test, tree, flow, w, b)?;
            let turn = turn(body, place, tree, flow, w, b)?;
            looped(w.alloc, place, test, turn, out)
        }
        StmtNode::Do { body, test } => {
            let turn = turn(body, place, tree, flow, w, b)?;
            let test = loop_test(test, tree, flow, w, b)?;
            looped(w.alloc, place, turn, test, out)
        }
        StmtNode::For {
            first,
            test,
            step,
            body,
        } => {
            let mark = b.names.mark();
            let head = for_head(first, test, step, tree, flow, w, b)?;
            let turn = turn(body, place, tree, flow, w, b)?;
            b.names.close(mark);
            head.looped(place, turn, out)
        }
        _ => single(s, tree, flow, w, b, out),
    }
}

// A `switch`. The braces are one scope, but pointers and references are known up to the next label.
#[cycle(statement)]
fn switch(
    items: &[SwitchItem],
    of: &Expr,
    place: Place,
    tree: &FileTree,
    flow: Flow,
    w: &mut Walk,
    b: &mut Body,
    out: &mut List<PlainStmt>,
) -> Result<(), Stop>
    ensures stop { IfErr result MayStop }
{
    let tests = selector(of, place, tree, flow, w, b, out)?;
    let mut cases = Cases::new(w.alloc, tests);
    switched(items, &mut cases, place, tree, flow, w, b, out)
}

// A `switch` after its selector: its statements, by the labels that they stand after.
#[cycle(statement)]
fn switched(
    items: &[SwitchItem],
    cases: &mut Cases,
    place: Place,
    tree: &FileTree,
    flow: Flow,
    w: &mut Walk,
    b: &mut Body,
    out: &mut List<PlainStmt>,
) -> Result<(), Stop>
    ensures stop { IfErr result MayStop }
{
    let mark = b.names.mark();
    cases.expect(labels_of(items)?);
    for item in items {
        match &item.node {
            SwitchNode::Stmt(s) => {
                hide(s, b, cases)?;
                let inner = cases.flow(flow)?;
                let mut list = cases.taken(w.alloc);
                stmt(s, tree, inner, w, b, &mut list)?;
                cases.put_back(list);
            }
            SwitchNode::Case(e) => cases.label(item.place, Some(e), tree, w, b)?,
            SwitchNode::Otherwise => cases.label(item.place, None, tree, w, b)?,
        }
    }
    let list = cases.whole(w.alloc)?;
    b.names.close(mark);
    put(out, place, PlainNode::Block(list))?;
    Ok(())
}

// A statement that holds no other.
fn single(
    s: &Stmt,
    tree: &FileTree,
    flow: Flow,
    w: &mut Walk,
    b: &mut Body,
    out: &mut List<PlainStmt>,
) -> Result<(), Stop>
    ensures stop { IfErr result MayStop }
{
    let place = s.place;
    match s.node.get() {
        StmtNode::Local(tree_of) => locals(tree_of, tree, flow, w, b, out),
        StmtNode::Break => exit(flow.leave, place, out),
        StmtNode::Continue => exit(flow.next, place, out),
        StmtNode::Return(value) => give(value, place, tree, flow, w, b, out),
        StmtNode::Wait(count) => wait(count, place, tree, w, b, out),
        StmtNode::Method { name, at } => process(
            *name, *at, None, false, place, tree, flow, w, b, out,
        ),
        StmtNode::Thread { name, at } => process(
            *name, *at, None, true, place, tree, flow, w, b, out,
        ),
        StmtNode::ClockedThread { name, at, edge } => {
            process(*name, *at, Some(edge), true, place, tree, flow, w, b, out)
        }
        StmtNode::Sensitive(list) => sensitive(list.as_slice(), place, tree, flow, w, b, out),
        StmtNode::DontInitialize => Ok(put(out, place, PlainNode::Quiet)?),
        StmtNode::ResetSignal {
            signal,
            level,
            asynchronous,
        } => reset(signal, level, *asynchronous, place, tree, flow, w, b, out),
        StmtNode::Simple(one) => simple(one, tree, flow, w, b, out),
        _ => Ok(()),
    }
}

// Leaves a block; E304 where there is none to leave.
fn exit(block: Option<u32>, place: Place, out: &mut List<PlainStmt>) -> Result<(), Stop>
    ensures stop { IfErr result MayStop }
{
    match block {
        Some(n) => Ok(put(out, place, PlainNode::Exit(n))?),
        None => refuse(Code::Mismatch, place), // E304
    }
}

// `return`, with a value exactly where the function has a result.
fn give(
    value: &Option<Expr>,
    place: Place,
    tree: &FileTree,
    flow: Flow,
    w: &mut Walk,
    b: &mut Body,
    out: &mut List<PlainStmt>,
) -> Result<(), Stop>
    ensures stop { IfErr result MayStop }
{
    let value = match value {
        Some(e) => Some(w.value(e, tree, flow, b)?),
        None => None,
    };
    let value = match (value, b.result) {
        (Some(x), Some(kind)) => Some(convert(w.alloc, x, kind)?.expr),
        (None, None) => None,
        _ => return refuse(Code::Mismatch, place),
    };
    finish(b, out, place, PlainNode::Return(value))
}

// `wait`, for 1 to 65,535 edges (IEEE 1666-2011, 5.2.18).
fn wait(
    count: &Option<Expr>,
    place: Place,
    tree: &FileTree,
    w: &mut Walk,
    b: &mut Body,
    out: &mut List<PlainStmt>,
) -> Result<(), Stop>
    ensures stop { IfErr result MayStop }
{
    let n = match count {
        Some(e) => match w.constant(e, tree, b)?.small() {
            Some(n) if 1 <= n && n <= 65_535 => n,
            _ => return refuse(Code::ConstRange, e.place), // E306
        },
        None => 1,
    };
    put(out, place, PlainNode::Wait(n))?;
    Ok(())
}
