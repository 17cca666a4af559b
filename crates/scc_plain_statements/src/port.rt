//! Ports as statements (IEEE 1666-2011, 6.4, 6.8, 6.12).
ghost use Rattle.std.specs.Prelude.{IfErr};
ghost use Rattle.scc_plain_drafts.specs.Refusals.{MayStop};

use crate::stmts::finish;
use scc_base::{Code, List, Place, Stop};
use scc_plain_bodies::{Body, Draft, Flow, Loc, Subject, Walk, convert, refuse};
use scc_plain_tree::{Base, PlainNode, PlainStmt};
use scc_tree::{Expr, ExprNode, FileTree};

/// The port or signal on which a call is made, where it is one.
pub(crate) fn port_of(of: Subject) -> Option<Loc> {
    match of {
        Subject::Loc(l) => {
            if !l.form.is_port() {
                return None;
            }
            Some(l)
        }
        Subject::Value(_) => None,
    }
}

/// Whether it is neither a text nor `new`.
pub(crate) fn is_plain(e: &Expr) -> bool {
    match e.node.get() {
        ExprNode::Text => false,
        ExprNode::Make { .. } => false,
        _ => true,
    }
}

fn is_make(e: &Expr) -> bool {
    match e.node.get() {
        ExprNode::Make { .. } => true,
        _ => false,
    }
}

/// The value of the only argument; None where there are others or where it is a text or `new`. All are walked.
pub(crate) fn only_value(
    args: &[Expr],
    tree: &FileTree,
    flow: Flow,
    w: &mut Walk,
    b: &mut Body,
) -> Result<Option<Draft>, Stop>
    ensures stop { IfErr result MayStop }
{
    let mut last = None;
    for e in args {
        last = None;
        if is_plain(e) {
            last = Some(w.value(e, tree, flow, b)?);
        } else {
            w.any(e, tree, flow, b)?;
        }
    }
    if args.len() != 1 {
        return Ok(None);
    }
    Ok(last)
}

/// `port.write(value)`; an input isn't written.
pub(crate) fn write(
    args: &[Expr],
    port: Loc,
    place: Place,
    tree: &FileTree,
    flow: Flow,
    w: &mut Walk,
    b: &mut Body,
    out: &mut List<PlainStmt>,
) -> Result<(), Stop>
    ensures stop { IfErr result MayStop }
{
    let x = only_value(args, tree, flow, w, b)?;
    let kind = match port.form.base {
        Base::Output(kind) | Base::Signal(kind) => kind,
        _ => return refuse(Code::Mismatch, place), // E304
    };
    let Some(x) = x else {
        return refuse(Code::Mismatch, place);
    };
    let value = convert(w.alloc, x, kind)?.expr;
    let to = port.left;
    finish(b, out, place, PlainNode::Write { to, value })
}

/// `port.bind(to)` or `port(to)`; what is bound has to be found at construction.
pub(crate) fn bind(
    args: &[Expr],
    port: Loc,
    place: Place,
    tree: &FileTree,
    flow: Flow,
    w: &mut Walk,
    b: &mut Body,
    out: &mut List<PlainStmt>,
) -> Result<(), Stop>
    ensures stop { IfErr result MayStop }
{
    let mut to = None;
    for e in args {
        if is_plain(e) {
            to = w.meant(e, tree, flow, b)?.location();
        } else {
            w.any(e, tree, flow, b)?;
        }
    }
    let is_one = match args {
        [e] => !is_make(e),
        _ => false,
    };
    let is_signal = match port.form.base {
        Base::Signal(_) => true,
        _ => false,
    };
    if !is_one || is_signal {
        return refuse(Code::Mismatch, place);
    }
    let port = port.left;
    finish(b, out, place, PlainNode::Bind { port, to })
}
