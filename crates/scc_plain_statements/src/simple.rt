//! Assignments, steps and calls (C++, [expr.ass], [expr.pre.incr], [expr.call]).
ghost use Rattle.std.specs.Prelude.{IfErr};
ghost use Rattle.scc_plain_drafts.specs.Refusals.{MayStop};

use crate::make::made;
use crate::port::{bind, port_of, write};
use crate::stmts::finish;
use scc_base::{Code, List, Place, Stop, lost};
use scc_bits::{Kind, Op, Value, Word};
use scc_plain_bodies::{
    Body, Draft, Flow, Form, Loc, Meant, PortCall, Subject, Walk, convert, last_args, literal,
    operate, refuse,
};
use scc_plain_tree::{Base, PlainNode, PlainStmt, Reach};
use scc_tree::{Expr, ExprNode, FileTree, SimpleNode, SimpleTree};

/// An assignment, a step or a call.
pub(crate) fn simple(
    s: &SimpleTree,
    tree: &FileTree,
    flow: Flow,
    w: &mut Walk,
    b: &mut Body,
    out: &mut List<PlainStmt>,
) -> Result<(), Stop>
    ensures stop { IfErr result MayStop }
{
    match &s.node {
        SimpleNode::Call(e) => call(e, s.place, tree, flow, w, b, out),
        SimpleNode::Step { of, op, op_place } => {
            let l = assigned(of, s.place, tree, flow.without_calls(), w, b)?;
            let kind = left_kind(&l, s.place)?;
            let int = Kind::Native {
                bits: 32,
                signed: true,
            };
            let one = Value::of(int, Word { bits: 1 }).ok_or(lost())?;
            let one = literal(w.alloc, *op_place, one)?;
            let x = combined(&l, *op, *op_place, of.place, one, w)?;
            store(l, x, kind, s.place, w, b, out)
        }
        SimpleNode::Assign {
            left,
            op,
            op_place,
            value,
        } => {
            let l = assigned(left, s.place, tree, flow.lazily(op.is_some()), w, b)?;
            if l.form.is_pointer() && op.is_none() {
                return point(value, l, s.place, tree, flow, w, b, out);
            }
            let kind = left_kind(&l, s.place)?;
            let x = right_side(value, tree, flow, w, b)?;
            let x = match op {
                Some(op) => combined(&l, *op, *op_place, left.place, x, w)?,
                None => x,
            };
            store(l, x, kind, s.place, w, b, out)
        }
    }
}

// What is assigned: one thing, or a pointer; else E304 at the statement.
fn assigned(
    e: &Expr,
    place: Place,
    tree: &FileTree,
    flow: Flow,
    w: &mut Walk,
    b: &mut Body,
) -> Result<Loc, Stop>
    ensures stop { IfErr result MayStop }
{
    match w.meant(e, tree, flow, b)?.loc() {
        Some(l) => {
            if l.form.dims != 0 || l.form.vector && !l.form.is_pointer() {
                return refuse(Code::Mismatch, place); // E304
            }
            Ok(l)
        }
        None => refuse(Code::Mismatch, place),
    }
}

// The kind of what may be assigned as a number; an input isn't written.
fn left_kind(l: &Loc, place: Place) -> Result<Kind, Stop>
    ensures stop { IfErr result MayStop }
{
    if l.form.is_pointer() {
        return refuse(Code::Mismatch, place);
    }
    match l.form.base {
        Base::Number(kind) => match l.pick {
            Some(pick) => Ok(pick),
            None => Ok(kind),
        },
        Base::Output(kind) | Base::Signal(kind) => Ok(kind),
        _ => refuse(Code::Mismatch, place),
    }
}

fn right_side(
    e: &Expr,
    tree: &FileTree,
    flow: Flow,
    w: &mut Walk,
    b: &mut Body,
) -> Result<Draft, Stop>
    ensures stop { IfErr result MayStop }
{
    if let ExprNode::Make { .. } = e.node.get() {
        w.any(e, tree, flow, b)?;
        return refuse(Code::Mismatch, e.place);
    }
    w.value(e, tree, flow, b)
}

// `left op x`, which is stored in the left side.
fn combined(l: &Loc, op: Op, at: Place, left: Place, x: Draft, w: &Walk) -> Result<Draft, Stop>
    ensures stop { IfErr result MayStop }
{
    let old = Loc {
        left: l.left.copied(w.alloc)?,
        form: l.form,
        pick: l.pick,
    };
    let old = Subject::Loc(old).value(w.alloc, left)?;
    operate(w.alloc, left, at, op, old, x)
}

fn store(
    l: Loc,
    x: Draft,
    kind: Kind,
    place: Place,
    w: &Walk,
    b: &mut Body,
    out: &mut List<PlainStmt>,
) -> Result<(), Stop>
    ensures stop { IfErr result MayStop }
{
    let value = convert(w.alloc, x, kind)?.expr;
    let Loc { left, form, .. } = l;
    let node = match form.base {
        Base::Number(_) => PlainNode::Assign { left, value },
        _ => PlainNode::Write { to: left, value },
    };
    finish(b, out, place, node)
}

// A pointer is given what it leads to, or a new object.
fn point(
    e: &Expr,
    l: Loc,
    place: Place,
    tree: &FileTree,
    flow: Flow,
    w: &mut Walk,
    b: &mut Body,
    out: &mut List<PlainStmt>,
) -> Result<(), Stop>
    ensures stop { IfErr result MayStop }
{
    let form = Form {
        base: l.form.base,
        reach: Reach::Pointer,
        vector: l.form.vector,
        dims: 0,
    };
    let left = l.left;
    let node = if let ExprNode::Make { ty, args } = e.node.get() {
        let args = made(ty, args.as_slice(), form, e.place, tree, flow, w, b)?;
        let base = form.base;
        PlainNode::Make { left, base, args }
    } else {
        let target = w.target(e, form, tree, flow, b)?;
        PlainNode::Point { left, target }
    };
    finish(b, out, place, node)
}

// A call as a statement: of a function, or of a port.
fn call(
    e: &Expr,
    place: Place,
    tree: &FileTree,
    flow: Flow,
    w: &mut Walk,
    b: &mut Body,
    out: &mut List<PlainStmt>,
) -> Result<(), Stop>
    ensures stop { IfErr result MayStop }
{
    match w.meant(e, tree, flow, b)?.done() {
        Ok((call, of)) => port_call(e, call, of, place, tree, flow, w, b, out),
        Err(other) => called(other, place, b, out),
    }
}

// The call of a function, whose result isn't used.
fn called(m: Meant, place: Place, b: &mut Body, out: &mut List<PlainStmt>) -> Result<(), Stop>
    ensures stop { IfErr result MayStop }
{
    if !m.is_call() {
        return refuse(Code::Mismatch, place);
    }
    b.flush(out)?;
    Ok(())
}

fn port_call(
    e: &Expr,
    call: PortCall,
    of: Subject,
    place: Place,
    tree: &FileTree,
    flow: Flow,
    w: &mut Walk,
    b: &mut Body,
    out: &mut List<PlainStmt>,
) -> Result<(), Stop>
    ensures stop { IfErr result MayStop }
{
    let args = last_args(e);
    match (call, port_of(of)) {
        (PortCall::Write, Some(port)) => write(args, port, place, tree, flow, w, b, out),
        (PortCall::Bind, Some(port)) => bind(args, port, place, tree, flow, w, b, out),
        _ => {
            w.any_of(args, tree, flow, b)?;
            refuse(Code::Mismatch, place)
        }
    }
}
