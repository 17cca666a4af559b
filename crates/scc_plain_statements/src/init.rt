//! Initialisers of constructors (C++, [class.base.init]).
ghost use Rattle.std.specs.Prelude.{IfErr};
ghost use Rattle.scc_plain_drafts.specs.Refusals.{MayStop};

use crate::make::{MadeAt, made, make_args};
use crate::port::{is_plain, only_value};
use crate::stmts::finish;
use scc_base::{Code, List, Place, Stop, lost};
use scc_plain_bodies::{Body, Flow, Form, Walk, convert, refuse};
use scc_plain_tree::{
    Base, PlainArg, PlainBase, PlainLeft, PlainNode, PlainPart, PlainStmt, PlainTarget, Reach,
};
use scc_templates::Entry;
use scc_tree::{Expr, ExprNode, FileTree, Init};

/// What an initialiser does.
pub(crate) fn init(
    i: &Init,
    tree: &FileTree,
    w: &mut Walk,
    b: &mut Body,
    out: &mut List<PlainStmt>,
) -> Result<(), Stop>
    ensures stop { IfErr result MayStop }
{
    let args = i.args.as_slice();
    let Some(name) = i.name else {
        names(args, tree, w, b)?;
        if args.len() != 1 {
            return refuse(Code::Mismatch, i.place); // E304
        }
        return Ok(b.flush(out)?);
    };
    let scope = b.scope.ok_or(lost())?;
    let Some(found) = w.templates.member(scope, name) else {
        return refuse(Code::UnknownName, i.place); // E301
    };
    let Entry::Field(k) = found.entry else {
        return refuse(Code::Mismatch, i.place);
    };
    let form = w.field_form(scope, k, tree)?;
    w.note_this(b)?;
    begin_member(args, form, k, i.place, tree, w, b, out)
}

// What the initialiser of the member of that number does.
fn begin_member(
    args: &[Expr],
    form: Form,
    k: usize,
    place: Place,
    tree: &FileTree,
    w: &mut Walk,
    b: &mut Body,
    out: &mut List<PlainStmt>,
) -> Result<(), Stop>
    ensures stop { IfErr result MayStop }
{
    let mut left = PlainLeft::new(w.alloc, place, PlainBase::This);
    let member = u32::try_from(k).map_err(|_| lost())?;
    left.parts.push(PlainPart::Member(member))?;
    let node = begun(args, form, left, place, tree, w, b)?;
    match node {
        Some(node) => finish(b, out, place, node),
        None => Ok(b.flush(out)?),
    }
}

// Names of modules, which have no effect.
fn names(args: &[Expr], tree: &FileTree, w: &mut Walk, b: &mut Body) -> Result<(), Stop>
    ensures stop { IfErr result MayStop }
{
    let form = Form::direct(Base::ModuleName);
    for e in args {
        let _name = w.argument(e, form, tree, Flow::start(), b)?;
    }
    Ok(())
}

// How a member begins; None where nothing but calls of its arguments is to be done.
fn begun(
    args: &[Expr],
    form: Form,
    left: PlainLeft,
    place: Place,
    tree: &FileTree,
    w: &mut Walk,
    b: &mut Body,
) -> Result<Option<PlainNode>, Stop>
    ensures stop { IfErr result MayStop }
{
    if form.reach != Reach::Direct {
        return pointed(args, form, left, place, tree, w, b);
    }
    let is_class = match form.base {
        Base::Class(_) => true,
        _ => false,
    };
    if form.vector || is_class {
        let name = place;
        let at = MadeAt { place, name };
        let args = make_args(args, form, at, tree, Flow::start(), w, b)?;
        let base = form.base;
        return Ok(Some(PlainNode::Make { left, base, args }));
    }
    match form.base {
        Base::Number(kind) => {
            let x = only_value(args, tree, Flow::start(), w, b)?;
            if args.is_empty() {
                return Ok(None);
            }
            if form.dims != 0 {
                return refuse(Code::Mismatch, place);
            }
            let Some(x) = x else {
                return refuse(Code::Mismatch, place);
            };
            let value = convert(w.alloc, x, kind)?.expr;
            Ok(Some(PlainNode::Assign { left, value }))
        }
        _ => {
            names(args, tree, w, b)?;
            if args.len() > 1 {
                return refuse(Code::Mismatch, place);
            }
            Ok(None)
        }
    }
}

// How a member begins that is a pointer or a reference.
fn pointed(
    args: &[Expr],
    form: Form,
    left: PlainLeft,
    place: Place,
    tree: &FileTree,
    w: &mut Walk,
    b: &mut Body,
) -> Result<Option<PlainNode>, Stop>
    ensures stop { IfErr result MayStop }
{
    if args.is_empty() && form.is_pointer() {
        return Ok(None);
    }
    if let Some(args) = new_object(args, form, tree, w, b)? {
        let base = form.base;
        return Ok(Some(PlainNode::Make { left, base, args }));
    }
    let target = only_target(args, form, tree, w, b)?;
    if form.dims != 0 {
        return refuse(Code::Mismatch, place);
    }
    match target {
        Some(target) => Ok(Some(PlainNode::Point { left, target })),
        None => refuse(Code::Mismatch, place),
    }
}

// The arguments of the `new` that a pointer is given; None where it is given something else.
fn new_object(
    args: &[Expr],
    form: Form,
    tree: &FileTree,
    w: &mut Walk,
    b: &mut Body,
) -> Result<Option<List<PlainArg>>, Stop>
    ensures stop { IfErr result MayStop }
{
    let [e] = args else {
        return Ok(None);
    };
    if !form.is_pointer() || form.dims != 0 {
        return Ok(None);
    }
    let ExprNode::Make { ty, args } = e.node.get() else {
        return Ok(None);
    };
    let args = made(
        ty,
        args.as_slice(),
        form,
        e.place,
        tree,
        Flow::start(),
        w,
        b,
    )?;
    Ok(Some(args))
}

// What the only argument leads to; None where there are others or where it is a text or `new`. All are walked.
fn only_target(
    args: &[Expr],
    form: Form,
    tree: &FileTree,
    w: &mut Walk,
    b: &mut Body,
) -> Result<Option<PlainTarget>, Stop>
    ensures stop { IfErr result MayStop }
{
    let mut last = None;
    for e in args {
        last = None;
        if is_plain(e) {
            last = Some(w.target(e, form, tree, Flow::start(), b)?);
        } else {
            w.any(e, tree, Flow::start(), b)?;
        }
    }
    if args.len() != 1 {
        return Ok(None);
    }
    Ok(last)
}
