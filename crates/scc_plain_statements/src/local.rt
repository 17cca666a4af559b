//! Local variables (C++, [stmt.dcl], [dcl.init]).
ghost use Rattle.std.specs.Prelude.{IfErr};
ghost use Rattle.scc_plain_drafts.specs.Refusals.{MayStop};

use crate::stmts::finish;
use scc_base::{Code, List, Place, Stop};
use scc_plain_bodies::{Body, Flow, Form, Walk, convert, refuse};
use scc_plain_tree::{Base, PlainBase, PlainLeft, PlainNode, PlainStmt, Reach};
use scc_tree::{Expr, FileTree, LocalDecl, LocalTree};

/// Declares local variables. Each is known after its declarator.
pub(crate) fn locals(
    declared: &LocalTree,
    tree: &FileTree,
    flow: Flow,
    w: &mut Walk,
    b: &mut Body,
    out: &mut List<PlainStmt>,
) -> Result<(), Stop>
    ensures stop { IfErr result MayStop }
{
    for d in declared.names.as_slice() {
        local(d, declared, tree, flow, w, b, out)?;
    }
    Ok(())
}

// Whether a local may hold it: a number, a pointer or a reference.
fn is_local_form(form: Form) -> bool {
    match form.reach {
        Reach::Direct => match form.base {
            Base::Number(_) => !form.vector,
            _ => false,
        },
        Reach::Pointer => true,
        Reach::Reference => form.dims == 0,
    }
}

fn local(
    d: &LocalDecl,
    declared: &LocalTree,
    tree: &FileTree,
    flow: Flow,
    w: &mut Walk,
    b: &mut Body,
    out: &mut List<PlainStmt>,
) -> Result<(), Stop>
    ensures stop { IfErr result MayStop }
{
    let place = d.decl.place;
    let shape = w.shape_of(&declared.ty, &d.decl, tree, b)?;
    let form = Form::of(&shape)?;
    if !is_local_form(form) {
        return refuse(Code::Mismatch, place); // E304
    }
    let n = b.declare(d.decl.name, place, shape)?;
    let node = match &d.value {
        Some(e) => initial(e, n, form, place, tree, flow, w, b)?,
        None => PlainNode::Declare(n),
    };
    finish(b, out, place, node)
}

// A variable begins with a value; an array doesn't.
fn initial(
    e: &Expr,
    n: u32,
    form: Form,
    place: Place,
    tree: &FileTree,
    flow: Flow,
    w: &mut Walk,
    b: &mut Body,
) -> Result<PlainNode, Stop>
    ensures stop { IfErr result MayStop }
{
    let left = PlainLeft::new(w.alloc, place, PlainBase::Local(n));
    match (form.reach, form.base) {
        (Reach::Direct, Base::Number(kind)) => {
            let x = w.value(e, tree, flow, b)?;
            if form.dims != 0 {
                return refuse(Code::Mismatch, place);
            }
            let value = convert(w.alloc, x, kind)?.expr;
            Ok(PlainNode::Assign { left, value })
        }
        _ => {
            let target = w.target(e, form, tree, flow, b)?;
            if form.dims != 0 {
                return refuse(Code::Mismatch, place);
            }
            Ok(PlainNode::Point { left, target })
        }
    }
}
