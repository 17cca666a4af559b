//! Objects that are made with arguments (C++, [expr.new], [class.ctor]; IEEE 1666-2011, 5.2, 5.3, 8.5).
ghost use Rattle.std.specs.Prelude.{IfErr};
ghost use Rattle.scc_plain_drafts.specs.Refusals.{MayStop};

use scc_base::{Code, List, Name, NoMemory, Place, Stop, lost};
use scc_bits::Kind;
use scc_plain_bodies::{Body, Flow, Form, FunctionId, Walk, base_of, refuse};
use scc_plain_tree::{Base, PlainArg};
use scc_templates::{FunctionKey, InstanceId};
use scc_tree::{Expr, FileTree, Ty};

/// Where an object is made: the construct, and the name that is refused where there is no constructor.
#[derive(Clone, Copy)]
pub struct MadeAt {
    pub place: Place,
    pub name: Place,
}

/// The arguments of `new`, which has to be of a form's type; else E304 at the `new`.
pub(crate) fn made(
    ty: &Ty,
    args: &[Expr],
    form: Form,
    place: Place,
    tree: &FileTree,
    flow: Flow,
    w: &mut Walk,
    b: &mut Body,
) -> Result<List<PlainArg>, Stop>
    ensures stop { IfErr result MayStop }
{
    let t = w.type_of(ty, tree, b)?;
    let mut own = Form::direct(base_of(t.base));
    own.vector = t.vector;
    let name = ty.place;
    let args = make_args(args, own, MadeAt { place, name }, tree, flow, w, b)?;
    if !own.is_like(form) {
        return refuse(Code::Mismatch, place); // E304
    }
    Ok(args)
}

/// The arguments with which an object of a form's type is made.
pub(crate) fn make_args(
    args: &[Expr],
    form: Form,
    at: MadeAt,
    tree: &FileTree,
    flow: Flow,
    w: &mut Walk,
    b: &mut Body,
) -> Result<List<PlainArg>, Stop>
    ensures stop { IfErr result MayStop }
{
    let name = Form::direct(Base::ModuleName);
    if form.vector {
        let size = Form::direct(Base::Number(Kind::Native {
            bits: 64,
            signed: false,
        }));
        let list = given(args, &[name, size], at.place, tree, flow, w, b)?;
        if let Base::Class(n) = form.base {
            made_bare(InstanceId(n), at, tree, w)?;
        }
        return Ok(list);
    }
    match form.base {
        Base::Class(n) => class_args(args, InstanceId(n), at, tree, flow, w, b),
        Base::Input(_) | Base::Output(_) | Base::Signal(_) => {
            given(args, &[name], at.place, tree, flow, w, b)
        }
        Base::Number(_) => {
            if args.len() == 1 {
                let own = Form::direct(form.base);
                return given(args, &[own], at.place, tree, flow, w, b);
            }
            given(args, &[], at.place, tree, flow, w, b)
        }
        Base::ModuleName => {
            w.any_of(args, tree, flow, b)?;
            refuse(Code::Mismatch, at.place)
        }
    }
}

// At most so many arguments, each for its form; others are walked and refused.
fn given(
    args: &[Expr],
    forms: &[Form],
    place: Place,
    tree: &FileTree,
    flow: Flow,
    w: &mut Walk,
    b: &mut Body,
) -> Result<List<PlainArg>, Stop>
    ensures stop { IfErr result MayStop }
{
    let mut list = List::new(w.alloc);
    for (k, e) in args.iter().enumerate() {
        match forms.get(k).copied() {
            Some(form) => list.push(w.argument(e, form, tree, flow, b)?)?,
            None => w.any(e, tree, flow, b)?,
        }
    }
    if args.len() > forms.len() {
        return refuse(Code::Mismatch, place);
    }
    Ok(list)
}

/// The name of an instance's class.
pub fn class_name(i: InstanceId, tree: &FileTree, w: &Walk) -> Result<Name, NoMemory> {
    let (class, _) = w.templates.args_of(i).ok_or(lost())?;
    let item = tree.items.get(class.0 as usize).ok_or(lost())?;
    item.name.ok_or(lost())
}

fn is_module(i: InstanceId, tree: &FileTree, w: &Walk) -> bool {
    match w.templates.body(tree, i) {
        Some(class) => class.module,
        None => false,
    }
}

fn are_names(forms: &[Form]) -> bool {
    forms.iter().all(|form| form.base == Base::ModuleName)
}

/// The constructor of an instance, where it has one with a body; `place` is where it is asked for.
pub fn constructor(
    i: InstanceId,
    place: Place,
    tree: &FileTree,
    w: &mut Walk,
) -> Result<Option<FunctionId>, Stop>
    ensures stop { IfErr result MayStop }
{
    let key = FunctionKey {
        scope: Some(i),
        name: class_name(i, tree, w)?,
        constructor: true,
    };
    w.function(key, place, tree)
}

/// The same, None where its class declares none. Refuses by E301 at the place where it has no body.
pub fn constructor_for(
    i: InstanceId,
    place: Place,
    tree: &FileTree,
    w: &mut Walk,
) -> Result<Option<FunctionId>, Stop>
    ensures stop { IfErr result MayStop }
{
    let name = class_name(i, tree, w)?;
    if w.templates.first_declared(i, name, true).is_none() {
        return Ok(None);
    }
    match constructor(i, place, tree, w)? {
        Some(f) => Ok(Some(f)),
        None => refuse(Code::UnknownName, place), // E301
    }
}

/// Sees that an object can be made without arguments. Refuses by E301 at the name where its constructor has no body, and by E304 where this has
/// parameters but names.
pub fn made_bare(i: InstanceId, at: MadeAt, tree: &FileTree, w: &mut Walk) -> Result<(), Stop>
    ensures stop { IfErr result MayStop }
{
    let Some(f) = constructor_for(i, at.name, tree, w)? else {
        return Ok(());
    };
    w.sign(f, tree)?;
    if !are_names(w.params_of(f)) {
        return refuse(Code::Mismatch, at.place);
    }
    Ok(())
}

// The arguments of a constructor. A module may have its name before them, and no arguments fit where all are names.
fn class_args(
    args: &[Expr],
    i: InstanceId,
    at: MadeAt,
    tree: &FileTree,
    flow: Flow,
    w: &mut Walk,
    b: &mut Body,
) -> Result<List<PlainArg>, Stop>
    ensures stop { IfErr result MayStop }
{
    let Some(f) = constructor_for(i, at.name, tree, w)? else {
        if !args.is_empty() {
            return refuse(Code::UnknownName, at.name);
        }
        return Ok(List::new(w.alloc));
    };
    w.sign(f, tree)?;
    let lead = leading(args, i, f, tree, w)?;
    let list = w.arguments(args, f, lead, tree, flow, b)?;
    let wanted = w.params_of(f).len().checked_add(lead).ok_or(lost())?;
    let is_empty = args.is_empty() && are_names(w.params_of(f));
    if args.len() != wanted && !is_empty {
        return refuse(Code::Mismatch, at.place);
    }
    Ok(list)
}

// How many names stand before the arguments for a constructor's parameters.
fn leading(
    args: &[Expr],
    i: InstanceId,
    f: FunctionId,
    tree: &FileTree,
    w: &Walk,
) -> Result<usize, NoMemory> {
    let wanted = w.params_of(f).len().checked_add(1).ok_or(lost())?;
    if is_module(i, tree, w) && args.len() == wanted {
        return Ok(1);
    }
    Ok(0)
}
