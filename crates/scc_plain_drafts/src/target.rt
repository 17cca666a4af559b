//! What pointers and references are given (C++, [conv.ptr], [dcl.init.ref]).
ghost use Rattle.std.specs.Prelude.{◌≡◌, [], IfErr, IfOk, None};
ghost use Rattle.scc_elab_spec.specs.Term.{Follow, This, Whole};
ghost use Rattle.scc_plain_drafts.specs.Forms.{AreTold, Classes, form_in, loc_in};
ghost use Rattle.scc_plain_drafts.specs.Meaning.{Locates};
ghost use Rattle.scc_plain_drafts.specs.Refusals.{MayStop};
ghost use Rattle.scc_plain_spec.specs.Calls.{is_zero};
ghost use Rattle.scc_plain_spec.specs.Forms.{is_all};
ghost use Rattle.scc_plain_spec.specs.Meant as spec;
ghost use Rattle.scc_plain_view.specs.Terms.{left_of, taken_of, target_of};
ghost use Rattle.scc_templates_scopes.specs.Walks.{Gives};
ghost use Rattle.scc_templates_spec.specs.View.{tree_of};
ghost use Rattle.scc_templates_spec.specs.World.{Owner};

use crate::draft::is_kind;
use crate::form::{Form, Loc};
use crate::refusal::refuse;
use crate::syntax::{is_applied, is_operated};
use scc_base::{Boxed, Code, List, NoMemory, Place, Stop};
use scc_bits::Kind;
use scc_plain_tree::{PlainBase, PlainLeft, PlainTarget, Reach};
use scc_tree::{Expr, ExprNode};
use std::alloc::Global;

const INT: Kind = Kind::Native {
    bits: 32,
    signed: true,
};

/// Whether an expression is the number 0 of `int`, which is null for a pointer.
pub fn is_zero(e: &Expr) -> bool
    ensures { result ≡ is_zero (tree_of e.now) }
{
    match e.node.get() {
        ExprNode::Number(kind, word) => {
            if !is_kind(*kind, INT) {
                return false;
            }
            word.bits == 0
        }
        ExprNode::Parts { of, parts } => match parts.as_slice().split_last() {
            Some((part, _)) => !is_applied(part),
            None => is_zero(of),
        },
        ExprNode::Chain { first, rest } => match rest.as_slice().split_last() {
            Some((link, _)) => !is_operated(link),
            None => is_zero(first),
        },
        _ => false,
    }
}

/// The location that a base names by itself.
pub fn at_base(alloc: Global, place: Place, base: PlainBase) -> PlainLeft
    ensures { result ≡ record { place = place; base = base; parts = []; pick = None } }
{
    PlainLeft {
        place,
        base,
        parts: List::new(alloc),
        pick: None,
    }
}

// What a pointer at a location leads to.
fn follow(alloc: Global, place: Place, left: PlainLeft) -> Result<PlainLeft, NoMemory>
    ensures { IfOk result (λ x. taken_of x ≡ record { left = Follow place (left_of left); pick = Whole; of = None }) }
{
    let left = Boxed::new(alloc, left)?;
    Ok(at_base(alloc, place, PlainBase::Follow(left)))
}

/// The object whose function this is.
pub(crate) fn own_object(alloc: Global, place: Place) -> PlainLeft
    ensures { taken_of result ≡ record { left = This place; pick = Whole; of = None } }
{
    at_base(alloc, place, PlainBase::This)
}

/// What a variable leads to. Refuses by E304.
pub(crate) fn behind(alloc: Global, l: Loc, place: Place) -> Result<Loc, Stop>
    ensures stop { IfErr result MayStop }
    ensures is { (n : Classes) → Locates n result (spec.behind place (loc_in n l)) }
{
    if !l.form.is_pointer() {
        return refuse(Code::Mismatch, place); // E304
    }
    if l.form.dims != 0 {
        return refuse(Code::Mismatch, place);
    }
    let form = Form {
        base: l.form.base,
        reach: Reach::Direct,
        vector: l.form.vector,
        dims: 0,
    };
    Ok(Loc::new(follow(alloc, place, l.left)?, form))
}

/// A reference leads to the thing itself, a pointer where another one leads. Refuses by E304.
pub(crate) fn at_location(l: Loc, form: Form, place: Place) -> Result<PlainTarget, Stop>
    ensures stop { IfErr result MayStop }
    ensures is { (n : Classes) (o : Owner) → AreTold n l.form.base form.base → Gives target_of result (spec.aimed place o (form_in n form) (spec.Stands (loc_in n l))) }
{
    if l.form.dims != 0 {
        return refuse(Code::Mismatch, place);
    }
    if !is_all(&l) {
        return refuse(Code::Mismatch, place);
    }
    if !l.form.is_like(form) {
        return refuse(Code::Mismatch, place);
    }
    let leads = l.form.is_pointer();
    match form.reach {
        Reach::Reference => {
            if leads {
                return refuse(Code::Mismatch, place);
            }
            Ok(PlainTarget::Address(l.left))
        }
        Reach::Pointer => {
            if !leads {
                return refuse(Code::Mismatch, place);
            }
            Ok(PlainTarget::Copy(l.left))
        }
        Reach::Direct => refuse(Code::Mismatch, place),
    }
}

/// Whether no bits are picked.
pub fn is_all(l: &Loc) -> bool
    ensures { (n : Classes) → result ≡ is_all (loc_in n l.now).taken }
{
    match l.pick {
        None => true,
        Some(_) => false,
    }
}
