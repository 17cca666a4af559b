//! Expressions and types.
ghost use Rattle.std.specs.Prelude.{◌≡◌, map, option_map};
ghost use Rattle.scc_plain_places.specs.Expressions as spec;

use scc_base::{List, Place};
use scc_tree::{Expr, ExprNode, Link, Part, PartNode, Ty, TyArg, TyNode};

/// Whether two places are one.
pub(crate) fn is_at(a: Place, place: Place) -> bool
    ensures { result ≡ spec.is_at a place }
{
    a.file == place.file && a.at == place.at
}

/// Whether a place is one of a node of an expression.
#[cycle(places)]
pub(crate) fn in_expr(e: &Expr, place: Place) -> bool
    ensures { result ≡ spec.expr e.now place }
{
    is_at(e.place, place) || in_node(e.node.get(), place)
}

#[cycle(places)]
fn in_node(node: &ExprNode, place: Place) -> bool
    ensures { result ≡ spec.node node.now place }
{
    match node {
        ExprNode::Number(_, _) => false,
        ExprNode::This => false,
        ExprNode::Null => false,
        ExprNode::Text => false,
        ExprNode::Ident(_) => false,
        ExprNode::Scoped { ty, .. } => in_ty(ty, place),
        ExprNode::Chain { first, rest } => in_expr(first, place)
            || in_links(rest.as_slice(), place),
        ExprNode::Unary { of, .. } => in_expr(of, place),
        ExprNode::Cond { test, yes, no } => {
            in_expr(test, place) || in_expr(yes, place) || in_expr(no, place)
        }
        ExprNode::Cast { ty, of } => in_ty(ty, place) || in_expr(of, place),
        ExprNode::Parts { of, parts } => in_expr(of, place) || in_parts(parts.as_slice(), place),
        ExprNode::Concat(list) => in_exprs(list.as_slice(), place),
        ExprNode::Make { ty, args } => in_ty(ty, place) || in_exprs(args.as_slice(), place),
    }
}

/// The same for a list.
#[cycle(places)]
pub(crate) fn in_exprs(list: &[Expr], place: Place) -> bool
    ensures { result ≡ spec.any (map spec.expr list.now) place }
{
    for x in list {
        if in_expr(x, place) {
            return true;
        }
    }
    false
}

#[cycle(places)]
fn in_link(link: &Link, place: Place) -> bool
    ensures { result ≡ spec.link link.now place }
{
    is_at(link.place, place) || in_expr(&link.operand, place)
}

#[cycle(places)]
fn in_links(list: &[Link], place: Place) -> bool
    ensures { result ≡ spec.any (map spec.link list.now) place }
{
    for x in list {
        if in_link(x, place) {
            return true;
        }
    }
    false
}

#[cycle(places)]
fn in_part(part: &Part, place: Place) -> bool
    ensures { result ≡ spec.part part.now place }
{
    is_at(part.place, place) || in_part_node(&part.node, place)
}

#[cycle(places)]
fn in_part_node(node: &PartNode, place: Place) -> bool
    ensures { result ≡ spec.part_node node.now place }
{
    match node {
        PartNode::Index(e) => in_expr(e, place),
        PartNode::Member(_) => false,
        PartNode::Arrow(_) => false,
        PartNode::Call(args) => in_exprs(args.as_slice(), place),
    }
}

#[cycle(places)]
fn in_parts(list: &[Part], place: Place) -> bool
    ensures { result ≡ spec.any (map spec.part list.now) place }
{
    for x in list {
        if in_part(x, place) {
            return true;
        }
    }
    false
}

/// Whether a place is one of a node of a type.
#[cycle(places)]
pub(crate) fn in_ty(t: &Ty, place: Place) -> bool
    ensures { result ≡ spec.ty t.now place }
{
    is_at(t.place, place) || in_ty_node(t.node.get(), place)
}

#[cycle(places)]
fn in_ty_node(node: &TyNode, place: Place) -> bool
    ensures { result ≡ spec.ty_node node.now place }
{
    match node {
        TyNode::Number(_) => false,
        TyNode::Sized { width, .. } => in_expr(width, place),
        TyNode::Input(t) => in_ty(t, place),
        TyNode::Output(t) => in_ty(t, place),
        TyNode::Signal(t) => in_ty(t, place),
        TyNode::Vector(t) => in_ty(t, place),
        TyNode::ModuleName => false,
        TyNode::Named {
            args: Some(args),
            ..
        } => in_args(args.as_slice(), place),
        TyNode::Named { args: None, .. } => false,
    }
}

/// Whether a place is one of a node of an argument of a template.
#[cycle(places)]
pub(crate) fn in_arg(a: &TyArg, place: Place) -> bool
    ensures { result ≡ spec.arg a.now place }
{
    match a {
        TyArg::Value(e) => in_expr(e, place),
        TyArg::Named(t) => in_ty(t, place),
    }
}

/// The same for a list.
#[cycle(places)]
pub(crate) fn in_args(list: &[TyArg], place: Place) -> bool
    ensures { result ≡ spec.any (map spec.arg list.now) place }
{
    for x in list {
        if in_arg(x, place) {
            return true;
        }
    }
    false
}

/// The same where there is a list.
pub(crate) fn in_args_if(list: &Option<List<TyArg>>, place: Place) -> bool
    ensures { result ≡ spec.any_if (option_map (map spec.arg) list.now) place }
{
    match list {
        Some(list) => in_args(list.as_slice(), place),
        None => false,
    }
}

/// The same where there is an expression.
pub(crate) fn in_expr_if(x: &Option<Expr>, place: Place) -> bool
    ensures { result ≡ spec.one_if (option_map spec.expr x.now) place }
{
    match x {
        Some(x) => in_expr(x, place),
        None => false,
    }
}
