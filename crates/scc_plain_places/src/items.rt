//! Declarations.
ghost use Rattle.std.specs.Prelude.{◌≡◌, map, option_map};
ghost use Rattle.scc_plain_places.specs.Expressions as spec;
ghost use Rattle.scc_plain_places.specs.Items as items;
ghost use Rattle.scc_plain_places.specs.Statements as stmts;

use crate::expressions::{
    in_arg, in_args, in_args_if, in_expr, in_expr_if, in_exprs, in_ty, is_at,
};
use crate::statements::{in_decl, in_stmts};
use scc_base::{List, Place, Refusal};
use scc_tree::{
    ClassTree, Enumerator, Field, FileTree, FunctionTree, Init, Item, ItemNode, Param, Prm, Stmt,
    Ty, TyArg,
};

fn in_ty_if(x: &Option<Ty>, place: Place) -> bool
    ensures { result ≡ spec.one_if (option_map spec.ty x.now) place }
{
    match x {
        Some(x) => in_ty(x, place),
        None => false,
    }
}

fn in_arg_if(x: &Option<TyArg>, place: Place) -> bool
    ensures { result ≡ spec.one_if (option_map spec.arg x.now) place }
{
    match x {
        Some(x) => in_arg(x, place),
        None => false,
    }
}

fn in_stmts_if(list: &Option<List<Stmt>>, place: Place) -> bool
    ensures { result ≡ spec.any_if (option_map (map stmts.stmt) list.now) place }
{
    match list {
        Some(list) => in_stmts(list.as_slice(), place),
        None => false,
    }
}

fn in_param(p: &Param, place: Place) -> bool
    ensures { result ≡ items.param p.now place }
{
    is_at(p.place, place) || in_arg_if(&p.preset, place)
}

fn in_params(list: &[Param], place: Place) -> bool
    ensures { result ≡ spec.any (map items.param list.now) place }
{
    for x in list {
        if in_param(x, place) {
            return true;
        }
    }
    false
}

fn in_prm(p: &Prm, place: Place) -> bool
    ensures { result ≡ items.prm p.now place }
{
    is_at(p.place, place) || in_ty(&p.ty, place)
}

fn in_prms(list: &[Prm], place: Place) -> bool
    ensures { result ≡ spec.any (map items.prm list.now) place }
{
    for x in list {
        if in_prm(x, place) {
            return true;
        }
    }
    false
}

fn in_init(i: &Init, place: Place) -> bool
    ensures { result ≡ items.init i.now place }
{
    is_at(i.place, place) || in_exprs(i.args.as_slice(), place)
}

fn in_inits(list: &[Init], place: Place) -> bool
    ensures { result ≡ spec.any (map items.init list.now) place }
{
    for x in list {
        if in_init(x, place) {
            return true;
        }
    }
    false
}

fn in_function(f: &FunctionTree, place: Place) -> bool
    ensures { result ≡ items.function f.now place }
{
    is_at(f.place, place)
        || in_ty_if(&f.result, place)
        || in_prms(f.params.as_slice(), place)
        || in_inits(f.inits.as_slice(), place)
        || in_stmts_if(&f.body, place)
}

fn in_field(f: &Field, place: Place) -> bool
    ensures { result ≡ items.field f.now place }
{
    is_at(f.place, place) || in_ty(&f.ty, place) || in_decl(&f.decl, place)
}

fn in_fields(list: &[Field], place: Place) -> bool
    ensures { result ≡ spec.any (map items.field list.now) place }
{
    for x in list {
        if in_field(x, place) {
            return true;
        }
    }
    false
}

fn in_enumerator(e: &Enumerator, place: Place) -> bool
    ensures { result ≡ items.enumerator e.now place }
{
    is_at(e.place, place) || in_expr_if(&e.value, place)
}

fn in_enumerators(list: &[Enumerator], place: Place) -> bool
    ensures { result ≡ spec.any (map items.enumerator list.now) place }
{
    for x in list {
        if in_enumerator(x, place) {
            return true;
        }
    }
    false
}

#[cycle(items)]
fn in_item(i: &Item, place: Place) -> bool
    ensures { result ≡ items.item i.now place }
{
    is_at(i.place, place) || in_item_node(&i.node, place)
}

#[cycle(items)]
fn in_item_node(node: &ItemNode, place: Place) -> bool
    ensures { result ≡ items.item_node node.now place }
{
    match node {
        ItemNode::Class(class) => in_class(class, place),
        ItemNode::Alias(t) => in_ty(t, place),
        ItemNode::Numbers(list) => in_enumerators(list.as_slice(), place),
        ItemNode::Constant { ty, value } => in_ty(ty, place) || in_expr(value, place),
        ItemNode::Function(f) => in_function(f, place),
        ItemNode::Outside {
            params,
            args,
            function,
            ..
        } => {
            in_params(params.as_slice(), place)
                || in_args(args.as_slice(), place)
                || in_function(function, place)
        }
    }
}

#[cycle(items)]
fn in_class(c: &ClassTree, place: Place) -> bool
    ensures { result ≡ items.class_tree c.now place }
{
    in_params(c.params.as_slice(), place)
        || in_args_if(&c.special, place)
        || in_items(c.items.as_slice(), place)
        || in_fields(c.fields.as_slice(), place)
}

#[cycle(items)]
fn in_items(list: &[Item], place: Place) -> bool
    ensures { result ≡ spec.any (map items.item list.now) place }
{
    for x in list {
        if in_item(x, place) {
            return true;
        }
    }
    false
}

fn in_tree(tree: &FileTree, place: Place) -> bool
    ensures { result ≡ items.is_place_of tree.now place }
{
    is_at(tree.end, place) || in_items(tree.items.as_slice(), place)
}

fn in_tree_if(tree: &FileTree, place: Option<Place>) -> bool
    ensures { result ≡ items.is_place_if tree.now place }
{
    match place {
        Some(place) => in_tree(tree, place),
        None => true,
    }
}

/// Whether a refusal stands at a place of a node of a tree or at its end, and so does its second place, where it has one.
pub fn is_placed(tree: &FileTree, r: Refusal) -> bool
    ensures placed { result ≡ items.is_placed tree.now r }
{
    in_tree(tree, r.place) && in_tree_if(tree, r.other)
}
