//! Statements.
ghost use Rattle.std.specs.Prelude.{◌≡◌, map, option_map};
ghost use Rattle.scc_plain_places.specs.Expressions as spec;
ghost use Rattle.scc_plain_places.specs.Statements as stmts;

use crate::expressions::{in_expr, in_expr_if, in_exprs, in_ty, is_at};
use scc_base::Place;
use scc_tree::{
    Decl, Expr, ForFirst, LocalDecl, LocalTree, SimpleNode, SimpleTree, Stmt, StmtNode, SwitchItem,
    SwitchNode,
};

/// Whether a place is one of a node of a declarator.
pub(crate) fn in_decl(d: &Decl, place: Place) -> bool
    ensures { result ≡ stmts.decl d.now place }
{
    is_at(d.place, place) || in_exprs(d.sizes.as_slice(), place)
}

fn in_local_decl(d: &LocalDecl, place: Place) -> bool
    ensures { result ≡ stmts.local_decl d.now place }
{
    in_decl(&d.decl, place) || in_expr_if(&d.value, place)
}

fn in_local_decls(list: &[LocalDecl], place: Place) -> bool
    ensures { result ≡ spec.any (map stmts.local_decl list.now) place }
{
    for x in list {
        if in_local_decl(x, place) {
            return true;
        }
    }
    false
}

fn in_locals(l: &LocalTree, place: Place) -> bool
    ensures { result ≡ stmts.locals l.now place }
{
    in_ty(&l.ty, place) || in_local_decls(l.names.as_slice(), place)
}

fn in_simple_node(node: &SimpleNode, place: Place) -> bool
    ensures { result ≡ stmts.simple_node node.now place }
{
    match node {
        SimpleNode::Assign {
            left,
            op_place,
            value,
            ..
        } => in_expr(left, place) || is_at(*op_place, place) || in_expr(value, place),
        SimpleNode::Step { of, op_place, .. } => in_expr(of, place) || is_at(*op_place, place),
        SimpleNode::Call(e) => in_expr(e, place),
    }
}

fn in_simple(s: &SimpleTree, place: Place) -> bool
    ensures { result ≡ stmts.simple_tree s.now place }
{
    is_at(s.place, place) || in_simple_node(&s.node, place)
}

fn in_simple_if(x: &Option<SimpleTree>, place: Place) -> bool
    ensures { result ≡ spec.one_if (option_map stmts.simple_tree x.now) place }
{
    match x {
        Some(x) => in_simple(x, place),
        None => false,
    }
}

fn in_first(first: &ForFirst, place: Place) -> bool
    ensures { result ≡ stmts.for_first first.now place }
{
    match first {
        ForFirst::Nothing => false,
        ForFirst::Local(l) => in_locals(l, place),
        ForFirst::Simple(s) => in_simple(s, place),
    }
}

fn in_head(first: &ForFirst, test: &Option<Expr>, step: &Option<SimpleTree>, place: Place) -> bool
    ensures { result ≡ stmts.head first.now test.now step.now place }
{
    in_first(first, place) || in_expr_if(test, place) || in_simple_if(step, place)
}

#[cycle(statements)]
fn in_stmt(s: &Stmt, place: Place) -> bool
    ensures { result ≡ stmts.stmt s.now place }
{
    is_at(s.place, place) || in_stmt_node(s.node.get(), place)
}

#[cycle(statements)]
fn in_stmt_node(node: &StmtNode, place: Place) -> bool
    ensures { result ≡ stmts.stmt_node node.now place }
{
    match node {
        StmtNode::Block(list) => in_stmts(list.as_slice(), place),
        StmtNode::If { test, yes, no } => {
            in_expr(test, place) || in_stmt(yes, place) || in_stmt_if(no, place)
        }
        StmtNode::Switch { of, items } => {
            in_expr(of, place) || in_switch_items(items.as_slice(), place)
        }
        StmtNode::While { test, body } => in_expr(test, place) || in_stmt(body, place),
        StmtNode::Do { body, test } => in_stmt(body, place) || in_expr(test, place),
        StmtNode::For {
            first,
            test,
            step,
            body,
        } => in_head(first, test, step, place) || in_stmt(body, place),
        StmtNode::Empty => false,
        StmtNode::Break => false,
        StmtNode::Continue => false,
        StmtNode::DontInitialize => false,
        StmtNode::Local(l) => in_locals(l, place),
        StmtNode::Return(e) => in_expr_if(e, place),
        StmtNode::Wait(e) => in_expr_if(e, place),
        StmtNode::Method { at, .. } => is_at(*at, place),
        StmtNode::Thread { at, .. } => is_at(*at, place),
        StmtNode::ClockedThread { at, edge, .. } => is_at(*at, place) || in_expr(edge, place),
        StmtNode::Sensitive(list) => in_exprs(list.as_slice(), place),
        StmtNode::ResetSignal { signal, level, .. } => {
            in_expr(signal, place) || in_expr(level, place)
        }
        StmtNode::Simple(s) => in_simple(s, place),
    }
}

/// Whether a place is one of a node of statements.
#[cycle(statements)]
pub(crate) fn in_stmts(list: &[Stmt], place: Place) -> bool
    ensures { result ≡ spec.any (map stmts.stmt list.now) place }
{
    for x in list {
        if in_stmt(x, place) {
            return true;
        }
    }
    false
}

#[cycle(statements)]
fn in_stmt_if(x: &Option<Stmt>, place: Place) -> bool
    ensures { result ≡ spec.one_if (option_map stmts.stmt x.now) place }
{
    match x {
        Some(x) => in_stmt(x, place),
        None => false,
    }
}

#[cycle(statements)]
fn in_switch_item(i: &SwitchItem, place: Place) -> bool
    ensures { result ≡ stmts.switch_item i.now place }
{
    is_at(i.place, place) || in_switch_node(&i.node, place)
}

#[cycle(statements)]
fn in_switch_items(list: &[SwitchItem], place: Place) -> bool
    ensures { result ≡ spec.any (map stmts.switch_item list.now) place }
{
    for x in list {
        if in_switch_item(x, place) {
            return true;
        }
    }
    false
}

#[cycle(statements)]
fn in_switch_node(node: &SwitchNode, place: Place) -> bool
    ensures { result ≡ stmts.switch_node node.now place }
{
    match node {
        SwitchNode::Case(e) => in_expr(e, place),
        SwitchNode::Otherwise => false,
        SwitchNode::Stmt(s) => in_stmt(s, place),
    }
}
