//! The printed form of statements.
use super::shown::{Shown, expr, exprs, op_word, ty};
use scc_base::{List, Name, Place};
use scc_tree::{
    Decl, Expr, ForFirst, Hold, LocalDecl, LocalTree, SimpleNode, SimpleTree, Stmt, StmtNode,
    SwitchItem, SwitchNode,
};

pub fn hold(s: &mut Shown, hold: Hold) {
    match hold {
        Hold::Direct => {}
        Hold::Pointer => s.word("*"),
        Hold::Reference => s.word("&"),
    }
}

/// A declared name with its sizes.
pub fn decl(s: &mut Shown, d: &Decl) {
    s.at(d.place);
    hold(s, d.hold);
    s.name(d.name);
    for size in d.sizes.as_slice() {
        s.word("[");
        expr(s, size);
        s.word("]");
    }
}

fn local_decl(s: &mut Shown, d: &LocalDecl) {
    decl(s, &d.decl);
    match &d.value {
        Some(value) => {
            s.word("=");
            expr(s, value);
        }
        None => {}
    }
}

fn local(s: &mut Shown, l: &LocalTree) {
    s.word("(local ");
    ty(s, &l.ty);
    for d in l.names.as_slice() {
        s.word(" ");
        local_decl(s, d);
    }
    s.word(")");
}

fn simple(s: &mut Shown, t: &SimpleTree) {
    s.at(t.place);
    match &t.node {
        SimpleNode::Assign {
            left,
            op,
            op_place,
            value,
        } => {
            s.word("(");
            s.at(*op_place);
            if let Some(op) = op {
                s.word(op_word(*op));
            }
            s.word("= ");
            expr(s, left);
            s.word(" ");
            expr(s, value);
            s.word(")");
        }
        SimpleNode::Step { of, op, op_place } => {
            s.word("(");
            s.at(*op_place);
            s.word(op_word(*op));
            s.word(op_word(*op));
            s.word(" ");
            expr(s, of);
            s.word(")");
        }
        SimpleNode::Call(of) => expr(s, of),
    }
}

fn perhaps(s: &mut Shown, e: &Option<Expr>) {
    match e {
        Some(e) => expr(s, e),
        None => s.word("_"),
    }
}

fn first_part(s: &mut Shown, f: &ForFirst) {
    match f {
        ForFirst::Nothing => s.word("_"),
        ForFirst::Local(l) => local(s, l),
        ForFirst::Simple(t) => simple(s, t),
    }
}

fn last_part(s: &mut Shown, step: &Option<SimpleTree>) {
    match step {
        Some(t) => simple(s, t),
        None => s.word("_"),
    }
}

// A word, and the value behind it where there is one.
fn with_value(s: &mut Shown, word: &str, e: &Option<Expr>) {
    match e {
        Some(e) => {
            s.word("(");
            s.word(word);
            s.word(" ");
            expr(s, e);
            s.word(")");
        }
        None => s.word(word),
    }
}

fn process(s: &mut Shown, word: &str, name: Name, at: Place) {
    s.word(word);
    s.at(at);
    s.name(name);
}

// The statements of construction, which hold no others.
fn flat(s: &mut Shown, node: &StmtNode) {
    match node {
        StmtNode::Local(l) => local(s, l),
        StmtNode::Break => s.word("break"),
        StmtNode::Continue => s.word("continue"),
        StmtNode::Return(e) => with_value(s, "return", e),
        StmtNode::Wait(e) => with_value(s, "wait", e),
        StmtNode::Method { name, at } => {
            process(s, "(method ", *name, *at);
            s.word(")");
        }
        StmtNode::Thread { name, at } => {
            process(s, "(thread ", *name, *at);
            s.word(")");
        }
        StmtNode::ClockedThread { name, at, edge } => {
            process(s, "(cthread ", *name, *at);
            s.word(" ");
            expr(s, edge);
            s.word(")");
        }
        StmtNode::Sensitive(list) => {
            s.word("(sensitive");
            exprs(s, list);
            s.word(")");
        }
        StmtNode::DontInitialize => s.word("dont_initialize"),
        StmtNode::ResetSignal {
            signal,
            level,
            asynchronous,
        } => {
            s.word(if *asynchronous {
                "(async_reset "
            } else {
                "(reset "
            });
            expr(s, signal);
            s.word(" ");
            expr(s, level);
            s.word(")");
        }
        StmtNode::Simple(t) => simple(s, t),
        _ => s.word(";"),
    }
}

#[cycle(shown_stmt)]
fn item(s: &mut Shown, i: &SwitchItem) {
    match &i.node {
        SwitchNode::Case(e) => {
            s.at(i.place);
            s.word("(case ");
            expr(s, e);
            s.word(")");
        }
        SwitchNode::Otherwise => {
            s.at(i.place);
            s.word("default");
        }
        SwitchNode::Stmt(of) => stmt(s, of),
    }
}

#[cycle(shown_stmt)]
fn items(s: &mut Shown, list: &List<SwitchItem>) {
    for i in list.as_slice() {
        s.word(" ");
        item(s, i);
    }
}

/// The statements, with a blank between two.
#[cycle(shown_stmt)]
pub fn stmts(s: &mut Shown, list: &List<Stmt>) {
    let mut first = true;
    for of in list.as_slice() {
        if !first {
            s.word(" ");
        }
        first = false;
        stmt(s, of);
    }
}

#[cycle(shown_stmt)]
fn other(s: &mut Shown, no: &Option<Stmt>) {
    match no {
        Some(of) => {
            s.word(" ");
            stmt(s, of);
        }
        None => {}
    }
}

#[cycle(shown_stmt)]
pub fn stmt(s: &mut Shown, of: &Stmt) {
    s.at(of.place);
    match of.node.get() {
        StmtNode::Block(list) => {
            s.word("{");
            stmts(s, list);
            s.word("}")
        }
        StmtNode::If { test, yes, no } => {
            s.word("(if ");
            expr(s, test);
            s.word(" ");
            stmt(s, yes);
            other(s, no);
            s.word(")");
        }
        StmtNode::Switch { of, items: list } => {
            s.word("(switch ");
            expr(s, of);
            items(s, list);
            s.word(")");
        }
        StmtNode::While { test, body } => {
            s.word("(while ");
            expr(s, test);
            s.word(" ");
            stmt(s, body);
            s.word(")");
        }
        StmtNode::Do { body, test } => {
            s.word("(do ");
            stmt(s, body);
            s.word(" ");
            expr(s, test);
            s.word(")");
        }
        StmtNode::For {
            first,
            test,
            step,
            body,
        } => {
            s.word("(for ");
            first_part(s, first);
            s.word(" ");
            perhaps(s, test);
            s.word(" ");
            last_part(s, step);
            s.word(" ");
            stmt(s, body);
            s.word(")");
        }
        node => flat(s, node),
    }
}
