//! The printed form of classes, functions and files.
use super::shown::{Shown, args, expr, exprs, ty};
use super::shown_stmts::{decl, hold, stmts};
use scc_base::{List, Name};
use scc_tree::{
    ClassTree, Enumerator, Field, FileTree, FunctionTree, Init, Item, ItemNode, Param, ParamSort,
    Prm, TyArg,
};

fn sort_word(sort: ParamSort) -> &'static str {
    match sort {
        ParamSort::Int => "int ",
        ParamSort::Unsigned => "unsigned ",
        ParamSort::Bool => "bool ",
        ParamSort::Class => "class ",
    }
}

fn param(s: &mut Shown, p: &Param) {
    s.at(p.place);
    s.word("(");
    s.word(sort_word(p.sort));
    s.name(p.name);
    match &p.preset {
        Some(TyArg::Value(e)) => {
            s.word(" ");
            expr(s, e);
        }
        Some(TyArg::Named(t)) => {
            s.word(" :");
            ty(s, t);
        }
        None => {}
    }
    s.word(")");
}

// The parameters of a template, each behind a blank.
fn params(s: &mut Shown, list: &List<Param>) {
    for p in list.as_slice() {
        s.word(" ");
        param(s, p);
    }
}

fn prm(s: &mut Shown, p: &Prm) {
    s.word(" (");
    ty(s, &p.ty);
    s.word(" ");
    s.at(p.place);
    hold(s, p.hold);
    s.name(p.name);
    s.word(")");
}

fn init(s: &mut Shown, i: &Init) {
    s.word(" ");
    s.at(i.place);
    s.word("(init ");
    match i.name {
        Some(name) => s.name(name),
        None => s.word("sc_module"),
    }
    exprs(s, &i.args);
    s.word(")");
}

fn function(s: &mut Shown, f: &FunctionTree) {
    s.at(f.place);
    s.word(if f.constructor {
        "(ctor "
    } else {
        "(function "
    });
    match &f.result {
        Some(t) => {
            ty(s, t);
            s.word(" ");
        }
        None => {}
    }
    s.name(f.name);
    for p in f.params.as_slice() {
        prm(s, p);
    }
    for i in f.inits.as_slice() {
        init(s, i);
    }
    match &f.body {
        Some(body) => {
            s.word(" {");
            stmts(s, body);
            s.word("})")
        }
        None => s.word(")"),
    }
}

fn enumerator(s: &mut Shown, e: &Enumerator) {
    s.word(" ");
    s.at(e.place);
    s.name(e.name);
    match &e.value {
        Some(value) => {
            s.word("=");
            expr(s, value);
        }
        None => {}
    }
}

fn field(s: &mut Shown, f: &Field) {
    s.word(" ");
    s.at(f.place);
    s.word("(field ");
    ty(s, &f.ty);
    s.word(" ");
    decl(s, &f.decl);
    s.word(" ");
    s.count(f.after);
    s.word(")");
}

fn class_head(s: &mut Shown, name: Option<Name>, c: &ClassTree) {
    s.word(if c.module { "(module " } else { "(class " });
    named(s, name);
    params(s, &c.params);
    match &c.special {
        Some(list) => {
            s.word(" (special");
            args(s, list);
            s.word(")");
        }
        None => {}
    }
}

#[cycle(shown_item)]
fn class(s: &mut Shown, name: Option<Name>, c: &ClassTree) {
    class_head(s, name, c);
    for of in c.items.as_slice() {
        s.word(" ");
        item(s, of);
    }
    for f in c.fields.as_slice() {
        field(s, f);
    }
    s.word(")");
}

fn named(s: &mut Shown, name: Option<Name>) {
    match name {
        Some(name) => s.name(name),
        None => s.word("_"),
    }
}

#[cycle(shown_item)]
fn item(s: &mut Shown, i: &Item) {
    s.at(i.place);
    match &i.node {
        ItemNode::Class(c) => class(s, i.name, c),
        ItemNode::Alias(t) => {
            s.word("(typedef ");
            ty(s, t);
            s.word(" ");
            named(s, i.name);
            s.word(")");
        }
        ItemNode::Numbers(list) => {
            s.word("(enum ");
            named(s, i.name);
            for e in list.as_slice() {
                enumerator(s, e);
            }
            s.word(")");
        }
        ItemNode::Constant { ty: t, value } => {
            s.word("(constant ");
            ty(s, t);
            s.word(" ");
            named(s, i.name);
            s.word(" ");
            expr(s, value);
            s.word(")");
        }
        ItemNode::Function(f) => function(s, f),
        ItemNode::Outside {
            params: list,
            class,
            args: of,
            function: f,
        } => {
            s.word("(outside");
            params(s, list);
            s.word(" (");
            s.name(*class);
            args(s, of);
            s.word(") ");
            function(s, f);
            s.word(")");
        }
    }
}

/// The items from the first-th on, with a blank between two.
pub fn file(s: &mut Shown, tree: &FileTree, skipped: usize) {
    let mut n = 0usize;
    for i in tree.items.as_slice() {
        if n > skipped {
            s.word(" ");
        }
        if n >= skipped {
            item(s, i);
        }
        n = n.saturating_add(1);
    }
}
