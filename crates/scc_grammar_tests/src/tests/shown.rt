//! A short printed form of trees. Nodes stand in parentheses, their sort first; operators stand between their operands, and
//! what follows an expression behind it. Where places are shown, the number of a node's first byte stands before it.
use scc_base::{List, Name, Names, NoMemory, Place};
use scc_bits::{Kind, Op, Word};
use scc_tree::{Expr, ExprNode, Family, Link, Part, PartNode, Ty, TyArg, TyNode, UnaryOp};
use std::alloc::Global;

/// What has been printed. It goes on after want of memory, which `finish` tells: a call that can't fail takes a sixth of the time
/// of one that can, and these printers are nothing but calls.
#[derive(Drop)]
pub struct Shown<'a> {
    text: String,
    lost: bool,
    alloc: Global,
    names: &'a Names,
    places: bool,
}

impl<'a> Shown<'a> {
    pub fn new(alloc: Global, names: &'a Names, places: bool) -> Shown<'a> {
        Shown {
            text: String::new(alloc),
            lost: false,
            alloc,
            names,
            places,
        }
    }

    /// What has been printed, unless memory ran out.
    pub fn finish(self) -> Result<String, NoMemory> {
        let Shown { text, lost, .. } = self;
        if lost {
            return Err(NoMemory);
        }
        Ok(text)
    }

    pub fn word(&mut self, word: &str) {
        if self.text.push_str(word).is_err() {
            self.lost = true;
        }
    }

    pub fn name(&mut self, name: Name) {
        let names = self.names;
        self.word(if names.has(name) {
            names.text(name)
        } else {
            "?"
        });
    }

    pub fn at(&mut self, place: Place) {
        if self.places {
            self.size(place.at as usize);
            self.word(":");
        }
    }

    fn bits(&mut self, bits: u128) {
        match format!(in self.alloc; "{bits}") {
            Ok(text) => self.word(text.as_str()),
            Err(_) => self.lost = true,
        }
    }

    pub fn count(&mut self, count: u32) {
        self.bits(u128::from(count));
    }

    pub fn size(&mut self, size: usize) {
        self.bits(size as u128);
    }
}

fn kind_word(kind: Kind) -> &'static str {
    match kind {
        Kind::Bool => "bool",
        Kind::Native {
            bits: 8,
            signed: true,
        } => "s8",
        Kind::Native { bits: 8, .. } => "u8",
        Kind::Native {
            bits: 16,
            signed: true,
        } => "s16",
        Kind::Native { bits: 16, .. } => "u16",
        Kind::Native {
            bits: 32,
            signed: true,
        } => "s32",
        Kind::Native { bits: 32, .. } => "u32",
        Kind::Native {
            bits: 64,
            signed: true,
        } => "s64",
        Kind::Native { bits: 64, .. } => "u64",
        _ => "?",
    }
}

pub fn op_word(op: Op) -> &'static str {
    match op {
        Op::Add => "+",
        Op::Sub => "-",
        Op::Mul => "*",
        Op::Div => "/",
        Op::Rem => "%",
        Op::And => "&",
        Op::Or => "|",
        Op::Xor => "^",
        Op::Eq => "==",
        Op::Ne => "!=",
        Op::Lt => "<",
        Op::Le => "<=",
        Op::Gt => ">",
        Op::Ge => ">=",
        Op::Shl => "<<",
        Op::Shr => ">>",
        Op::LogAnd => "&&",
        Op::LogOr => "||",
        _ => "?",
    }
}

fn unary_word(op: UnaryOp) -> &'static str {
    match op {
        UnaryOp::Plus => "+",
        UnaryOp::Neg => "-",
        UnaryOp::LogNot => "!",
        UnaryOp::Not => "~",
        UnaryOp::Deref => "*",
        UnaryOp::Address => "&",
    }
}

fn family_word(family: Family) -> &'static str {
    match family {
        Family::Int => "sc_int",
        Family::Uint => "sc_uint",
        Family::Big => "sc_biguint",
        Family::BigInt => "sc_bigint",
        Family::Bv => "sc_bv",
    }
}

fn number(s: &mut Shown, kind: Kind, word: Word) {
    match kind {
        Kind::Bool if word.bits == 0 => s.word("false"),
        Kind::Bool if word.bits == 1 => s.word("true"),
        Kind::Native {
            bits: 32,
            signed: true,
        } => s.bits(word.bits),
        _ => {
            s.bits(word.bits);
            s.word(":");
            s.word(kind_word(kind));
        }
    }
}

#[cycle(shown_expr)]
fn around(s: &mut Shown, word: &str, of: &Ty) {
    s.word(word);
    ty(s, of);
    s.word(")");
}

#[cycle(shown_expr)]
fn arg(s: &mut Shown, a: &TyArg) {
    match a {
        TyArg::Value(e) => expr(s, e),
        TyArg::Named(t) => {
            s.word(":");
            ty(s, t);
        }
    }
}

/// The arguments, each behind a blank.
#[cycle(shown_expr)]
pub fn args(s: &mut Shown, list: &List<TyArg>) {
    for a in list.as_slice() {
        s.word(" ");
        arg(s, a);
    }
}

/// The expressions, each behind a blank.
#[cycle(shown_expr)]
pub fn exprs(s: &mut Shown, list: &List<Expr>) {
    for e in list.as_slice() {
        s.word(" ");
        expr(s, e);
    }
}

#[cycle(shown_expr)]
pub fn ty(s: &mut Shown, t: &Ty) {
    s.at(t.place);
    if t.constant {
        s.word("const ");
    }
    match t.node.get() {
        TyNode::Number(kind) => s.word(kind_word(*kind)),
        TyNode::Sized { family, width } => {
            s.word("(");
            s.word(family_word(*family));
            s.word(" ");
            expr(s, width);
            s.word(")");
        }
        TyNode::Input(of) => around(s, "(in ", of),
        TyNode::Output(of) => around(s, "(out ", of),
        TyNode::Signal(of) => around(s, "(signal ", of),
        TyNode::Vector(of) => around(s, "(vector ", of),
        TyNode::ModuleName => s.word("module_name"),
        TyNode::Named { name, args: None } => s.name(*name),
        TyNode::Named {
            name,
            args: Some(list),
        } => {
            s.word("(");
            s.name(*name);
            args(s, list);
            s.word(")");
        }
    }
}

#[cycle(shown_expr)]
fn links(s: &mut Shown, list: &List<Link>) {
    for l in list.as_slice() {
        s.word(" ");
        s.at(l.place);
        s.word(op_word(l.op));
        s.word(" ");
        expr(s, &l.operand);
    }
}

// The expressions, with a blank between two.
#[cycle(shown_expr)]
fn call_args(s: &mut Shown, list: &List<Expr>) {
    let mut first = true;
    for e in list.as_slice() {
        if !first {
            s.word(" ");
        }
        first = false;
        expr(s, e);
    }
}

#[cycle(shown_expr)]
fn part(s: &mut Shown, p: &Part) {
    match &p.node {
        PartNode::Index(e) => {
            s.at(p.place);
            s.word("[");
            expr(s, e);
            s.word("]");
        }
        PartNode::Member(name) => {
            s.word(".");
            s.at(p.place);
            s.name(*name);
        }
        PartNode::Arrow(name) => {
            s.word("->");
            s.at(p.place);
            s.name(*name);
        }
        PartNode::Call(list) => {
            s.at(p.place);
            s.word("(");
            call_args(s, list);
            s.word(")");
        }
    }
}

#[cycle(shown_expr)]
fn parts(s: &mut Shown, list: &List<Part>) {
    for p in list.as_slice() {
        part(s, p);
    }
}

#[cycle(shown_expr)]
pub fn expr(s: &mut Shown, e: &Expr) {
    s.at(e.place);
    match e.node.get() {
        ExprNode::Number(kind, word) => number(s, *kind, *word),
        ExprNode::This => s.word("this"),
        ExprNode::Null => s.word("null"),
        ExprNode::Text => s.word("text"),
        ExprNode::Ident(name) => s.name(*name),
        ExprNode::Scoped { ty: t, member } => {
            s.word("(:: ");
            ty(s, t);
            s.word(" ");
            s.name(*member);
            s.word(")");
        }
        ExprNode::Chain { first, rest } => {
            s.word("(");
            expr(s, first);
            links(s, rest);
            s.word(")");
        }
        ExprNode::Unary { op, of } => {
            s.word("(");
            s.word(unary_word(*op));
            s.word(" ");
            expr(s, of);
            s.word(")");
        }
        ExprNode::Cond { test, yes, no } => {
            s.word("(? ");
            expr(s, test);
            s.word(" ");
            expr(s, yes);
            s.word(" ");
            expr(s, no);
            s.word(")");
        }
        ExprNode::Cast { ty: t, of } => {
            s.word("(cast ");
            ty(s, t);
            s.word(" ");
            expr(s, of);
            s.word(")");
        }
        ExprNode::Parts { of, parts: list } => {
            expr(s, of);
            parts(s, list);
        }
        ExprNode::Concat(list) => {
            s.word("(concat");
            exprs(s, list);
            s.word(")");
        }
        ExprNode::Make { ty: t, args: list } => {
            s.word("(new ");
            ty(s, t);
            exprs(s, list);
            s.word(")");
        }
    }
}
