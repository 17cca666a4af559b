//! Names within statements that stand where they may not.
ghost use Rattle.std.specs.Prelude.{◌≡◌, ◌+◌, ◌&&◌, ◌||◌, not, map, length, true, false, IfOk, OnOk};
ghost use Rattle.scc_svread_check.specs.Within as names;
ghost use Rattle.scc_svread_check.specs.Within.{known};
ghost use Rattle.scc_svread_check.specs.Walking as walking;

use crate::expr::{operator_bytes, sign_bytes};
use crate::leaf::{digits, pass_both, select, spelling};
use crate::stmt::deeper;
use crate::text_set::TextSet;
use crate::walk::Walk;
use scc_base::{NoMemory, Text};
use scc_svread_grammar::{RawArm, RawExpr, RawLeft, RawSelect, RawStmt};

/// What is known of names at a place in a block: the inputs, what blocks before this one assign, what this block assigns, and
/// what it has given a whole value at its own level.
#[derive(Clone, Copy)]
pub struct Within<'a> {
    pub inputs: &'a TextSet,
    pub taken: &'a TextSet,
    pub assigned: &'a TextSet,
    pub whole: &'a TextSet,
}

// Whether a name has no value yet.
fn is_early(c: &Within, name: &Text) -> bool
    ensures { result ≡ names.is_early (known c.now.inputs.now c.now.taken.now c.now.assigned.now c.now.whole.now) name.now }
{
    c.assigned.has(name.bytes()) && !c.whole.has(name.bytes())
}

// Whether a name is an input, or another block assigns it.
fn is_foreign(c: &Within, name: &Text) -> bool
    ensures { result ≡ names.is_foreign (known c.now.inputs.now c.now.taken.now c.now.assigned.now c.now.whole.now) name.now }
{
    c.inputs.has(name.bytes()) || c.taken.has(name.bytes())
}

/// Goes over a name that may stand where it may not.
#[inline(never)]
pub fn mention(wrong: bool, name: &Text, w: Walk) -> Walk
    ensures { result ≡ names.mention wrong name.now w }
{
    spelling(name, w.name_if(wrong))
}

#[inline(never)]
fn left(wrong: bool, l: &RawLeft, w: Walk) -> Walk
    ensures { result ≡ names.left_mention wrong l.now w }
{
    select(&l.select, mention(wrong, &l.name, w))
}

// The last part of an expression, up to the bracket behind it. It is not inlined: what nests deep then takes little of the stack.
#[cycle(expr)]
#[inline(never)]
fn last(c: &Within, e: &RawExpr, w: Walk) -> Walk
    ensures { result ≡ walking.pass 1 (names.expr_names (known c.now.inputs.now c.now.taken.now c.now.assigned.now c.now.whole.now) e.now w) }
{
    expr(c, e, w).pass(1)
}

/// Goes over an expression.
#[cycle(expr)]
pub fn expr(c: &Within, e: &RawExpr, w: Walk) -> Walk
    ensures { result ≡ names.expr_names (known c.now.inputs.now c.now.taken.now c.now.assigned.now c.now.whole.now) e.now w }
{
    match e {
        RawExpr::Literal(l) => digits(l, 0, w),
        RawExpr::Left(l) => left(is_early(c, &l.name), l, w),
        RawExpr::Unary { of, .. } => last(c, of.get(), w.pass(2)),
        RawExpr::Binary { op, left, right } => {
            let before = expr(c, left.get(), w.pass(1));
            last(c, right.get(), before.pass(operator_bytes(*op) + 2))
        }
        RawExpr::Cond { test, yes, no } => {
            let test = expr(c, test.get(), w.pass(1));
            let yes = expr(c, yes.get(), test.pass(3));
            last(c, no.get(), yes.pass(3))
        }
        RawExpr::Concat(list) => exprs(c, list.as_slice(), w).pass(1),
        RawExpr::Cast { width, of } => { last(c, of.get(), pass_both(w, width.bytes().len(), 2)) }
        RawExpr::Sign { signed, of } => last(c, of.get(), w.pass(sign_bytes(*signed))),
    }
}

// The parts of a concatenation.
#[cycle(expr)]
#[inline(never)]
fn exprs(c: &Within, list: &[RawExpr], w: Walk) -> Walk
    ensures { result ≡ names.parts_names 1 (map (names.expr_names (known c.now.inputs.now c.now.taken.now c.now.assigned.now c.now.whole.now)) list.now) w }
{
    let mut walk = w;
    let mut lead = 1;
    for e in list {
        walk = expr(c, e, walk.pass(lead));
        lead = 2;
    }
    walk
}

fn is_whole(s: &RawSelect) -> bool
    ensures { result ≡ names.is_whole s.now }
{
    match s {
        RawSelect::Whole => true,
        RawSelect::Bit(_) => false,
        RawSelect::Range { .. } => false,
    }
}

// Whether a left side stands where it may not.
fn is_wrong_left(c: &Within, own: bool, l: &RawLeft) -> bool
    ensures { result ≡ names.is_wrong_left (known c.now.inputs.now c.now.taken.now c.now.assigned.now c.now.whole.now) own l.now }
{
    is_foreign(c, &l.name) || (!(own && is_whole(&l.select)) && is_early(c, &l.name))
}

// An assignment behind so many blanks.
fn assign(c: &Within, l: &RawLeft, value: &RawExpr, own: bool, n: usize, w: Walk) -> Walk
    ensures { result ≡ names.assign_names (known c.now.inputs.now c.now.taken.now c.now.assigned.now c.now.whole.now) l.now value.now own n w }
{
    let target = left(is_wrong_left(c, own, l), l, w.pass(n));
    expr(c, value, target.pass(3)).pass(2)
}

/// A statement behind so many blanks, at its block's own level or further in.
#[cycle(inner)]
fn stmt(c: &Within, s: &RawStmt, own: bool, n: usize, w: Walk) -> Walk
    ensures { result ≡ names.stmt_names (known c.now.inputs.now c.now.taken.now c.now.assigned.now c.now.whole.now) s.now own n w }
{
    match s {
        RawStmt::Assign { left, value } => assign(c, left, value, own, n, w),
        RawStmt::If { test, yes, no } => {
            let test = expr(c, test, pass_both(w, n, 4)).pass(8);
            let first = inner(c, yes.as_slice(), deeper(n), test);
            pass_both(other(c, no.as_slice(), n, first), n, 4)
        }
        RawStmt::Case { of, arms: list } => {
            let of = expr(c, of, pass_both(w, n, 6)).pass(2);
            pass_both(arms(c, list.as_slice(), deeper(n), of), n, 8)
        }
    }
}

// Statements further in.
#[cycle(inner)]
fn inner(c: &Within, list: &[RawStmt], n: usize, w: Walk) -> Walk
    ensures { result ≡ names.inner (map (names.stmt_names (known c.now.inputs.now c.now.taken.now c.now.assigned.now c.now.whole.now)) list.now) n w }
{
    let mut walk = w;
    for s in list {
        walk = stmt(c, s, false, n, walk);
    }
    walk
}

// A branch behind an `else`, which an empty one has not.
#[cycle(inner)]
fn other(c: &Within, list: &[RawStmt], n: usize, w: Walk) -> Walk
    ensures { result ≡ names.other_names (map (names.stmt_names (known c.now.inputs.now c.now.taken.now c.now.assigned.now c.now.whole.now)) list.now) n w }
{
    match list {
        [] => w,
        [_, ..] => inner(c, list, deeper(n), pass_both(w, n, 15)),
    }
}

// The arms of a `case`.
#[cycle(inner)]
fn arms(c: &Within, list: &[RawArm], n: usize, w: Walk) -> Walk
    ensures { result ≡ names.arms_names (map (names.chosen_of (known c.now.inputs.now c.now.taken.now c.now.assigned.now c.now.whole.now)) list.now) n w }
{
    let mut walk = w;
    for a in list {
        let body = digits(&a.label, 8, walk.pass(n));
        walk = pass_both(inner(c, a.body.as_slice(), deeper(n), body), n, 4);
    }
    walk
}

// Adds what has a whole value behind a statement.
fn add_whole(whole: &mut TextSet, s: &RawStmt) -> Result<(), NoMemory>
    ensures { OnOk result (whole.new ≡ names.whole_after s.now whole.old) }
{
    match s {
        RawStmt::Assign { left, .. } => whole.add_if(is_whole(&left.select), left.name.bytes()),
        RawStmt::If { .. } => Ok(()),
        RawStmt::Case { .. } => Ok(()),
    }
}

/// The statements of a block's own level, behind so many blanks.
pub fn own_level(
    inputs: &TextSet,
    taken: &TextSet,
    assigned: &TextSet,
    whole: &mut TextSet,
    list: &[RawStmt],
    n: usize,
    w: Walk,
) -> Result<Walk, NoMemory>
    ensures { IfOk result (λ v. v ≡ names.own_lines inputs.now taken.now assigned.now whole.old list.now n w) }
{
    let mut walk = w;
    for s in list {
        let c = Within {
            inputs,
            taken,
            assigned,
            whole,
        };
        walk = stmt(&c, s, true, n, walk);
        add_whole(whole, s)?;
    }
    Ok(walk)
}
