//! Expressions and statements as trees without names.
ghost use Rattle.std.specs.Prelude.{◌≡◌, map, IfOk};
ghost use Rattle.scc_svread_check.specs.Numbers as numbers;
ghost use Rattle.scc_svread_written.specs.Resolved as resolved;

use crate::names::VarNames;
use scc_base::{Boxed, List, NoMemory};
use scc_bits::Word;
use scc_svread_check::{decimal, hexadecimal};
use scc_svread_grammar::{RawArm, RawExpr, RawLeft, RawLiteral, RawSelect, RawStmt};
use scc_svtree::{SvArm, SvExpr, SvExprNode, SvLeft, SvLiteral, SvStmt, VarId};
use std::alloc::Global;

/// The number of decimal digits, at most 2^32 - 1.
pub fn small_number(digits: &[u8]) -> u32
    ensures { result ≡ numbers.small_number digits.now }
{
    decimal(digits).min(u128::from(u32::MAX)) as u32
}

/// The word of digits of base 16.
pub fn word(digits: &[u8]) -> Word
    ensures { result ≡ resolved.word_of (numbers.word_number digits.now) }
{
    Word {
        bits: hexadecimal(digits),
    }
}

fn literal(l: &RawLiteral) -> SvLiteral
    ensures { result ≡ resolved.literal_of l.now }
{
    SvLiteral {
        width: small_number(l.width.bytes()),
        value: word(l.digits.bytes()),
    }
}

fn part(var: VarId, s: &RawSelect) -> SvLeft
    ensures { result ≡ resolved.part_of var s.now }
{
    match s {
        RawSelect::Whole => SvLeft::Whole(var),
        RawSelect::Bit(at) => SvLeft::Bit {
            var,
            at: small_number(at.bytes()),
        },
        RawSelect::Range { h, l } => SvLeft::Range {
            var,
            h: small_number(h.bytes()),
            l: small_number(l.bytes()),
        },
    }
}

fn left(names: &VarNames, l: &RawLeft) -> SvLeft
    ensures { result ≡ resolved.left_of names.now l.now }
{
    part(names.var(l.name.bytes()), &l.select)
}

fn boxed(alloc: Global, node: SvExprNode) -> Result<SvExpr, NoMemory>
    ensures { IfOk result (λ e. e ≡ record { node = node }) }
{
    let node = Boxed::new(alloc, node)?;
    Ok(SvExpr { node })
}

/// The expression that is written so.
#[cycle(exprs)]
pub fn expr(alloc: Global, names: &VarNames, e: &RawExpr) -> Result<SvExpr, NoMemory>
    ensures { IfOk result (λ x. x ≡ resolved.expr_of names.now e.now) }
{
    match e {
        RawExpr::Literal(l) => boxed(alloc, SvExprNode::Literal(literal(l))),
        RawExpr::Left(l) => boxed(alloc, SvExprNode::Left(left(names, l))),
        RawExpr::Unary { op, of } => {
            let of = expr(alloc, names, of.get())?;
            boxed(alloc, SvExprNode::Unary { op: *op, of })
        }
        RawExpr::Binary { op, left, right } => {
            let left = expr(alloc, names, left.get())?;
            let right = expr(alloc, names, right.get())?;
            let op = *op;
            boxed(alloc, SvExprNode::Binary { op, left, right })
        }
        RawExpr::Cond { test, yes, no } => {
            let test = expr(alloc, names, test.get())?;
            let yes = expr(alloc, names, yes.get())?;
            let no = expr(alloc, names, no.get())?;
            boxed(alloc, SvExprNode::Cond { test, yes, no })
        }
        RawExpr::Concat(list) => {
            let parts = exprs(alloc, names, list.as_slice())?;
            boxed(alloc, SvExprNode::Concat(parts))
        }
        RawExpr::Cast { width, of } => {
            let of = expr(alloc, names, of.get())?;
            let width = small_number(width.bytes());
            boxed(alloc, SvExprNode::Cast { width, of })
        }
        RawExpr::Sign { signed, of } => {
            let of = expr(alloc, names, of.get())?;
            let signed = *signed;
            boxed(alloc, SvExprNode::Sign { signed, of })
        }
    }
}

#[cycle(exprs)]
fn exprs(alloc: Global, names: &VarNames, list: &[RawExpr]) -> Result<List<SvExpr>, NoMemory>
    ensures { IfOk result (λ l. l ≡ map (resolved.expr_of names.now) list.now) }
{
    let mut found = List::new(alloc);
    for e in list {
        found.push(expr(alloc, names, e)?)?;
    }
    Ok(found)
}

#[cycle(stmts)]
fn stmt(alloc: Global, names: &VarNames, s: &RawStmt) -> Result<SvStmt, NoMemory>
    ensures { IfOk result (λ x. x ≡ resolved.stmt_of names.now s.now) }
{
    match s {
        RawStmt::Assign { left: l, value } => {
            let value = expr(alloc, names, value)?;
            let left = left(names, l);
            Ok(SvStmt::Assign { left, value })
        }
        RawStmt::If { test, yes, no } => {
            let test = expr(alloc, names, test)?;
            let yes = stmts(alloc, names, yes.as_slice())?;
            let no = stmts(alloc, names, no.as_slice())?;
            Ok(SvStmt::If { test, yes, no })
        }
        RawStmt::Case { of, arms: list } => {
            let of = expr(alloc, names, of)?;
            let arms = arms(alloc, names, list.as_slice())?;
            Ok(SvStmt::Case { of, arms })
        }
    }
}

/// The statements that are written so.
#[cycle(stmts)]
pub fn stmts(alloc: Global, names: &VarNames, list: &[RawStmt]) -> Result<List<SvStmt>, NoMemory>
    ensures { IfOk result (λ l. l ≡ map (resolved.stmt_of names.now) list.now) }
{
    let mut found = List::new(alloc);
    for s in list {
        found.push(stmt(alloc, names, s)?)?;
    }
    Ok(found)
}

#[cycle(stmts)]
fn arm(alloc: Global, names: &VarNames, a: &RawArm) -> Result<SvArm, NoMemory>
    ensures { IfOk result (λ x. x ≡ resolved.arm_of names.now a.now) }
{
    let body = stmts(alloc, names, a.body.as_slice())?;
    Ok(SvArm {
        label: literal(&a.label),
        body,
    })
}

#[cycle(stmts)]
fn arms(alloc: Global, names: &VarNames, list: &[RawArm]) -> Result<List<SvArm>, NoMemory>
    ensures { IfOk result (λ l. l ≡ map (resolved.arm_of names.now) list.now) }
{
    let mut found = List::new(alloc);
    for a in list {
        found.push(arm(alloc, names, a)?)?;
    }
    Ok(found)
}
