//! The names that a module's expressions read and its blocks assign.
ghost use Rattle.std.specs.Prelude.{◌≡◌, map, OnOk};
ghost use Rattle.scc_svread_check.specs.Mentioned as names;

use crate::text_set::TextSet;
use scc_base::NoMemory;
use scc_svread_grammar::{RawArm, RawBlock, RawExpr, RawItem, RawLoad, RawReset, RawSet, RawStmt};

/// Adds what an expression reads.
#[cycle(reads)]
fn reads(found: &mut TextSet, e: &RawExpr) -> Result<(), NoMemory>
    ensures { OnOk result (found.new ≡ names.read_by e.now found.old) }
{
    match e {
        RawExpr::Literal(_) => Ok(()),
        RawExpr::Left(l) => found.add(l.name.bytes()),
        RawExpr::Unary { of, .. } => reads(found, of.get()),
        RawExpr::Binary { left, right, .. } => {
            reads(found, left.get())?;
            reads(found, right.get())
        }
        RawExpr::Cond { test, yes, no } => {
            reads(found, test.get())?;
            reads(found, yes.get())?;
            reads(found, no.get())
        }
        RawExpr::Concat(list) => all_read(found, list.as_slice()),
        RawExpr::Cast { of, .. } => reads(found, of.get()),
        RawExpr::Sign { of, .. } => reads(found, of.get()),
    }
}

#[cycle(reads)]
fn all_read(found: &mut TextSet, list: &[RawExpr]) -> Result<(), NoMemory>
    ensures { OnOk result (found.new ≡ names.each (map names.read_by list.now) found.old) }
{
    for e in list {
        reads(found, e)?;
    }
    Ok(())
}

#[cycle(stmts_read)]
fn stmt_reads(found: &mut TextSet, s: &RawStmt) -> Result<(), NoMemory>
    ensures { OnOk result (found.new ≡ names.read_in s.now found.old) }
{
    match s {
        RawStmt::Assign { value, .. } => reads(found, value),
        RawStmt::If { test, yes, no } => {
            reads(found, test)?;
            stmts_read(found, yes.as_slice())?;
            stmts_read(found, no.as_slice())
        }
        RawStmt::Case { of, arms } => {
            reads(found, of)?;
            arms_read(found, arms.as_slice())
        }
    }
}

#[cycle(stmts_read)]
fn stmts_read(found: &mut TextSet, list: &[RawStmt]) -> Result<(), NoMemory>
    ensures { OnOk result (found.new ≡ names.each (map names.read_in list.now) found.old) }
{
    for s in list {
        stmt_reads(found, s)?;
    }
    Ok(())
}

#[cycle(stmts_read)]
fn arms_read(found: &mut TextSet, list: &[RawArm]) -> Result<(), NoMemory>
    ensures { OnOk result (found.new ≡ names.each (map names.read_in_arm list.now) found.old) }
{
    for a in list {
        stmts_read(found, a.body.as_slice())?;
    }
    Ok(())
}

#[cycle(stmts_assign)]
fn stmt_assigns(found: &mut TextSet, s: &RawStmt) -> Result<(), NoMemory>
    ensures { OnOk result (found.new ≡ names.assigned_in s.now found.old) }
{
    match s {
        RawStmt::Assign { left, .. } => found.add(left.name.bytes()),
        RawStmt::If { yes, no, .. } => {
            stmts_assign(found, yes.as_slice())?;
            stmts_assign(found, no.as_slice())
        }
        RawStmt::Case { arms, .. } => arms_assign(found, arms.as_slice()),
    }
}

#[cycle(stmts_assign)]
fn stmts_assign(found: &mut TextSet, list: &[RawStmt]) -> Result<(), NoMemory>
    ensures { OnOk result (found.new ≡ names.each (map names.assigned_in list.now) found.old) }
{
    for s in list {
        stmt_assigns(found, s)?;
    }
    Ok(())
}

#[cycle(stmts_assign)]
fn arms_assign(found: &mut TextSet, list: &[RawArm]) -> Result<(), NoMemory>
    ensures { OnOk result (found.new ≡ names.each (map names.assigned_in_arm list.now) found.old) }
{
    for a in list {
        stmts_assign(found, a.body.as_slice())?;
    }
    Ok(())
}

fn sets_read(found: &mut TextSet, list: &[RawSet]) -> Result<(), NoMemory>
    ensures { OnOk result (found.new ≡ names.each (map names.set_read list.now) found.old) }
{
    for s in list {
        reads(found, &s.value)?;
    }
    Ok(())
}

fn sets_assign(found: &mut TextSet, list: &[RawSet]) -> Result<(), NoMemory>
    ensures { OnOk result (found.new ≡ names.each (map names.set_assigned list.now) found.old) }
{
    for s in list {
        found.add(s.target.bytes())?;
    }
    Ok(())
}

fn loads_assign(found: &mut TextSet, list: &[RawLoad]) -> Result<(), NoMemory>
    ensures { OnOk result (found.new ≡ names.each (map names.load_assigned list.now) found.old) }
{
    for l in list {
        found.add(l.target.bytes())?;
    }
    Ok(())
}

fn reset_assigns(found: &mut TextSet, r: &Option<RawReset>) -> Result<(), NoMemory>
    ensures { OnOk result (found.new ≡ names.reset_assigned r.now found.old) }
{
    match r {
        None => Ok(()),
        Some(r) => loads_assign(found, r.values.as_slice()),
    }
}

fn block_reads(found: &mut TextSet, b: &RawBlock) -> Result<(), NoMemory>
    ensures { OnOk result (found.new ≡ names.block_read b.now found.old) }
{
    match b {
        RawBlock::Comb(list) => stmts_read(found, list.as_slice()),
        RawBlock::Edge { sets, .. } => sets_read(found, sets.as_slice()),
    }
}

/// Adds what a block assigns.
pub fn block_assigns(found: &mut TextSet, b: &RawBlock) -> Result<(), NoMemory>
    ensures { OnOk result (found.new ≡ names.block_assigned b.now found.old) }
{
    match b {
        RawBlock::Comb(list) => stmts_assign(found, list.as_slice()),
        RawBlock::Edge { reset, sets, .. } => {
            reset_assigns(found, reset)?;
            sets_assign(found, sets.as_slice())
        }
    }
}

fn item_reads(found: &mut TextSet, i: &RawItem) -> Result<(), NoMemory>
    ensures { OnOk result (found.new ≡ names.item_read i.now found.old) }
{
    match i {
        RawItem::Var(_) => Ok(()),
        RawItem::Block(b) => block_reads(found, b),
    }
}

fn item_assigns(found: &mut TextSet, i: &RawItem) -> Result<(), NoMemory>
    ensures { OnOk result (found.new ≡ names.item_assigned i.now found.old) }
{
    match i {
        RawItem::Var(_) => Ok(()),
        RawItem::Block(b) => block_assigns(found, b),
    }
}

/// Adds what the expressions of a module read.
pub fn items_read(found: &mut TextSet, list: &[RawItem]) -> Result<(), NoMemory>
    ensures { OnOk result (found.new ≡ names.each (map names.item_read list.now) found.old) }
{
    for i in list {
        item_reads(found, i)?;
    }
    Ok(())
}

/// Adds what the blocks of a module assign.
pub fn items_assign(found: &mut TextSet, list: &[RawItem]) -> Result<(), NoMemory>
    ensures { OnOk result (found.new ≡ names.each (map names.item_assigned list.now) found.old) }
{
    for i in list {
        item_assigns(found, i)?;
    }
    Ok(())
}
