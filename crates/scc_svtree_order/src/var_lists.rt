//! The variables that expressions read and statements assign, by number, as often as they stand.
ghost use Rattle.std.specs.Prelude.{◌≡◌, map, IfOk, OnOk};
ghost use Rattle.scc_svtree.specs.Running as running;
ghost use Rattle.scc_svtree_order.specs.VarLists as vars;

use scc_base::{List, NoMemory};
use scc_svtree::{SvArm, SvExpr, SvExprNode, SvLeft, SvStmt};
use std::alloc::Global;

fn var_of(l: SvLeft) -> u32
    ensures { result ≡ running.var_of l }
{
    match l {
        SvLeft::Whole(v) => v.0,
        SvLeft::Bit { var, .. } => var.0,
        SvLeft::Range { var, .. } => var.0,
    }
}

/// Adds what an expression reads.
#[cycle(reads)]
fn reads(found: &mut List<u32>, e: &SvExpr) -> Result<(), NoMemory>
    ensures { OnOk result (found.new ≡ vars.read_by e.now found.old) }
{
    match e.node.get() {
        SvExprNode::Literal(_) => Ok(()),
        SvExprNode::Left(l) => found.push(var_of(*l)),
        SvExprNode::Unary { of, .. } => reads(found, of),
        SvExprNode::Binary { left, right, .. } => {
            reads(found, left)?;
            reads(found, right)
        }
        SvExprNode::Cond { test, yes, no } => {
            reads(found, test)?;
            reads(found, yes)?;
            reads(found, no)
        }
        SvExprNode::Concat(list) => each_reads(found, list.as_slice()),
        SvExprNode::Cast { of, .. } => reads(found, of),
        SvExprNode::Sign { of, .. } => reads(found, of),
    }
}

#[cycle(reads)]
fn each_reads(found: &mut List<u32>, list: &[SvExpr]) -> Result<(), NoMemory>
    ensures { OnOk result (found.new ≡ vars.each (map vars.read_by list.now) found.old) }
{
    for e in list {
        reads(found, e)?;
    }
    Ok(())
}

#[cycle(stmts_read)]
fn stmt_reads(found: &mut List<u32>, s: &SvStmt) -> Result<(), NoMemory>
    ensures { OnOk result (found.new ≡ vars.read_in s.now found.old) }
{
    match s {
        SvStmt::Assign { value, .. } => reads(found, value),
        SvStmt::If { test, yes, no } => {
            reads(found, test)?;
            stmts_read(found, yes.as_slice())?;
            stmts_read(found, no.as_slice())
        }
        SvStmt::Case { of, arms } => {
            reads(found, of)?;
            arms_read(found, arms.as_slice())
        }
    }
}

#[cycle(stmts_read)]
fn stmts_read(found: &mut List<u32>, list: &[SvStmt]) -> Result<(), NoMemory>
    ensures { OnOk result (found.new ≡ vars.each (map vars.read_in list.now) found.old) }
{
    for s in list {
        stmt_reads(found, s)?;
    }
    Ok(())
}

#[cycle(stmts_read)]
fn arms_read(found: &mut List<u32>, list: &[SvArm]) -> Result<(), NoMemory>
    ensures { OnOk result (found.new ≡ vars.each (map vars.read_in_arm list.now) found.old) }
{
    for a in list {
        stmts_read(found, a.body.as_slice())?;
    }
    Ok(())
}

#[cycle(stmts_assign)]
fn stmt_assigns(found: &mut List<u32>, s: &SvStmt) -> Result<(), NoMemory>
    ensures { OnOk result (found.new ≡ vars.assigned_in s.now found.old) }
{
    match s {
        SvStmt::Assign { left, .. } => found.push(var_of(*left)),
        SvStmt::If { yes, no, .. } => {
            stmts_assign(found, yes.as_slice())?;
            stmts_assign(found, no.as_slice())
        }
        SvStmt::Case { arms, .. } => arms_assign(found, arms.as_slice()),
    }
}

#[cycle(stmts_assign)]
fn stmts_assign(found: &mut List<u32>, list: &[SvStmt]) -> Result<(), NoMemory>
    ensures { OnOk result (found.new ≡ vars.each (map vars.assigned_in list.now) found.old) }
{
    for s in list {
        stmt_assigns(found, s)?;
    }
    Ok(())
}

#[cycle(stmts_assign)]
fn arms_assign(found: &mut List<u32>, list: &[SvArm]) -> Result<(), NoMemory>
    ensures { OnOk result (found.new ≡ vars.each (map vars.assigned_in_arm list.now) found.old) }
{
    for a in list {
        stmts_assign(found, a.body.as_slice())?;
    }
    Ok(())
}

/// What a block's statements read.
pub fn all_read(alloc: Global, list: &[SvStmt]) -> Result<List<u32>, NoMemory>
    ensures { IfOk result (λ l. l ≡ vars.all_read list.now) }
{
    let mut found = List::new(alloc);
    stmts_read(&mut found, list)?;
    Ok(found)
}

/// What a block's statements assign.
pub fn all_assigned(alloc: Global, list: &[SvStmt]) -> Result<List<u32>, NoMemory>
    ensures { IfOk result (λ l. l ≡ vars.all_assigned list.now) }
{
    let mut found = List::new(alloc);
    stmts_assign(&mut found, list)?;
    Ok(found)
}
