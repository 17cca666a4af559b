//! Statements.
use crate::expr::{Ids, renumbered_expr, renumbered_left};
use scc_base::{List, NoMemory};
use scc_svtree::{SvArm, SvStmt};
use std::alloc::Global;

/// Statements with other numbers of variables; expressions nest at most `levels` deep beside their first operands.
#[cycle(renumbered_stmts)]
pub fn renumbered(
    body: &[SvStmt],
    alloc: Global,
    ids: Ids<'_>,
    levels: u32,
) -> Result<List<SvStmt>, NoMemory> {
    let mut out = List::new(alloc);
    for s in body {
        out.push(renumbered_stmt(s, alloc, ids, levels)?)?;
    }
    Ok(out)
}

#[cycle(renumbered_stmts)]
fn renumbered_stmt(
    s: &SvStmt,
    alloc: Global,
    ids: Ids<'_>,
    levels: u32,
) -> Result<SvStmt, NoMemory> {
    Ok(match s {
        SvStmt::Assign { left, value } => SvStmt::Assign {
            left: renumbered_left(left, ids)?,
            value: renumbered_expr(alloc, value, ids, levels)?,
        },
        SvStmt::If { test, yes, no } => SvStmt::If {
            test: renumbered_expr(alloc, test, ids, levels)?,
            yes: renumbered(yes.as_slice(), alloc, ids, levels)?,
            no: renumbered(no.as_slice(), alloc, ids, levels)?,
        },
        SvStmt::Case { of, arms } => SvStmt::Case {
            of: renumbered_expr(alloc, of, ids, levels)?,
            arms: renumbered_arms(arms.as_slice(), alloc, ids, levels)?,
        },
    })
}

#[cycle(renumbered_stmts)]
fn renumbered_arms(
    arms: &[SvArm],
    alloc: Global,
    ids: Ids<'_>,
    levels: u32,
) -> Result<List<SvArm>, NoMemory> {
    let mut out = List::new(alloc);
    for arm in arms {
        out.push(SvArm {
            label: arm.label,
            body: renumbered(arm.body.as_slice(), alloc, ids, levels)?,
        })?;
    }
    Ok(out)
}
