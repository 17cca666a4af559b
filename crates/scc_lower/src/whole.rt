//! Lowering over a core by itself.
use crate::stmt::{lowered_expr, lowered_stmts};
use scc_base::{List, NoMemory};
use scc_core::{Core, CoreExpr, CoreStmt, Places};
use scc_lower_expressions::lowering::{Cells, Lowering};
use scc_svtree::{SvExpr, SvStmt};
use std::alloc::Global;

/// An expression of a core as text of exactly its kind's width, without sign. The assignments of its temporaries are appended to
/// `cx.before`. The table of the core's cells is made anew: `lowered_expr` takes one that is there.
pub fn lower_expr(
    alloc: Global,
    c: &Core,
    e: &CoreExpr,
    cx: &mut Lowering<'_>,
) -> Result<SvExpr, NoMemory> {
    let places = Places::of(alloc, &c.cells, &c.vectors)?;
    let cells = Cells::new(&c.cells, &places);
    lowered_expr(alloc, e, cells, cx)
}

/// Statements of a core as text. `cx.before` is empty before and after.
pub fn lower_stmts(
    alloc: Global,
    c: &Core,
    s: &[CoreStmt],
    cx: &mut Lowering<'_>,
) -> Result<List<SvStmt>, NoMemory> {
    let places = Places::of(alloc, &c.cells, &c.vectors)?;
    let cells = Cells::new(&c.cells, &places);
    lowered_stmts(alloc, s, cells, cx)
}
