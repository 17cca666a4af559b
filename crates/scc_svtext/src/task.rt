//! What is still to be printed of a block.
use crate::fixed::Fixed;
use scc_svtree::{SvArm, SvStmt};

/// A part of the text of a block, which stands behind so many blanks.
#[derive(Clone, Copy)]
pub enum Task<'a> {
    Line { piece: Fixed, indent: u32 },
    Stmts { list: &'a [SvStmt], indent: u32 },
    /// The branch behind an `else`, if it isn't empty.
    Otherwise { list: &'a [SvStmt], indent: u32 },
    Arms { list: &'a [SvArm], indent: u32 },
}

/// What follows the first line of a statement.
#[derive(Clone, Copy)]
pub enum Rest<'a> {
    Nothing,
    If { yes: &'a [SvStmt], no: &'a [SvStmt] },
    Case(&'a [SvArm]),
}
