//! What is still to be printed of an expression.
use crate::fixed::Fixed;
use scc_svtree::{SvBinary, SvExpr};

/// A part of the text of an expression.
#[derive(Clone, Copy)]
pub enum Part<'a> {
    Fixed(Fixed),
    Operator(SvBinary),
    Expr(&'a SvExpr),
    /// Further parts of a concatenation, each behind a comma.
    More(&'a [SvExpr]),
}
