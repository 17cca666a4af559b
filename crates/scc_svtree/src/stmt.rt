use crate::{SvExpr, SvLeft, SvLiteral};
use scc_base::List;

/// A statement (IEEE 1800-2017, sections 10.4.1, 12.4 and 12.5).
#[cycle(stmt)]
#[derive(Drop)]
pub enum SvStmt {
    /// A blocking assignment.
    Assign {
        left: SvLeft,
        value: SvExpr,
    },
    /// An `if`, without `else` where `no` is empty.
    If {
        test: SvExpr,
        yes: List<SvStmt>,
        no: List<SvStmt>,
    },
    Case {
        of: SvExpr,
        arms: List<SvArm>,
    },
}

/// An arm of a `case`.
#[cycle(stmt)]
#[derive(Drop)]
pub struct SvArm {
    pub label: SvLiteral,
    pub body: List<SvStmt>,
}
