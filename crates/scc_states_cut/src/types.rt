//! A segment of a thread.
use scc_base::{List, Place};
use scc_core::{CoreExpr, CoreStmt};

/// A statement of a segment.
#[cycle(segment)]
#[derive(Drop)]
pub struct SegStmt {
    pub place: Place,
    pub node: SegNode,
}

#[cycle(segment)]
#[derive(Drop)]
pub enum SegNode {
    /// A statement without a wait, which leaves no block that holds one.
    Plain(CoreStmt),
    If {
        test: CoreExpr,
        yes: List<SegStmt>,
        no: List<SegStmt>,
    },
    /// The segment ends at the wait of that number.
    Wait(u32),
}
