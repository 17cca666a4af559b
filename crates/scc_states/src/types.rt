//! The segments of a thread.
use scc_base::List;
use scc_states_cut::SegStmt;

/// What a thread does from each point at which it waits to the next.
#[derive(Drop)]
pub struct Split {
    /// The counts of its waits, 1 to 65,535 each, in text order; at most 16,384.
    pub waits: List<u32>,
    /// From the first statement.
    pub reset: List<SegStmt>,
    /// From behind each wait, in the order of `waits`.
    pub segments: List<List<SegStmt>>,
    /// The cells of variables and locals that live across a wait, ascending.
    pub kept: List<u32>,
}
