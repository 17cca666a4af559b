use crate::Expr;
use scc_base::Place;
use scc_bits::Op;

/// An assignment, a step or a call (C++, [expr.ass], [expr.pre.incr], [expr.post.incr], [expr.call]), with the place of its first token.
#[derive(Drop)]
pub struct SimpleTree {
    pub place: Place,
    pub node: SimpleNode,
}

#[derive(Drop)]
pub enum SimpleNode {
    /// `left = value`, or with an operator as in `left += value`.
    Assign {
        left: Expr,
        op: Option<Op>,
        op_place: Place,
        value: Expr,
    },
    /// `++` or `--`, on either side; the operator is `Add` or `Sub`.
    Step {
        of: Expr,
        op: Op,
        op_place: Place,
    },
    /// An expression whose last part is a call.
    Call(Expr),
}
