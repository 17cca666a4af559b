//! Lengths and signs of expressions.
ghost use Rattle.std.specs.Prelude.{◌≡◌, ◌≤◌, ℕ, map};
ghost use Rattle.scc_svtree.specs.Sized.{AllSized, IsSized, total_length};
ghost use Rattle.scc_svtree.specs.Sizes.{length_of, signed_of};
ghost use Rattle.scc_svtree.specs.Term.{term_of};
ghost use Rattle.scc_svtree.specs.Variables.{width_at};

use crate::{SvBinary, SvExpr, SvExprNode, SvLeft, SvModule, SvUnary, VarId};

/// The width of a variable.
pub fn width(m: &SvModule, v: VarId) -> u32
    ensures { result ≡ width_at m.now.vars v.0 }
{
    match m.vars.get(v.0 as usize) {
        Some(var) => var.width,
        None => 0,
    }
}

/// The length of an expression by itself (IEEE 1800-2017, 11.6.1), 1 to 128. It takes no memory.
///
/// Every variable has a width of 1 to 128, and no size in the expression is wrong.
#[cycle(length)]
pub fn length(m: &SvModule, e: &SvExpr) -> u32
    requires sized { IsSized (width_at m.now.vars) (term_of e.now) }
    ensures length { result ≡ length_of (width_at m.now.vars) (term_of e.now) }
{
    match e.node.get() {
        SvExprNode::Literal(l) => l.width,
        SvExprNode::Left(SvLeft::Whole(v)) => width(m, *v),
        SvExprNode::Left(SvLeft::Bit { .. }) => 1,
        SvExprNode::Left(SvLeft::Range { h, l, .. }) => h - l + 1,
        SvExprNode::Unary { op, of } => match op {
            SvUnary::Not | SvUnary::Neg => length(m, of),
            _ => 1,
        },
        SvExprNode::Binary { op, left, right } => match op {
            SvBinary::Shl | SvBinary::Shr | SvBinary::Sar => length(m, left),
            SvBinary::Eq
            | SvBinary::Ne
            | SvBinary::Lt
            | SvBinary::Le
            | SvBinary::Gt
            | SvBinary::Ge => 1,
            SvBinary::LogAnd | SvBinary::LogOr => 1,
            _ => length(m, left).max(length(m, right)),
        },
        SvExprNode::Cond { yes, no, .. } => length(m, yes).max(length(m, no)),
        SvExprNode::Concat(parts) => lengths(m, parts.as_slice()),
        SvExprNode::Cast { width, .. } => *width,
        SvExprNode::Sign { of, .. } => length(m, of),
    }
}

/// The sum of the lengths of parts.
#[cycle(length)]
pub fn lengths(m: &SvModule, parts: &[SvExpr]) -> u32
    requires sized { AllSized (width_at m.now.vars) (map term_of parts.now) }
    requires short { total_length (width_at m.now.vars) (map term_of parts.now) ≤ 128 }
    ensures length { result ≡ total_length (width_at m.now.vars) (map term_of parts.now) }
{
    let mut total = 0;
    for e in parts {
        total += length(m, e);
    }
    total
}

/// Whether an expression is signed by itself (IEEE 1800-2017, 11.8.1). It takes no memory.
pub fn signed(m: &SvModule, e: &SvExpr) -> bool
    ensures signed { result ≡ signed_of (term_of e.now) }
{
    match e.node.get() {
        SvExprNode::Literal(_) | SvExprNode::Left(_) => false,
        SvExprNode::Concat(_) => false,
        SvExprNode::Unary { op, of } => match op {
            SvUnary::Not | SvUnary::Neg => signed(m, of),
            _ => false,
        },
        SvExprNode::Binary { op, left, right } => match op {
            SvBinary::Shl | SvBinary::Shr | SvBinary::Sar => signed(m, left),
            SvBinary::Eq
            | SvBinary::Ne
            | SvBinary::Lt
            | SvBinary::Le
            | SvBinary::Gt
            | SvBinary::Ge => false,
            SvBinary::LogAnd | SvBinary::LogOr => false,
            _ => signed(m, left) && signed(m, right),
        },
        SvExprNode::Cond { yes, no, .. } => signed(m, yes) && signed(m, no),
        SvExprNode::Cast { of, .. } => signed(m, of),
        SvExprNode::Sign { signed, .. } => *signed,
    }
}
