use scc_base::{Boxed, List};
use scc_bits::Word;

/// A variable of a module, by its place in the module's list of variables, from 0.
#[derive(Clone, Copy, PartialEq, Eq)]
pub struct VarId(pub u32);

/// A number without sign in a width of 1 to 128 bits (IEEE 1800-2017, section 5.7.1).
#[derive(Clone, Copy)]
pub struct SvLiteral {
    pub width: u32,
    pub value: Word,
}

/// A variable, or a bit or a range of its bits (IEEE 1800-2017, section 11.5.1).
#[derive(Clone, Copy)]
pub enum SvLeft {
    Whole(VarId),
    Bit { var: VarId, at: u32 },
    Range { var: VarId, h: u32, l: u32 },
}

/// An expression (IEEE 1800-2017, section 11). A chain of operators is as deep as it is long, so it is let go by a loop along its
/// first operands.
#[cycle(expr)]
pub struct SvExpr {
    pub node: Boxed<SvExprNode>,
}

#[cycle(expr)]
#[derive(Drop)]
pub enum SvExprNode {
    Literal(SvLiteral),
    Left(SvLeft),
    Unary {
        op: SvUnary,
        of: SvExpr,
    },
    Binary {
        op: SvBinary,
        left: SvExpr,
        right: SvExpr,
    },
    Cond {
        test: SvExpr,
        yes: SvExpr,
        no: SvExpr,
    },
    Concat(List<SvExpr>),
    /// A size cast `W'(e)`.
    Cast {
        width: u32,
        of: SvExpr,
    },
    /// `$signed` or `$unsigned`.
    Sign {
        signed: bool,
        of: SvExpr,
    },
}

/// `~ ! -` and the reductions `& | ^`.
#[derive(Clone, Copy, PartialEq, Eq)]
pub enum SvUnary {
    Not,
    LogNot,
    Neg,
    And,
    Or,
    Xor,
}

/// The operators of two operands; `Sar` is `>>>`.
#[derive(Clone, Copy, PartialEq, Eq)]
pub enum SvBinary {
    Add,
    Sub,
    Mul,
    Div,
    Rem,
    And,
    Or,
    Xor,
    Shl,
    Shr,
    Sar,
    Eq,
    Ne,
    Lt,
    Le,
    Gt,
    Ge,
    LogAnd,
    LogOr,
}

impl Drop for SvExpr {
    #[cycle(gone)]
    fn drop(mut self) {
        loop {
            let SvExpr { node } = self;
            match Boxed::into_inner(node) {
                SvExprNode::Literal(_literal) => return,
                SvExprNode::Left(_left) => return,
                SvExprNode::Unary { op: _op, of } => self = of,
                SvExprNode::Binary {
                    op: _op,
                    left,
                    right,
                } => {
                    drop(right);
                    self = left;
                }
                SvExprNode::Cond { test, yes, no } => {
                    drop(yes);
                    drop(no);
                    self = test;
                }
                SvExprNode::Concat(list) => {
                    drop(list);
                    return;
                }
                SvExprNode::Cast { width: _width, of } => self = of,
                SvExprNode::Sign {
                    signed: _signed,
                    of,
                } => self = of,
            }
        }
    }
}
