ghost use Rattle.std.specs.Prelude.{◌≡◌, IfOk};
ghost use Rattle.scc_tree.specs.Node.{expr_of};

use crate::Ty;
use scc_base::{Boxed, List, Name, NoMemory, Place};
use scc_bits::{Kind, Op, Word};
use std::alloc::Global;

/// An expression (C++, [expr]), with the place of its first token. Brackets round one expression make no node.
#[cycle(expr)]
#[derive(Drop)]
pub struct Expr {
    pub place: Place,
    pub node: Boxed<ExprNode>,
}

#[cycle(expr)]
#[derive(Drop)]
pub enum ExprNode {
    /// A number; `true` and `false` are the numbers 1 and 0 of the kind `Bool`.
    Number(Kind, Word),
    This,
    /// `NULL` or `nullptr`.
    Null,
    /// A text in quotes, as an argument of a call.
    Text,
    Ident(Name),
    /// `ty::member`.
    Scoped { ty: Ty, member: Name },
    /// Operands joined by operators of one precedence, from the left; `rest` isn't empty.
    Chain { first: Expr, rest: List<Link> },
    Unary { op: UnaryOp, of: Expr },
    /// `test ? yes : no`.
    Cond { test: Expr, yes: Expr, no: Expr },
    /// `(ty) of`, `ty(of)` or `static_cast<ty>(of)`.
    Cast { ty: Ty, of: Expr },
    /// Indices, members and calls, from the left; `parts` isn't empty.
    Parts { of: Expr, parts: List<Part> },
    /// `(a, b)` or `concat(a, b)`; at least two.
    Concat(List<Expr>),
    /// `new ty(args)`, as an argument or behind an assignment.
    Make { ty: Ty, args: List<Expr> },
}

/// An operator and its right operand; the place is the operator's.
#[cycle(expr)]
#[derive(Drop)]
pub struct Link {
    pub op: Op,
    pub place: Place,
    pub operand: Expr,
}

/// One step behind an expression. The place is the bracket's, or that of the member's name.
#[cycle(expr)]
#[derive(Drop)]
pub struct Part {
    pub place: Place,
    pub node: PartNode,
}

#[cycle(expr)]
#[derive(Drop)]
pub enum PartNode {
    /// `[at]`.
    Index(Expr),
    /// `.name`.
    Member(Name),
    /// `->name`.
    Arrow(Name),
    /// `(args)`.
    Call(List<Expr>),
}

/// `+ - ! ~ * &` before an operand (C++, [expr.unary.op]).
#[derive(Clone, Copy, PartialEq, Eq)]
pub enum UnaryOp {
    Plus,
    Neg,
    LogNot,
    Not,
    Deref,
    Address,
}

impl Expr {
    /// The expression at `place`; its node goes onto the heap.
    pub fn new(alloc: Global, place: Place, node: ExprNode) -> Result<Expr, NoMemory>
        ensures expression { IfOk result (λ e. e ≡ expr_of place node) }
    {
        Ok(Expr {
            place,
            node: Boxed::new(alloc, node)?,
        })
    }
}
