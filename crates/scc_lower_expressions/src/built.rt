//! The parts of emitted expressions.
ghost use Rattle.std.specs.Prelude.{◌≡◌, IfOk};
ghost use Rattle.scc_bits_kinds.specs.Kinds.{width_of};
ghost use Rattle.scc_svtree.specs.Classes.{class_of};
ghost use Rattle.scc_svtree.specs.Term as term;
ghost use Rattle.scc_svtree.specs.Term.{term_of};
ghost use Rattle.scc_svtree.specs.declared.expr.SvLeft.TheVariants as place;
ghost use Rattle.scc_lower_spec.specs.Conversion.{is_test, takes_own_size, widened};

use scc_base::{Boxed, NoMemory};
use scc_bits::{Value, Word, width};
use scc_svtree::{SvBinary, SvExpr, SvExprNode, SvLeft, SvLiteral, SvUnary, VarId};
use std::alloc::Global;

pub fn node(alloc: Global, node: SvExprNode) -> Result<SvExpr, NoMemory>
    ensures { IfOk result (λ e. e.node ≡ node) }
{
    Ok(SvExpr {
        node: Boxed::new(alloc, node)?,
    })
}

pub fn number(width: u32, bits: u128) -> SvLiteral
    ensures width { result.width ≡ width }
    ensures bits { result.value.bits ≡ bits }
{
    SvLiteral {
        width,
        value: Word { bits },
    }
}

#[tactic(auto, using(crate::proofs::Terms::term_literal))]
pub fn literal(alloc: Global, width: u32, bits: u128) -> Result<SvExpr, NoMemory>
    ensures { IfOk result (λ e. term_of e ≡ term.Literal width bits) }
{
    node(alloc, SvExprNode::Literal(number(width, bits)))
}

/// A number in the width of its kind.
pub fn known(alloc: Global, v: Value) -> Result<SvExpr, NoMemory>
    ensures { IfOk result (λ e. term_of e ≡ term.Literal (width_of v.kind) v.word) }
{
    literal(alloc, width(v.kind()), v.word().bits)
}

#[tactic(auto, using(crate::proofs::Terms::term_left))]
pub fn left(alloc: Global, of: SvLeft) -> Result<SvExpr, NoMemory>
    ensures { IfOk result (λ e. term_of e ≡ term.Part of) }
{
    node(alloc, SvExprNode::Left(of))
}

pub fn whole(alloc: Global, var: VarId) -> Result<SvExpr, NoMemory>
    ensures { IfOk result (λ e. term_of e ≡ term.Part (place.Whole var)) }
{
    left(alloc, SvLeft::Whole(var))
}

#[tactic(auto, using(crate::proofs::Terms::term_unary))]
pub fn unary(alloc: Global, op: SvUnary, of: SvExpr) -> Result<SvExpr, NoMemory>
    ensures { IfOk result (λ e. term_of e ≡ term.Unary op (term_of of)) }
{
    node(alloc, SvExprNode::Unary { op, of })
}

#[tactic(auto, using(crate::proofs::Terms::term_binary))]
pub fn binary(alloc: Global, op: SvBinary, left: SvExpr, right: SvExpr) -> Result<SvExpr, NoMemory>
    ensures { IfOk result (λ e. term_of e ≡ term.Binary op (term_of left) (term_of right)) }
{
    node(alloc, SvExprNode::Binary { op, left, right })
}

#[tactic(auto, using(crate::proofs::Terms::term_cond))]
pub fn choice(alloc: Global, test: SvExpr, yes: SvExpr, no: SvExpr) -> Result<SvExpr, NoMemory>
    ensures { IfOk result (λ e. term_of e ≡ term.Cond (term_of test) (term_of yes) (term_of no)) }
{
    node(alloc, SvExprNode::Cond { test, yes, no })
}

#[tactic(auto, using(crate::proofs::Terms::term_cast))]
pub fn cast(alloc: Global, width: u32, of: SvExpr) -> Result<SvExpr, NoMemory>
    ensures { IfOk result (λ e. term_of e ≡ term.Cast width (term_of of)) }
{
    node(alloc, SvExprNode::Cast { width, of })
}

#[tactic(auto, using(crate::proofs::Terms::term_sign))]
pub fn sign(alloc: Global, signed: bool, of: SvExpr) -> Result<SvExpr, NoMemory>
    ensures { IfOk result (λ e. term_of e ≡ term.Sign signed (term_of of)) }
{
    node(alloc, SvExprNode::Sign { signed, of })
}

/// The expression with zeros in front up to a greater width. The standard's size cast may be read as an assignment, whose
/// width an operator's operands then take; `$unsigned` keeps them at their own (IEEE 1800-2017, 6.24.1 and 11.6).
pub fn widened(alloc: Global, width: u32, of: SvExpr) -> Result<SvExpr, NoMemory>
    ensures { IfOk result (λ e. term_of e ≡ widened width (term_of of)) }
{
    if takes_its_own_size(&of) {
        cast(alloc, width, of)
    } else {
        let of = sign(alloc, false, of)?;
        cast(alloc, width, of)
    }
}

// Whether no context gives the expression's operands another size.
fn takes_its_own_size(e: &SvExpr) -> bool
    ensures { result ≡ takes_own_size (term_of e.now) }
{
    match e.node.get() {
        SvExprNode::Literal(_) | SvExprNode::Left(_) => true,
        SvExprNode::Unary { op, .. } => match op {
            SvUnary::Not | SvUnary::Neg => false,
            _ => true,
        },
        SvExprNode::Binary { op, .. } => is_test(*op),
        SvExprNode::Cond { .. } => false,
        SvExprNode::Concat(_) => true,
        SvExprNode::Cast { .. } | SvExprNode::Sign { .. } => true,
    }
}

fn is_test(op: SvBinary) -> bool
    ensures { result ≡ is_test (class_of op) }
{
    match op {
        SvBinary::Eq
        | SvBinary::Ne
        | SvBinary::Lt
        | SvBinary::Le
        | SvBinary::Gt
        | SvBinary::Ge
        | SvBinary::LogAnd
        | SvBinary::LogOr => true,
        SvBinary::Add
        | SvBinary::Sub
        | SvBinary::Mul
        | SvBinary::Div
        | SvBinary::Rem
        | SvBinary::And
        | SvBinary::Or
        | SvBinary::Xor
        | SvBinary::Shl
        | SvBinary::Shr
        | SvBinary::Sar => false,
    }
}
