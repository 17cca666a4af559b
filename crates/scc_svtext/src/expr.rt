//! Prints names, selects and expressions.
ghost use Rattle.std.specs.Prelude.{◌≡◌, ◌++◌, OnOk};
ghost use Rattle.scc_svtext.specs.ExprText.{binary_text, expr_text, sign_text, unary_text};
ghost use Rattle.scc_svtext.specs.Fixed.{fixed_text};
ghost use Rattle.scc_svtext.specs.Pieces.{left_text, name_at};

use crate::digits::{fixed, literal, number};
use crate::fixed::Fixed;
use crate::part::Part;
use crate::split::split;
use scc_base::{NoMemory, Text};
use scc_svtree::{SvBinary, SvExpr, SvExprNode, SvLeft, SvUnary, VarId};
use std::alloc::Global;

/// Appends a variable's name.
pub fn name(out: &mut Text, names: &[Text], v: VarId) -> Result<(), NoMemory>
    ensures { OnOk result (out.new ≡ out.old ++ name_at names.now v.0) }
{
    match names.get(v.0 as usize) {
        Some(name) => out.push_bytes(name.bytes()),
        None => Ok(()),
    }
}

/// Appends a variable or a part of it.
pub fn left(out: &mut Text, names: &[Text], l: SvLeft) -> Result<(), NoMemory>
    ensures { OnOk result (out.new ≡ out.old ++ left_text names.now l) }
{
    match l {
        SvLeft::Whole(v) => name(out, names, v),
        SvLeft::Bit { var, at } => {
            name(out, names, var)?;
            fixed(out, Fixed::SelectOpen)?;
            number(out, at)?;
            fixed(out, Fixed::SelectClose)
        }
        SvLeft::Range { var, h, l } => {
            name(out, names, var)?;
            fixed(out, Fixed::SelectOpen)?;
            number(out, h)?;
            fixed(out, Fixed::SelectColon)?;
            number(out, l)?;
            fixed(out, Fixed::SelectClose)
        }
    }
}

/// The operator's letters.
pub fn unary(op: SvUnary) -> &'static [u8]
    ensures { result.now ≡ unary_text op }
{
    match op {
        SvUnary::Not => b"~",
        SvUnary::LogNot => b"!",
        SvUnary::Neg => b"-",
        SvUnary::And => b"&",
        SvUnary::Or => b"|",
        SvUnary::Xor => b"^",
    }
}

/// The operator's letters.
pub fn binary(op: SvBinary) -> &'static [u8]
    ensures { result.now ≡ binary_text op }
{
    match op {
        SvBinary::Add => b"+",
        SvBinary::Sub => b"-",
        SvBinary::Mul => b"*",
        SvBinary::Div => b"/",
        SvBinary::Rem => b"%",
        SvBinary::And => b"&",
        SvBinary::Or => b"|",
        SvBinary::Xor => b"^",
        SvBinary::Shl => b"<<",
        SvBinary::Shr => b">>",
        SvBinary::Sar => b">>>",
        SvBinary::Eq => b"==",
        SvBinary::Ne => b"!=",
        SvBinary::Lt => b"<",
        SvBinary::Le => b"<=",
        SvBinary::Gt => b">",
        SvBinary::Ge => b">=",
        SvBinary::LogAnd => b"&&",
        SvBinary::LogOr => b"||",
    }
}

/// The word for a sign.
pub fn sign(signed: bool) -> Fixed
    ensures { fixed_text result ≡ sign_text signed }
{
    if signed {
        Fixed::Signed
    } else {
        Fixed::Unsigned
    }
}

/// Appends an expression. A stack of parts stands in place of a recursion, since an expression may be as deep as a source
/// has operators in a row.
pub fn expr(alloc: Global, out: &mut Text, names: &[Text], e: &SvExpr) -> Result<(), NoMemory>
    ensures { OnOk result (out.new ≡ out.old ++ expr_text names.now e.now) }
{
    let mut parts = Vec::new(alloc);
    parts.push(Part::Expr(e))?;
    while let Some(part) = parts.pop() {
        match part {
            Part::Fixed(piece) => fixed(out, piece)?,
            Part::Operator(op) => out.push_bytes(binary(op))?,
            Part::Expr(e) => match e.node.get() {
                SvExprNode::Literal(l) => literal(out, l.width, l.value)?,
                SvExprNode::Left(l) => left(out, names, *l)?,
                SvExprNode::Unary { op, of } => {
                    fixed(out, Fixed::Open)?;
                    out.push_bytes(unary(*op))?;
                    parts.extend_from_slice(&[Part::Fixed(Fixed::Close), Part::Expr(of)])?;
                }
                SvExprNode::Binary { op, left, right } => {
                    fixed(out, Fixed::Open)?;
                    parts.extend_from_slice(&[
                        Part::Fixed(Fixed::Close),
                        Part::Expr(right),
                        Part::Fixed(Fixed::Space),
                        Part::Operator(*op),
                        Part::Fixed(Fixed::Space),
                        Part::Expr(left),
                    ])?;
                }
                SvExprNode::Cond { test, yes, no } => {
                    fixed(out, Fixed::Open)?;
                    parts.extend_from_slice(&[
                        Part::Fixed(Fixed::Close),
                        Part::Expr(no),
                        Part::Fixed(Fixed::Colon),
                        Part::Expr(yes),
                        Part::Fixed(Fixed::Question),
                        Part::Expr(test),
                    ])?;
                }
                SvExprNode::Concat(list) => {
                    fixed(out, Fixed::BraceOpen)?;
                    parts.push(Part::Fixed(Fixed::BraceClose))?;
                    if let Some((first, more)) = split(list.as_slice()) {
                        parts.extend_from_slice(&[Part::More(more), Part::Expr(first)])?;
                    }
                }
                SvExprNode::Cast { width, of } => {
                    number(out, *width)?;
                    fixed(out, Fixed::CastOpen)?;
                    parts.extend_from_slice(&[Part::Fixed(Fixed::Close), Part::Expr(of)])?;
                }
                SvExprNode::Sign { signed, of } => {
                    fixed(out, sign(*signed))?;
                    parts.extend_from_slice(&[Part::Fixed(Fixed::Close), Part::Expr(of)])?;
                }
            },
            Part::More(list) => {
                if let Some((first, more)) = split(list) {
                    fixed(out, Fixed::Comma)?;
                    parts.extend_from_slice(&[Part::More(more), Part::Expr(first)])?;
                }
            }
        }
    }
    Ok(())
}
