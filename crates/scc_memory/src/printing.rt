//! Prints expressions.
use crate::module::{MemExpr, MemExprNode};
use scc_base::{NoMemory, Text, lost, push};
use scc_svtext::pieces::{Fixed, binary, fixed, left, literal, number, sign, unary};
use scc_svtree::SvBinary;
use std::alloc::Global;

/// The names of variables and of memories as they are written.
#[derive(Clone, Copy)]
pub struct Spelled<'a> {
    pub vars: &'a [Text],
    pub memories: &'a [Text],
}

/// A part of the text of an expression.
#[derive(Clone, Copy)]
enum Part<'a> {
    Fixed(Fixed),
    Operator(SvBinary),
    Expr(&'a MemExpr),
    /// Further parts of a concatenation, each after a comma.
    More(&'a [MemExpr]),
}

/// Appends an expression. A stack of parts stands in place of a recursion, since an expression may be as deep as a source has
/// operators in a row.
pub fn expr(
    alloc: Global,
    out: &mut Text,
    names: Spelled<'_>,
    e: &MemExpr,
) -> Result<(), NoMemory> {
    let mut parts = Vec::new(alloc);
    push(&mut parts, Part::Expr(e))?;
    for _ in 0..usize::MAX {
        let Some(part) = parts.pop() else {
            return Ok(());
        };
        match part {
            Part::Fixed(piece) => fixed(out, piece)?,
            Part::Operator(op) => out.push_bytes(binary(op))?,
            Part::Expr(e) => begin(out, names, e, &mut parts)?,
            Part::More(list) => more(out, list, &mut parts)?,
        }
    }
    Err(lost())
}

// Appends the first piece of an expression; the parts after it go to the stack, the next one last.
fn begin<'a>(
    out: &mut Text,
    names: Spelled<'_>,
    e: &'a MemExpr,
    parts: &mut Vec<Part<'a>>,
) -> Result<(), NoMemory> {
    match e.node.get() {
        MemExprNode::Literal(l) => literal(out, l.width, l.value),
        MemExprNode::Left(l) => left(out, names.vars, *l),
        MemExprNode::Unary { op, of } => {
            fixed(out, Fixed::Open)?;
            out.push_bytes(unary(*op))?;
            closed(parts, Fixed::Close, of)
        }
        MemExprNode::Binary { op, left, right } => {
            fixed(out, Fixed::Open)?;
            closed(parts, Fixed::Close, right)?;
            push(parts, Part::Fixed(Fixed::Space))?;
            push(parts, Part::Operator(*op))?;
            closed(parts, Fixed::Space, left)
        }
        MemExprNode::Cond { test, yes, no } => {
            fixed(out, Fixed::Open)?;
            closed(parts, Fixed::Close, no)?;
            closed(parts, Fixed::Colon, yes)?;
            closed(parts, Fixed::Question, test)
        }
        MemExprNode::Concat(list) => {
            fixed(out, Fixed::BraceOpen)?;
            push(parts, Part::Fixed(Fixed::BraceClose))?;
            if let [first, rest @ ..] = list.as_slice() {
                push(parts, Part::More(rest))?;
                push(parts, Part::Expr(first))?;
            }
            Ok(())
        }
        MemExprNode::Cast { width, of } => {
            number(out, *width)?;
            fixed(out, Fixed::CastOpen)?;
            closed(parts, Fixed::Close, of)
        }
        MemExprNode::Sign { signed, of } => {
            fixed(out, sign(*signed))?;
            closed(parts, Fixed::Close, of)
        }
        MemExprNode::Element { memory, at } => {
            let Some(name) = names.memories.get(*memory as usize) else {
                return Err(lost());
            };
            out.push_bytes(name.bytes())?;
            fixed(out, Fixed::SelectOpen)?;
            closed(parts, Fixed::SelectClose, at)
        }
    }
}

// An expression, and a piece after it.
fn closed<'a>(parts: &mut Vec<Part<'a>>, end: Fixed, e: &'a MemExpr) -> Result<(), NoMemory> {
    push(parts, Part::Fixed(end))?;
    push(parts, Part::Expr(e))
}

fn more<'a>(
    out: &mut Text,
    list: &'a [MemExpr],
    parts: &mut Vec<Part<'a>>,
) -> Result<(), NoMemory> {
    if let [first, rest @ ..] = list {
        fixed(out, Fixed::Comma)?;
        push(parts, Part::More(rest))?;
        push(parts, Part::Expr(first))?;
    }
    Ok(())
}
