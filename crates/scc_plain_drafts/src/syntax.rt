//! What the tree of an expression shows.
ghost use Rattle.std.specs.Prelude.{◌≡◌, if◌then◌else◌, not};
ghost use Rattle.scc_bits_kinds.specs.declared.op.Op.TheVariants as op;
ghost use Rattle.scc_plain_drafts.specs.Flows.{behind_of, is_index, is_text, link_of};
ghost use Rattle.scc_plain_drafts.specs.Forms.{Classes};
ghost use Rattle.scc_plain_drafts.specs.Meaning.{meant_in};
ghost use Rattle.scc_plain_spec.specs.Calls.{is_bit_select, is_zero, operator_on};
ghost use Rattle.scc_plain_spec.specs.Expressions.{is_lazy};
ghost use Rattle.scc_plain_spec.specs.Parts.{operator_of};
ghost use Rattle.scc_plain_spec.specs.Simple.{last_args};
ghost use Rattle.scc_templates_spec.specs.Tree.{Tree};
ghost use Rattle.scc_templates_spec.specs.View.{tree_of, trees_of};
ghost use Rattle.scc_base.specs.declared.refusal.Place.{Place};

use crate::meant::Meant;
use scc_bits::Op;
use scc_tree::{Expr, ExprNode, Link, Part, PartNode, UnaryOp};

/// The operator that stands before one operand, None where it is one on pointers.
pub fn operator_of(op: UnaryOp) -> Option<Op>
    ensures { result ≡ operator_of op }
{
    match op {
        UnaryOp::Plus => Some(Op::Plus),
        UnaryOp::Neg => Some(Op::Neg),
        UnaryOp::LogNot => Some(Op::LogNot),
        UnaryOp::Not => Some(Op::Not),
        UnaryOp::Deref | UnaryOp::Address => None,
    }
}

/// The operator before what an expression names, None where it is one on pointers. `~` of a bit-select is its complement, a
/// `bool` (IEEE 1666-2011, 7.2.5), as `!` is; every other `bool` is promoted (C++, [expr.unary.op]), also what a cast makes of a
/// bit.
pub fn operator_on(op: UnaryOp, of: &Expr, m: &Meant) -> Option<Op>
    ensures { (n : Classes) → result ≡ operator_on (tree_of of.now) (meant_in n m.now) op }
{
    match op {
        UnaryOp::Not => Some(complement(is_bit_select(of, m))),
        _ => operator_of(op),
    }
}

fn complement(of_bit: bool) -> Op
    ensures { result ≡ (if of_bit then op.LogNot else op.Not) }
{
    if of_bit { Op::LogNot } else { Op::Not }
}

fn is_bit_select(of: &Expr, m: &Meant) -> bool
    ensures { (n : Classes) → result ≡ is_bit_select (tree_of of.now) (meant_in n m.now) }
{
    if !is_index(of) {
        return false;
    }
    m.takes_bits()
}

/// Whether an index stands at its end.
fn is_index(e: &Expr) -> bool
    ensures { result ≡ is_index (tree_of e.now) }
{
    match e.node.get() {
        ExprNode::Parts { of, parts } => match parts.as_slice().split_last() {
            Some((part, _)) => takes_index(part),
            None => is_index(of),
        },
        ExprNode::Chain { first, rest } => match rest.as_slice().split_last() {
            Some((link, _)) => operates(link),
            None => is_index(first),
        },
        _ => false,
    }
}

fn takes_index(part: &Part) -> bool
    ensures { (p : Place) (t : Tree) → result ≡ is_index (behind_of part.now p t) }
{
    match &part.node {
        PartNode::Index(_) => true,
        PartNode::Member(_) => false,
        PartNode::Arrow(_) => false,
        PartNode::Call(_) => false,
    }
}

// No operator is an index.
fn operates(_link: &Link) -> bool
    ensures { (p : Place) (t : Tree) → result ≡ is_index (link_of _link.now p t) }
{
    false
}

/// Whether the right operand isn't always evaluated (C++, [expr.log.and], [expr.log.or]).
pub fn is_lazy(op: Op) -> bool
    ensures { result ≡ is_lazy op }
{
    matches!(op, Op::LogAnd | Op::LogOr)
}

/// The arguments of `new`, or none of a text: of what stands as an argument alone.
pub fn made_args(e: &Expr) -> Option<&[Expr]> {
    match e.node.get() {
        ExprNode::Make { args, .. } => Some(args.as_slice()),
        ExprNode::Text => Some(&[]),
        _ => None,
    }
}

/// Whether it is a text in quotes.
pub fn is_text(e: &Expr) -> bool
    ensures { result ≡ is_text (tree_of e.now) }
{
    match e.node.get() {
        ExprNode::Text => true,
        ExprNode::Parts { of, parts } => match parts.as_slice().split_last() {
            Some((part, _)) => !is_applied(part),
            None => is_text(of),
        },
        ExprNode::Chain { first, rest } => match rest.as_slice().split_last() {
            Some((link, _)) => !is_operated(link),
            None => is_text(first),
        },
        _ => false,
    }
}

/// Whether it is an element, a member or a call, and so neither a number nor a text: each part of a chain is one.
pub(crate) fn is_applied(part: &Part) -> bool
    ensures zero { (p : Place) (t : Tree) → not result ≡ is_zero (behind_of part.now p t) }
    ensures text { (p : Place) (t : Tree) → not result ≡ is_text (behind_of part.now p t) }
{
    match &part.node {
        PartNode::Index(_) => true,
        PartNode::Member(_) => true,
        PartNode::Arrow(_) => true,
        PartNode::Call(_) => true,
    }
}

/// Whether it is an operator with its operand, and so neither a number nor a text: each link of a chain is one.
pub(crate) fn is_operated(_link: &Link) -> bool
    ensures zero { (p : Place) (t : Tree) → not result ≡ is_zero (link_of _link.now p t) }
    ensures text { (p : Place) (t : Tree) → not result ≡ is_text (link_of _link.now p t) }
{
    true
}

/// The arguments of the call that an expression ends with; none where it ends otherwise.
pub fn last_args(e: &Expr) -> &[Expr]
    ensures { trees_of result.now ≡ last_args (tree_of e.now) }
{
    match e.node.get() {
        ExprNode::Parts { of, parts } => match parts.as_slice().split_last() {
            Some((part, _)) => part_args(part),
            None => last_args(of),
        },
        ExprNode::Chain { first, rest } => match rest.as_slice().split_last() {
            Some((link, _)) => link_args(link),
            None => last_args(first),
        },
        _ => &[],
    }
}

fn part_args(part: &Part) -> &[Expr]
    ensures { (p : Place) (t : Tree) → trees_of result.now ≡ last_args (behind_of part.now p t) }
{
    match &part.node {
        PartNode::Call(args) => args.as_slice(),
        PartNode::Index(_) => &[],
        PartNode::Member(_) => &[],
        PartNode::Arrow(_) => &[],
    }
}

// No operator is a call.
fn link_args(_link: &Link) -> &[Expr]
    ensures { (p : Place) (t : Tree) → trees_of result.now ≡ last_args (link_of _link.now p t) }
{
    &[]
}
