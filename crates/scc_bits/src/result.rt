//! The kinds of an operator's operands and of its answer.
ghost use Rattle.std.specs.Prelude.{◌≡◌, option_map};
ghost use Rattle.scc_bits.specs.Values.{kind_of, is_too_wide, rule_at};
ghost use Rattle.scc_bits.specs.Placed.{operands_of};

use crate::operands::{Operands, passes, placed};
use scc_bits_kinds::{Kind, Op, Rule, group_of, rule_of};

/// The rule of an operator for operands of two kinds, None where there is no row.
#[inline(always)]
pub(crate) fn rule_at(op: Op, a: Kind, b: Kind) -> Option<Rule>
    ensures { result ≡ rule_at op a b }
{
    rule_of(op, group_of(a), group_of(b))
}

/// The kinds to which operands of two kinds are converted before the operator is taken, and that of its answer; None
/// exactly where `result_kind` is None. Small operands take their common kind; large ones the answer's kind or, in a
/// comparison, one with room for both; the amount of a shift stands as it is, unsigned. `operands_keep_answer` says
/// that an operator on the operands so converted gives its answer.
#[inline(always)]
pub fn operand_kinds(op: Op, a: Kind, b: Kind) -> Option<Operands>
    ensures kinds { result ≡ operands_of op a b }
    ensures answer { option_map (λ k. k.answer) result ≡ kind_of op a b }
{
    let rule = rule_at(op, a, b)?;
    placed(rule, a, b)
}

/// The kind of an operator's answer for operands of two kinds, None exactly where the operator table has no row
/// for them. A unary operator takes `a` alone, and its rows stand where `b` is of the group of `a`.
#[inline(always)]
pub fn result_kind(op: Op, a: Kind, b: Kind) -> Option<Kind>
    ensures { result ≡ kind_of op a b }
{
    operand_kinds(op, a, b).map(|kinds| kinds.answer)
}

/// Whether the operator's row demands at most 128 bits and there are more.
pub fn too_wide(op: Op, a: Kind, b: Kind) -> bool
    ensures { result ≡ is_too_wide op a b }
{
    match rule_at(op, a, b) {
        Some(rule) => passes(rule, a, b),
        None => false,
    }
}
