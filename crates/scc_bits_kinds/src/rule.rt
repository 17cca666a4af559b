ghost use Rattle.std.specs.Prelude.{◌≡◌, Some, None, if◌then◌else◌};
ghost use Rattle.scc_bits_kinds.specs.Groups.{is_small};
ghost use Rattle.scc_bits_kinds.specs.Table.{by_groups, by_left, alone, has_bits, rule_of};

use crate::group::Group;
use crate::op::Op;

/// How an operator takes its operands and what it answers: a rule of the operator table.
/// c is the common kind of both promoted operands, b an operand's count of bits, b' that count in the row's sign,
/// s whether an operand is signed.
#[derive(Clone, Copy, Debug, PartialEq, Eq)]
pub enum Rule {
    /// Small operands converted to c, and the answer of kind c.
    Common,
    /// Small operands converted to c, and an answer of kind `bool`.
    CommonTest,
    /// A small operand promoted, and the answer of the same kind.
    Promoted,
    /// A small operand promoted and shifted by a small amount.
    PromotedShift,
    /// Small operands as conditions.
    Logical,
    /// All bits of an operand.
    Reduction,
    /// max b' + 1 bits, signed where s.
    WideSum,
    /// max b' + 1 bits, signed.
    WideDifference,
    /// b + b bits, signed where s.
    WideProduct,
    /// max b' bits, where s signed and one more; at most 128.
    WideQuotient,
    /// max b' bits, signed where s.
    WideBits,
    /// An answer of kind `bool`; max b' is at most 128.
    WideTest,
    /// 255 bits, of the left operand's sign.
    WideLeft,
    /// b bits of the left operand, at most 128, and its sign.
    WideRight,
    /// b bits, and the operand's sign.
    WideSame,
    /// b + 1 bits, signed.
    WideNegation,
    /// b bits, one more where the operand is unsigned; signed.
    WideComplement,
    /// Bit vectors of equal width, which is the answer's.
    BitsBoth,
    /// Bit vectors of equal width, and an answer of kind `bool`.
    BitsTest,
    /// A bit vector shifted by a small amount.
    BitsShift,
    /// A bit vector's complement.
    BitsComplement,
}

/// The arms of a match over all operators: each has the form of its rows with the rules of small, of large and of bit
/// vector operands.
macro_rules! each_operator {
    ($op:expr, $arm:ident $with:tt) => {
        match $op {
            Op::Add => $arm!(two $with Common WideSum),
            Op::Sub => $arm!(two $with Common WideDifference),
            Op::Mul => $arm!(two $with Common WideProduct),
            Op::Div => $arm!(two $with Common WideQuotient),
            Op::Rem => $arm!(two $with Common WideQuotient),
            Op::And => $arm!(two $with Common WideBits BitsBoth),
            Op::Or => $arm!(two $with Common WideBits BitsBoth),
            Op::Xor => $arm!(two $with Common WideBits BitsBoth),
            Op::Eq => $arm!(two $with CommonTest WideTest BitsTest),
            Op::Ne => $arm!(two $with CommonTest WideTest BitsTest),
            Op::Lt => $arm!(two $with CommonTest WideTest),
            Op::Le => $arm!(two $with CommonTest WideTest),
            Op::Gt => $arm!(two $with CommonTest WideTest),
            Op::Ge => $arm!(two $with CommonTest WideTest),
            Op::Shl => $arm!(shift $with PromotedShift WideLeft BitsShift),
            Op::Shr => $arm!(shift $with PromotedShift WideRight BitsShift),
            Op::LogAnd => $arm!(two $with Logical),
            Op::LogOr => $arm!(two $with Logical),
            Op::Plus => $arm!(one $with Promoted WideSame),
            Op::Neg => $arm!(one $with Promoted WideNegation),
            Op::Not => $arm!(one $with Promoted WideComplement BitsComplement),
            Op::LogNot => $arm!(one $with Logical),
            Op::AndReduce => $arm!(bits $with Reduction),
            Op::OrReduce => $arm!(bits $with Reduction),
            Op::XorReduce => $arm!(bits $with Reduction),
        }
    };
}

/// The rule of one form at a left and a right group.
macro_rules! rule {
    (two ($g:expr, $h:expr) $s:ident) => { by_groups(Some(Rule::$s), None, None, $g, $h) };
    (two ($g:expr, $h:expr) $s:ident $l:ident) => { by_groups(Some(Rule::$s), Some(Rule::$l), None, $g, $h) };
    (two ($g:expr, $h:expr) $s:ident $l:ident $b:ident) => {
        by_groups(Some(Rule::$s), Some(Rule::$l), Some(Rule::$b), $g, $h)
    };
    (shift ($g:expr, $h:expr) $s:ident $l:ident $b:ident) => { by_left(Rule::$s, Rule::$l, Rule::$b, $g, $h) };
    (one ($g:expr, $h:expr) $s:ident) => { alone(Some(Rule::$s), None, None, $g, $h) };
    (one ($g:expr, $h:expr) $s:ident $l:ident) => { alone(Some(Rule::$s), Some(Rule::$l), None, $g, $h) };
    (one ($g:expr, $h:expr) $s:ident $l:ident $b:ident) => {
        alone(Some(Rule::$s), Some(Rule::$l), Some(Rule::$b), $g, $h)
    };
    (bits ($g:expr, $h:expr) $s:ident) => { of_bits(Rule::$s, $g, $h) };
}

/// The rule of an operator for operands of two groups, None where it has none: what the operator table has at their
/// row, without a search.
#[inline(always)]
pub fn rule_of(op: Op, left: Group, right: Group) -> Option<Rule>
    ensures { result ≡ rule_of op left right }
{
    each_operator!(op, rule(left, right))
}

#[inline(always)]
fn is_small(group: Group) -> bool
    ensures { result ≡ is_small group }
{
    matches!(
        group,
        Group::Bool | Group::Native | Group::Int | Group::Uint
    )
}

#[inline(always)]
fn by_groups(
    small: Option<Rule>,
    large: Option<Rule>,
    bits: Option<Rule>,
    left: Group,
    right: Group,
) -> Option<Rule>
    ensures { result ≡ by_groups small large bits left right }
{
    match (left, right) {
        (Group::Bv, Group::Bv) => bits,
        (Group::Bv, _) | (_, Group::Bv) => None,
        _ if is_small(left) && is_small(right) => small,
        _ => large,
    }
}

#[inline(always)]
fn by_left(small: Rule, large: Rule, bits: Rule, left: Group, right: Group) -> Option<Rule>
    ensures { result ≡ by_left small large bits left right }
{
    let rule = match left {
        Group::Bool | Group::Native | Group::Int | Group::Uint => small,
        Group::Big | Group::BigInt | Group::Wide => large,
        Group::Bv => bits,
    };
    is_small(right).then_some(rule)
}

#[inline(always)]
fn alone(
    small: Option<Rule>,
    large: Option<Rule>,
    bits: Option<Rule>,
    left: Group,
    right: Group,
) -> Option<Rule>
    ensures { result ≡ alone small large bits left right }
{
    match (left, right) {
        (Group::Bool, Group::Bool) => small,
        (Group::Native, Group::Native) => small,
        (Group::Int, Group::Int) => small,
        (Group::Uint, Group::Uint) => small,
        (Group::Big, Group::Big) => large,
        (Group::BigInt, Group::BigInt) => large,
        (Group::Wide, Group::Wide) => large,
        (Group::Bv, Group::Bv) => bits,
        _ => None,
    }
}

#[inline(always)]
fn of_bits(rule: Rule, left: Group, right: Group) -> Option<Rule>
    ensures { result ≡ (if has_bits left then alone (Some rule) (Some rule) (Some rule) left right else None) }
{
    match left {
        Group::Bool | Group::Native | Group::Wide => None,
        _ => alone(Some(rule), Some(rule), Some(rule), left, right),
    }
}
