//! Reads operators.
ghost use Rattle.std.specs.Prelude.{◌≡◌, ◌∷◌, [], is_some, nat_eq};
ghost use Rattle.scc_reading.specs.Reading.{is_next, pure, token};
ghost use Rattle.scc_svread_grammar.specs.Answer.{Gives};
ghost use Rattle.scc_svread_grammar.specs.Grammar as grammar;
ghost use Rattle.scc_svread_grammar.specs.Reader as reader;

use crate::bytes;
use crate::bytes::text;
use scc_svread_grammar::Halt;
use scc_svtree::{SvBinary, SvUnary};

// The operator of one operand that a byte stands for.
fn unary_op(b: u8) -> Option<SvUnary>
    ensures { result ≡ grammar.unary_op b }
{
    match b {
        126 => Some(SvUnary::Not),
        33 => Some(SvUnary::LogNot),
        45 => Some(SvUnary::Neg),
        38 => Some(SvUnary::And),
        124 => Some(SvUnary::Or),
        94 => Some(SvUnary::Xor),
        _ => None,
    }
}

/// Whether an operator of one operand comes next.
pub fn begins_unary(ts: &[u8]) -> bool
    ensures { result ≡ is_next reader.is_unary ts.now }
{
    match ts {
        [b, ..] => unary_op(*b).is_some(),
        [] => false,
    }
}

/// An operator of one operand.
pub fn unary(ts: &[u8]) -> Result<(SvUnary, &[u8]), Halt>
    ensures { Gives (λ x. (x.0, x.1.now)) result (token grammar.unary_op ts.now) }
{
    match ts {
        [b, rest @ ..] => match unary_op(*b) {
            Some(op) => Ok((op, rest)),
            None => Err(Halt::Unexpected(ts.len())),
        },
        [] => Err(Halt::Unexpected(0)),
    }
}

// One more byte, or not.
fn longer<'a>(
    b: u8,
    long: SvBinary,
    short: SvBinary,
    ts: &'a [u8],
) -> Result<(SvBinary, &'a [u8]), Halt>
    ensures { Gives (λ x. (x.0, x.1.now)) result (reader.longer (λ c. nat_eq c b) (b ∷ []) long (pure short) ts.now) }
{
    if bytes::is_next(b, ts) {
        let (_, rest) = text(&[b], ts)?;
        return Ok((long, rest));
    }
    Ok((short, ts))
}

#[tactic(auto, unfolding(scc_svread_grammar::specs::Reader::greater_behind))]
fn greater_behind(ts: &[u8]) -> Result<(SvBinary, &[u8]), Halt>
    ensures { Gives (λ x. (x.0, x.1.now)) result (reader.greater_behind ts.now) }
{
    if bytes::is_next(61, ts) {
        let (_, rest) = text(b"=", ts)?;
        return Ok((SvBinary::Ge, rest));
    }
    if bytes::is_next(62, ts) {
        let (_, rest) = text(b">", ts)?;
        return longer(62, SvBinary::Sar, SvBinary::Shr, rest);
    }
    Ok((SvBinary::Gt, ts))
}

#[tactic(auto, unfolding(scc_svread_grammar::specs::Reader::operator_behind))]
fn less_behind(ts: &[u8]) -> Result<(SvBinary, &[u8]), Halt>
    ensures { Gives (λ x. (x.0, x.1.now)) result (reader.operator_behind reader.less_start ts.now) }
{
    if bytes::is_next(61, ts) {
        let (_, rest) = text(b"=", ts)?;
        return Ok((SvBinary::Le, rest));
    }
    longer(60, SvBinary::Shl, SvBinary::Lt, ts)
}

// An operator whose second byte is `=`.
fn equal_behind<'a>(op: SvBinary, ts: &'a [u8]) -> Result<(SvBinary, &'a [u8]), Halt>
    ensures { Gives (λ x. (x.0, x.1.now)) result (reader.equal_then op ts.now) }
{
    let (_, rest) = text(b"=", ts)?;
    Ok((op, rest))
}

/// An operator of two operands.
#[tactic(auto, unfolding(scc_svread_grammar::specs::Reader::operator, scc_svread_grammar::specs::Reader::operator_behind))]
pub fn operator(ts: &[u8]) -> Result<(SvBinary, &[u8]), Halt>
    ensures { Gives (λ x. (x.0, x.1.now)) result (reader.operator ts.now) }
{
    match ts {
        [43, rest @ ..] => Ok((SvBinary::Add, rest)),
        [45, rest @ ..] => Ok((SvBinary::Sub, rest)),
        [42, rest @ ..] => Ok((SvBinary::Mul, rest)),
        [47, rest @ ..] => Ok((SvBinary::Div, rest)),
        [37, rest @ ..] => Ok((SvBinary::Rem, rest)),
        [94, rest @ ..] => Ok((SvBinary::Xor, rest)),
        [38, rest @ ..] => longer(38, SvBinary::LogAnd, SvBinary::And, rest),
        [124, rest @ ..] => longer(124, SvBinary::LogOr, SvBinary::Or, rest),
        [60, rest @ ..] => less_behind(rest),
        [62, rest @ ..] => greater_behind(rest),
        [61, rest @ ..] => equal_behind(SvBinary::Eq, rest),
        [33, rest @ ..] => equal_behind(SvBinary::Ne, rest),
        _ => Err(Halt::Unexpected(ts.len())),
    }
}
