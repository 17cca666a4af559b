//! Reads expressions. What an arm does beside its recursion stands in functions of their own, which are `#[inline(never)]` for the
//! sake of small frames, as the arms are themselves.
ghost use Rattle.std.specs.Prelude.{◌≡◌, IfOk, codes, true};
ghost use Rattle.scc_reading.specs.Reading.{◌>>=◌ as followed_by, pure};
ghost use Rattle.scc_svread_grammar.specs.Answer.{Gives};
ghost use Rattle.scc_svread_grammar.specs.Leaves as leaves;
ghost use Rattle.scc_svread_grammar.specs.Reader as reader;
ghost use Rattle.scc_svread_grammar.specs.declared.raw.RawExpr.TheVariants as node;

use crate::bytes;
use crate::bytes::{begins_digit, begins_divisor, begins_expr, text};
use crate::held::{Node, Nodes};
use crate::lexical::{decimal, digits_behind, left, literal};
use crate::operator::{begins_unary, operator, unary};
use scc_base::{Boxed, NoMemory, Text};
use scc_svread_grammar::{Halt, RawExpr, RawLeft, RawLiteral, is_division};
use scc_svtree::{SvBinary, SvUnary};
use std::alloc::Global;

#[tactic(auto, unfolding(scc_svread_grammar::specs::Reader::number_at))]
fn number_at(alloc: Global, ts: &[u8]) -> Result<(RawExpr, &[u8]), Halt>
    ensures { Gives (λ x. (x.0, x.1.now)) result (reader.number_at ts.now) }
{
    let (l, rest) = literal(alloc, ts)?;
    Ok((RawExpr::Literal(l), rest))
}

// The literal in `$signed`, which opens a level.
fn open_number(alloc: Global, levels: u32, ts: &[u8]) -> Result<(RawExpr, &[u8]), Halt>
    ensures { Gives (λ x. (x.0, x.1.now)) result ((reader.inner levels).number ts.now) }
{
    if levels > 0 {
        return number_at(alloc, ts);
    }
    if begins_digit(ts) {
        return Err(Halt::TooDeep(ts.len()));
    }
    Err(Halt::Unexpected(ts.len()))
}

// The end of `$signed` of a literal.
fn signed_last(alloc: Global, l: RawExpr, ts: &[u8]) -> Result<(RawExpr, &[u8]), Halt>
    ensures { Gives (λ x. (x.0, x.1.now)) result (followed_by (leaves.text (codes ")")) (λ _. pure (node.Sign true l)) ts.now) }
{
    let (_, rest) = text(b")", ts)?;
    let of = Boxed::new(alloc, l)?;
    Ok((RawExpr::Sign { signed: true, of }, rest))
}

#[tactic(auto, unfolding(scc_svread_grammar::specs::Reader::signed_number))]
fn signed_number(alloc: Global, levels: u32, ts: &[u8]) -> Result<(RawExpr, &[u8]), Halt>
    ensures { Gives (λ x. (x.0, x.1.now)) result (reader.signed_number (reader.inner levels) ts.now) }
{
    let (_, rest) = text(b"$signed(", ts)?;
    let (l, rest) = open_number(alloc, levels, rest)?;
    signed_last(alloc, l, rest)
}

#[tactic(auto, unfolding(scc_svread_grammar::specs::Reader::divisor_at))]
fn divisor_at(alloc: Global, levels: u32, ts: &[u8]) -> Result<(RawExpr, &[u8]), Halt>
    ensures { Gives (λ x. (x.0, x.1.now)) result (reader.divisor_at (reader.inner levels) ts.now) }
{
    if begins_digit(ts) {
        return number_at(alloc, ts);
    }
    signed_number(alloc, levels, ts)
}

// The right operand of a division, which opens a level.
fn open_divisor(alloc: Global, levels: u32, ts: &[u8]) -> Result<(RawExpr, &[u8]), Halt>
    ensures { Gives (λ x. (x.0, x.1.now)) result ((reader.inner levels).divisor ts.now) }
{
    if levels > 0 {
        return divisor_at(alloc, levels - 1, ts);
    }
    if begins_divisor(ts) {
        return Err(Halt::TooDeep(ts.len()));
    }
    Err(Halt::Unexpected(ts.len()))
}

// The right operand of a division and the bracket behind it.
#[inline(never)]
#[tactic(auto, unfolding(scc_svread_grammar::specs::Reader::closed_divisor))]
fn closed_divisor(alloc: Global, levels: u32, ts: &[u8]) -> Result<(Node<RawExpr>, &[u8]), Halt>
    ensures { Gives (λ x. (x.0, x.1.now)) result (reader.closed_divisor (reader.inner levels) ts.now) }
{
    let (right, rest) = open_divisor(alloc, levels, ts)?;
    let right = Node::new(alloc, right)?;
    let (_, rest) = text(b")", rest)?;
    Ok((right, rest))
}

#[inline(never)]
fn literal_node(alloc: Global, l: RawLiteral) -> Result<Node<RawExpr>, NoMemory>
    ensures { IfOk result (λ e. e ≡ node.Literal l) }
{
    Node::new(alloc, RawExpr::Literal(l))
}

#[inline(never)]
fn left_node(alloc: Global, l: RawLeft) -> Result<Node<RawExpr>, NoMemory>
    ensures { IfOk result (λ e. e ≡ node.Left l) }
{
    Node::new(alloc, RawExpr::Left(l))
}

#[inline(never)]
fn unary_node(alloc: Global, op: SvUnary, of: Node<RawExpr>) -> Result<Node<RawExpr>, NoMemory>
    ensures { IfOk result (λ e. e ≡ node.Unary op of) }
{
    let of = of.into_boxed();
    Node::new(alloc, RawExpr::Unary { op, of })
}

#[inline(never)]
fn binary_node(
    alloc: Global,
    op: SvBinary,
    left: Node<RawExpr>,
    right: Node<RawExpr>,
) -> Result<Node<RawExpr>, NoMemory>
    ensures { IfOk result (λ e. e ≡ node.Binary op left right) }
{
    let (left, right) = (left.into_boxed(), right.into_boxed());
    Node::new(alloc, RawExpr::Binary { op, left, right })
}

#[inline(never)]
fn cond_node(
    alloc: Global,
    test: Node<RawExpr>,
    yes: Node<RawExpr>,
    no: Node<RawExpr>,
) -> Result<Node<RawExpr>, NoMemory>
    ensures { IfOk result (λ e. e ≡ node.Cond test yes no) }
{
    let (test, yes, no) = (test.into_boxed(), yes.into_boxed(), no.into_boxed());
    Node::new(alloc, RawExpr::Cond { test, yes, no })
}

#[inline(never)]
fn concat_node(alloc: Global, all: Nodes<RawExpr>) -> Result<Node<RawExpr>, NoMemory>
    ensures { IfOk result (λ e. e ≡ node.Concat all) }
{
    Node::new(alloc, RawExpr::Concat(all.into_list()))
}

#[inline(never)]
fn cast_node(alloc: Global, width: Text, of: Node<RawExpr>) -> Result<Node<RawExpr>, NoMemory>
    ensures { IfOk result (λ e. e ≡ node.Cast width of) }
{
    let of = of.into_boxed();
    Node::new(alloc, RawExpr::Cast { width, of })
}

#[inline(never)]
fn sign_node(alloc: Global, signed: bool, of: Node<RawExpr>) -> Result<Node<RawExpr>, NoMemory>
    ensures { IfOk result (λ e. e ≡ node.Sign signed of) }
{
    let of = of.into_boxed();
    Node::new(alloc, RawExpr::Sign { signed, of })
}

/// An expression, which opens a level, of which so many are left.
pub fn open_expr(alloc: Global, levels: u32, ts: &[u8]) -> Result<(RawExpr, &[u8]), Halt>
    ensures { Gives (λ x. (x.0, x.1.now)) result ((reader.inner levels).expr ts.now) }
{
    let (of, rest) = open_node(alloc, levels, ts)?;
    Ok((of.into_inner(), rest))
}

/// An expression on the heap, which opens a level.
#[cycle(reading)]
pub fn open_node(alloc: Global, levels: u32, ts: &[u8]) -> Result<(Node<RawExpr>, &[u8]), Halt>
    ensures { Gives (λ x. (x.0, x.1.now)) result ((reader.inner levels).expr ts.now) }
{
    if levels > 0 {
        return expr(alloc, levels - 1, ts);
    }
    if begins_expr(ts) {
        return Err(Halt::TooDeep(ts.len()));
    }
    Err(Halt::Unexpected(ts.len()))
}

// An expression and the bracket that closes it.
#[tactic(auto, unfolding(scc_svread_grammar::specs::Reader::closed_expr))]
#[cycle(reading)]
fn closed_expr(alloc: Global, levels: u32, ts: &[u8]) -> Result<(Node<RawExpr>, &[u8]), Halt>
    ensures { Gives (λ x. (x.0, x.1.now)) result (reader.closed_expr (reader.inner levels) ts.now) }
{
    let (of, rest) = open_node(alloc, levels, ts)?;
    let (_, rest) = text(b")", rest)?;
    Ok((of, rest))
}

// The literal of a width, from behind the `'`.
#[inline(never)]
fn hex_behind(alloc: Global, width: Text, ts: &[u8]) -> Result<(Node<RawExpr>, &[u8]), Halt>
    ensures { Gives (λ x. (x.0, x.1.now)) result (followed_by (leaves.text (codes "h")) (λ _. followed_by (leaves.digits_behind width) (λ l. pure (node.Literal l))) ts.now) }
{
    let (_, rest) = text(b"h", ts)?;
    let (l, rest) = digits_behind(alloc, width, rest)?;
    Ok((literal_node(alloc, l)?, rest))
}

// A literal or a cast, from behind its width.
#[tactic(auto, unfolding(scc_svread_grammar::specs::Reader::behind_width))]
#[cycle(reading)]
fn behind_width(
    alloc: Global,
    levels: u32,
    width: Text,
    ts: &[u8],
) -> Result<(Node<RawExpr>, &[u8]), Halt>
    ensures { Gives (λ x. (x.0, x.1.now)) result (reader.behind_width (reader.inner levels) width ts.now) }
{
    let (_, rest) = text(b"'", ts)?;
    if bytes::is_next(104, rest) {
        return hex_behind(alloc, width, rest);
    }
    let (_, rest) = text(b"(", rest)?;
    let (of, rest) = closed_expr(alloc, levels, rest)?;
    Ok((cast_node(alloc, width, of)?, rest))
}

#[inline(never)]
#[tactic(auto, unfolding(scc_svread_grammar::specs::Reader::sized))]
#[cycle(reading)]
fn sized(alloc: Global, levels: u32, ts: &[u8]) -> Result<(Node<RawExpr>, &[u8]), Halt>
    ensures { Gives (λ x. (x.0, x.1.now)) result (reader.sized (reader.inner levels) ts.now) }
{
    let (width, rest) = decimal(alloc, ts)?;
    behind_width(alloc, levels, width, rest)
}

#[inline(never)]
#[tactic(auto, unfolding(scc_svread_grammar::specs::Reader::sign))]
#[cycle(reading)]
fn sign(alloc: Global, levels: u32, ts: &[u8]) -> Result<(Node<RawExpr>, &[u8]), Halt>
    ensures { Gives (λ x. (x.0, x.1.now)) result (reader.sign (reader.inner levels) ts.now) }
{
    let (_, rest) = text(b"$", ts)?;
    if bytes::is_next(115, rest) {
        let (_, rest) = text(b"signed(", rest)?;
        let (of, rest) = closed_expr(alloc, levels, rest)?;
        return Ok((sign_node(alloc, true, of)?, rest));
    }
    let (_, rest) = text(b"unsigned(", rest)?;
    let (of, rest) = closed_expr(alloc, levels, rest)?;
    Ok((sign_node(alloc, false, of)?, rest))
}

// The end of a concatenation.
#[inline(never)]
fn concat_last(
    alloc: Global,
    all: Nodes<RawExpr>,
    ts: &[u8],
) -> Result<(Node<RawExpr>, &[u8]), Halt>
    ensures { Gives (λ x. (x.0, x.1.now)) result (followed_by (leaves.text (codes "}")) (λ _. pure (node.Concat all)) ts.now) }
{
    let (_, rest) = text(b"}", ts)?;
    Ok((concat_node(alloc, all)?, rest))
}

// A further part of a concatenation.
#[cycle(reading)]
fn further(alloc: Global, levels: u32, ts: &[u8]) -> Result<(Node<RawExpr>, &[u8]), Halt>
    ensures { Gives (λ x. (x.0, x.1.now)) result (reader.further (reader.inner levels) ts.now) }
{
    let (_, rest) = text(b", ", ts)?;
    open_node(alloc, levels, rest)
}

// Further parts of a concatenation, behind those before them.
#[cycle(reading)]
fn parts(
    alloc: Global,
    levels: u32,
    front: Nodes<RawExpr>,
    ts: &[u8],
) -> Result<(Nodes<RawExpr>, &[u8]), Halt>
    ensures { Gives (λ x. (x.0, x.1.now)) result (reader.onto front (reader.parts (reader.inner levels)) ts.now) }
{
    let mut found = front;
    let mut rest = ts;
    while bytes::is_next(44, rest) {
        let (next, after) = further(alloc, levels, rest)?;
        found.push(next)?;
        rest = after;
    }
    Ok((found, rest))
}

// The second part and the others.
#[tactic(auto, unfolding(scc_svread_grammar::specs::Reader::parts_behind))]
#[cycle(reading)]
fn parts_behind(
    alloc: Global,
    levels: u32,
    front: Nodes<RawExpr>,
    ts: &[u8],
) -> Result<(Nodes<RawExpr>, &[u8]), Halt>
    ensures { Gives (λ x. (x.0, x.1.now)) result (reader.parts_behind (reader.inner levels) front ts.now) }
{
    let mut list = front;
    let (second, rest) = further(alloc, levels, ts)?;
    list.push(second)?;
    parts(alloc, levels, list, rest)
}

#[inline(never)]
#[tactic(auto, unfolding(scc_svread_grammar::specs::Reader::concat))]
#[cycle(reading)]
fn concat(alloc: Global, levels: u32, ts: &[u8]) -> Result<(Node<RawExpr>, &[u8]), Halt>
    ensures { Gives (λ x. (x.0, x.1.now)) result (reader.concat (reader.inner levels) ts.now) }
{
    let (_, rest) = text(b"{", ts)?;
    let (first, rest) = open_node(alloc, levels, rest)?;
    let (all, rest) = parts_behind(alloc, levels, Nodes::alone(alloc, first)?, rest)?;
    concat_last(alloc, all, rest)
}

// The last part of a `?:`.
#[tactic(auto, unfolding(scc_svread_grammar::specs::Reader::cond_last))]
#[cycle(reading)]
fn cond_last(
    alloc: Global,
    levels: u32,
    test: Node<RawExpr>,
    yes: Node<RawExpr>,
    ts: &[u8],
) -> Result<(Node<RawExpr>, &[u8]), Halt>
    ensures { Gives (λ x. (x.0, x.1.now)) result (reader.cond_last (reader.inner levels) test yes ts.now) }
{
    let (_, rest) = text(b" : ", ts)?;
    let (no, rest) = closed_expr(alloc, levels, rest)?;
    Ok((cond_node(alloc, test, yes, no)?, rest))
}

#[inline(never)]
#[tactic(auto, unfolding(scc_svread_grammar::specs::Reader::cond_behind))]
#[cycle(reading)]
fn cond_behind(
    alloc: Global,
    levels: u32,
    test: Node<RawExpr>,
    ts: &[u8],
) -> Result<(Node<RawExpr>, &[u8]), Halt>
    ensures { Gives (λ x. (x.0, x.1.now)) result (reader.cond_behind (reader.inner levels) test ts.now) }
{
    let (_, rest) = text(b"? ", ts)?;
    let (yes, rest) = open_node(alloc, levels, rest)?;
    cond_last(alloc, levels, test, yes, rest)
}

// The right operand and the bracket behind it.
#[tactic(auto, unfolding(scc_svread_grammar::specs::Reader::right_of))]
#[cycle(reading)]
fn right_of(
    alloc: Global,
    levels: u32,
    op: SvBinary,
    ts: &[u8],
) -> Result<(Node<RawExpr>, &[u8]), Halt>
    ensures { Gives (λ x. (x.0, x.1.now)) result (reader.right_of (reader.inner levels) op ts.now) }
{
    if is_division(op) {
        return closed_divisor(alloc, levels, ts);
    }
    closed_expr(alloc, levels, ts)
}

#[inline(never)]
#[tactic(auto, unfolding(scc_svread_grammar::specs::Reader::binary_behind))]
#[cycle(reading)]
fn binary_behind(
    alloc: Global,
    levels: u32,
    left: Node<RawExpr>,
    ts: &[u8],
) -> Result<(Node<RawExpr>, &[u8]), Halt>
    ensures { Gives (λ x. (x.0, x.1.now)) result (reader.binary_behind (reader.inner levels) left ts.now) }
{
    let (op, rest) = operator(ts)?;
    let (_, rest) = text(b" ", rest)?;
    let (right, rest) = right_of(alloc, levels, op, rest)?;
    Ok((binary_node(alloc, op, left, right)?, rest))
}

#[tactic(auto, unfolding(scc_svread_grammar::specs::Reader::behind_first))]
#[cycle(reading)]
fn behind_first(
    alloc: Global,
    levels: u32,
    left: Node<RawExpr>,
    ts: &[u8],
) -> Result<(Node<RawExpr>, &[u8]), Halt>
    ensures { Gives (λ x. (x.0, x.1.now)) result (reader.behind_first (reader.inner levels) left ts.now) }
{
    if bytes::is_next(63, ts) {
        return cond_behind(alloc, levels, left, ts);
    }
    binary_behind(alloc, levels, left, ts)
}

#[tactic(auto, unfolding(scc_svread_grammar::specs::Reader::operated))]
#[cycle(reading)]
fn operated(alloc: Global, levels: u32, ts: &[u8]) -> Result<(Node<RawExpr>, &[u8]), Halt>
    ensures { Gives (λ x. (x.0, x.1.now)) result (reader.operated (reader.inner levels) ts.now) }
{
    let (left, rest) = open_node(alloc, levels, ts)?;
    let (_, rest) = text(b" ", rest)?;
    behind_first(alloc, levels, left, rest)
}

#[tactic(auto, unfolding(scc_svread_grammar::specs::Reader::unary_at))]
#[cycle(reading)]
fn unary_at(alloc: Global, levels: u32, ts: &[u8]) -> Result<(Node<RawExpr>, &[u8]), Halt>
    ensures { Gives (λ x. (x.0, x.1.now)) result (reader.unary_at (reader.inner levels) ts.now) }
{
    let (op, rest) = unary(ts)?;
    let (of, rest) = closed_expr(alloc, levels, rest)?;
    Ok((unary_node(alloc, op, of)?, rest))
}

#[inline(never)]
#[tactic(auto, unfolding(scc_svread_grammar::specs::Reader::bracketed))]
#[cycle(reading)]
fn bracketed(alloc: Global, levels: u32, ts: &[u8]) -> Result<(Node<RawExpr>, &[u8]), Halt>
    ensures { Gives (λ x. (x.0, x.1.now)) result (reader.bracketed (reader.inner levels) ts.now) }
{
    let (_, rest) = text(b"(", ts)?;
    if begins_unary(rest) {
        return unary_at(alloc, levels, rest);
    }
    operated(alloc, levels, rest)
}

#[inline(never)]
#[tactic(auto, unfolding(scc_svread_grammar::specs::Reader::left_expr))]
fn left_expr(alloc: Global, ts: &[u8]) -> Result<(Node<RawExpr>, &[u8]), Halt>
    ensures { Gives (λ x. (x.0, x.1.now)) result (reader.left_expr ts.now) }
{
    let (l, rest) = left(alloc, ts)?;
    Ok((left_node(alloc, l)?, rest))
}

#[tactic(auto, unfolding(scc_svread_grammar::specs::Reader::expr))]
#[cycle(reading)]
fn expr(alloc: Global, levels: u32, ts: &[u8]) -> Result<(Node<RawExpr>, &[u8]), Halt>
    ensures { Gives (λ x. (x.0, x.1.now)) result (reader.expr (reader.inner levels) ts.now) }
{
    if begins_digit(ts) {
        return sized(alloc, levels, ts);
    }
    if bytes::is_next(40, ts) {
        return bracketed(alloc, levels, ts);
    }
    if bytes::is_next(123, ts) {
        return concat(alloc, levels, ts);
    }
    if bytes::is_next(36, ts) {
        return sign(alloc, levels, ts);
    }
    left_expr(alloc, ts)
}
