//! Reads statements. What an arm does beside its recursion stands in functions of their own, which are `#[inline(never)]` for the
//! sake of small frames, as the arms are themselves.
ghost use Rattle.std.specs.Prelude.{◌≡◌, ◌+◌, ◌*◌, ◌<◌, ◌^◌, IfOk, codes};
ghost use Rattle.scc_reading.specs.Reading.{◌>>=◌ as followed_by, pure};
ghost use Rattle.scc_svread_grammar.specs.Answer.{Gives};
ghost use Rattle.scc_svread_grammar.specs.Grammar as grammar;
ghost use Rattle.scc_svread_grammar.specs.Leaves as leaves;
ghost use Rattle.scc_svread_grammar.specs.Reader as reader;
ghost use Rattle.scc_svread_grammar.specs.declared.raw.RawStmt.TheVariants as node;
ghost use Rattle.scc_svtext.specs.Pieces as pieces;

use scc_base::{List, NoMemory, Text};
use scc_svread_expressions::bytes;
use scc_svread_expressions::bytes::{begins_name, text};
use scc_svread_expressions::expr::open_node;
use scc_svread_expressions::held::{Node, Nodes};
use scc_svread_expressions::lexical::{left, left_behind, literal, named, plain_word};
use scc_svread_grammar::{Halt, RawArm, RawExpr, RawLeft, RawLiteral, RawStmt};
use std::alloc::Global;

/// So many blanks.
#[inline(never)]
pub fn blanks(n: u32, ts: &[u8]) -> Result<((), &[u8]), Halt>
    ensures { Gives (λ x. (x.0, x.1.now)) result (leaves.text (pieces.blanks n) ts.now) }
{
    let mut left = n;
    let mut rest = ts;
    while left > 0 {
        let (_, after) = text(b" ", rest)?;
        rest = after;
        left -= 1;
    }
    Ok(((), rest))
}

#[inline(never)]
fn assign_node(
    alloc: Global,
    left: RawLeft,
    value: Node<RawExpr>,
) -> Result<Node<RawStmt>, NoMemory>
    ensures { IfOk result (λ s. s ≡ node.Assign left value) }
{
    let value = value.into_inner();
    Node::new(alloc, RawStmt::Assign { left, value })
}

#[inline(never)]
fn if_node(
    alloc: Global,
    test: Node<RawExpr>,
    yes: Nodes<RawStmt>,
    no: Nodes<RawStmt>,
) -> Result<Node<RawStmt>, NoMemory>
    ensures { IfOk result (λ s. s ≡ node.If test yes no) }
{
    let test = test.into_inner();
    let (yes, no) = (yes.into_list(), no.into_list());
    Node::new(alloc, RawStmt::If { test, yes, no })
}

#[inline(never)]
fn case_node(
    alloc: Global,
    of: Node<RawExpr>,
    arms: Nodes<RawArm>,
) -> Result<Node<RawStmt>, NoMemory>
    ensures { IfOk result (λ s. s ≡ node.Case of arms) }
{
    let of = of.into_inner();
    let arms = arms.into_list();
    Node::new(alloc, RawStmt::Case { of, arms })
}

#[inline(never)]
fn arm_node(
    alloc: Global,
    label: RawLiteral,
    body: Nodes<RawStmt>,
) -> Result<Node<RawArm>, NoMemory>
    ensures { IfOk result (λ a. a ≡ grammar.arm label body) }
{
    let body = body.into_list();
    Node::new(alloc, RawArm { label, body })
}

// The end of an assignment, from behind its value.
#[inline(never)]
fn value_last(
    alloc: Global,
    left: RawLeft,
    value: Node<RawExpr>,
    ts: &[u8],
) -> Result<(Node<RawStmt>, &[u8]), Halt>
    ensures { Gives (λ x. (x.0, x.1.now)) result (followed_by (leaves.text (codes ";\n")) (λ _. pure (node.Assign left value)) ts.now) }
{
    let (_, rest) = text(b";\n", ts)?;
    Ok((assign_node(alloc, left, value)?, rest))
}

// The end of an assignment.
#[inline(never)]
#[tactic(auto, unfolding(scc_svread_grammar::specs::Reader::value_behind))]
fn value_behind(
    alloc: Global,
    levels: u32,
    left: RawLeft,
    ts: &[u8],
) -> Result<(Node<RawStmt>, &[u8]), Halt>
    ensures { Gives (λ x. (x.0, x.1.now)) result (reader.value_behind (reader.inner levels) left ts.now) }
{
    let (_, rest) = text(b" = ", ts)?;
    let (value, rest) = open_node(alloc, levels, rest)?;
    value_last(alloc, left, value, rest)
}

// An assignment from behind its first word.
#[inline(never)]
#[tactic(auto, unfolding(scc_svread_grammar::specs::Reader::assign_behind))]
fn assign_behind(
    alloc: Global,
    levels: u32,
    word: Text,
    ts: &[u8],
) -> Result<(Node<RawStmt>, &[u8]), Halt>
    ensures { Gives (λ x. (x.0, x.1.now)) result (reader.assign_behind (reader.inner levels) word ts.now) }
{
    let (w, rest) = named(word, ts)?;
    let (l, rest) = left_behind(alloc, w, rest)?;
    value_behind(alloc, levels, l, rest)
}

// An assignment to an escaped name.
#[inline(never)]
fn escaped_assign(alloc: Global, levels: u32, ts: &[u8]) -> Result<(Node<RawStmt>, &[u8]), Halt>
    ensures { Gives (λ x. (x.0, x.1.now)) result (followed_by leaves.left (reader.value_behind (reader.inner levels)) ts.now) }
{
    let (l, rest) = left(alloc, ts)?;
    value_behind(alloc, levels, l, rest)
}

// The test of an `if` or what a `case` selects, from behind the word.
#[inline(never)]
#[tactic(auto, unfolding(scc_svread_grammar::specs::Reader::test_at))]
fn test_at(alloc: Global, levels: u32, ts: &[u8]) -> Result<(Node<RawExpr>, &[u8]), Halt>
    ensures { Gives (λ x. (x.0, x.1.now)) result (reader.test_at (reader.inner levels) ts.now) }
{
    let (_, rest) = text(b" (", ts)?;
    open_node(alloc, levels, rest)
}

/// A statement behind so many blanks, which opens a level.
#[cycle(reading_stmt)]
fn open_stmt(
    alloc: Global,
    levels: u32,
    indent: u32,
    ts: &[u8],
) -> Result<(Node<RawStmt>, &[u8]), Halt>
    requires room { indent + 4 * levels < 2 ^ 20 }
    ensures { Gives (λ x. (x.0, x.1.now)) result ((reader.inner levels).stmt indent ts.now) }
{
    if levels > 0 {
        return stmt(alloc, levels - 1, indent, ts);
    }
    if begins_name(ts) {
        return Err(Halt::TooDeep(ts.len()));
    }
    Err(Halt::Unexpected(ts.len()))
}

// A statement and the blanks before the next line.
#[tactic(auto, unfolding(scc_svread_grammar::specs::Reader::line))]
#[cycle(reading_stmt)]
fn line(alloc: Global, levels: u32, outer: u32, ts: &[u8]) -> Result<(Node<RawStmt>, &[u8]), Halt>
    requires room { outer + 2 + 4 * levels < 2 ^ 20 }
    ensures { Gives (λ x. (x.0, x.1.now)) result (reader.line (reader.inner levels) outer ts.now) }
{
    let (_, rest) = text(b"  ", ts)?;
    let (s, rest) = open_stmt(alloc, levels, outer + 2, rest)?;
    let (_, rest) = blanks(outer, rest)?;
    Ok((s, rest))
}

// Statements, behind those before them.
#[cycle(reading_stmt)]
fn more_stmts(
    alloc: Global,
    levels: u32,
    outer: u32,
    front: Nodes<RawStmt>,
    ts: &[u8],
) -> Result<(Nodes<RawStmt>, &[u8]), Halt>
    requires room { outer + 2 + 4 * levels < 2 ^ 20 }
    ensures { Gives (λ x. (x.0, x.1.now)) result (reader.onto front (reader.stmts (reader.inner levels) outer) ts.now) }
{
    let mut found = front;
    let mut rest = ts;
    while bytes::is_next(32, rest) {
        let (next, after) = line(alloc, levels, outer, rest)?;
        found.push(next)?;
        rest = after;
    }
    Ok((found, rest))
}

/// Statements.
pub fn stmts(
    alloc: Global,
    levels: u32,
    outer: u32,
    ts: &[u8],
) -> Result<(List<RawStmt>, &[u8]), Halt>
    requires room { outer + 2 + 4 * levels < 2 ^ 20 }
    ensures { Gives (λ x. (x.0, x.1.now)) result (reader.stmts (reader.inner levels) outer ts.now) }
{
    let (all, rest) = body(alloc, levels, outer, ts)?;
    Ok((all.into_list(), rest))
}

// The same, as they are held.
#[tactic(auto, using(scc_svread_expressions::proofs::Turns::nothing_onto))]
#[cycle(reading_stmt)]
fn body(alloc: Global, levels: u32, outer: u32, ts: &[u8]) -> Result<(Nodes<RawStmt>, &[u8]), Halt>
    requires room { outer + 2 + 4 * levels < 2 ^ 20 }
    ensures { Gives (λ x. (x.0, x.1.now)) result (reader.stmts (reader.inner levels) outer ts.now) }
{
    more_stmts(alloc, levels, outer, Nodes::new(alloc), ts)
}

// The statements behind a first one, and their end.
#[tactic(auto, unfolding(scc_svread_grammar::specs::Reader::stmts_behind))]
#[cycle(reading_stmt)]
fn stmts_behind(
    alloc: Global,
    levels: u32,
    outer: u32,
    first: Node<RawStmt>,
    ts: &[u8],
) -> Result<(Nodes<RawStmt>, &[u8]), Halt>
    requires room { outer + 2 + 4 * levels < 2 ^ 20 }
    ensures { Gives (λ x. (x.0, x.1.now)) result (reader.stmts_behind (reader.inner levels) outer first ts.now) }
{
    let (all, rest) = more_stmts(alloc, levels, outer, Nodes::alone(alloc, first)?, ts)?;
    let (_, rest) = text(b"end\n", rest)?;
    Ok((all, rest))
}

// The other branch of an `if`, from behind the `end` of the first.
#[tactic(auto, unfolding(scc_svread_grammar::specs::Reader::other))]
#[cycle(reading_stmt)]
fn other(alloc: Global, levels: u32, outer: u32, ts: &[u8]) -> Result<(Nodes<RawStmt>, &[u8]), Halt>
    requires room { outer + 2 + 4 * levels < 2 ^ 20 }
    ensures { Gives (λ x. (x.0, x.1.now)) result (reader.other (reader.inner levels) outer ts.now) }
{
    let (_, rest) = text(b" else begin\n", ts)?;
    let (_, rest) = blanks(outer, rest)?;
    let (first, rest) = line(alloc, levels, outer, rest)?;
    stmts_behind(alloc, levels, outer, first, rest)
}

// What follows the `end` of a first branch.
#[tactic(auto, unfolding(scc_svread_grammar::specs::Reader::behind_end))]
#[cycle(reading_stmt)]
fn behind_end(
    alloc: Global,
    levels: u32,
    outer: u32,
    ts: &[u8],
) -> Result<(Nodes<RawStmt>, &[u8]), Halt>
    requires room { outer + 2 + 4 * levels < 2 ^ 20 }
    ensures { Gives (λ x. (x.0, x.1.now)) result (reader.behind_end (reader.inner levels) outer ts.now) }
{
    if bytes::is_next(10, ts) {
        let (_, rest) = text(b"\n", ts)?;
        return Ok((Nodes::new(alloc), rest));
    }
    other(alloc, levels, outer, ts)
}

// The branches of an `if`.
#[inline(never)]
#[tactic(auto, unfolding(scc_svread_grammar::specs::Reader::branches))]
#[cycle(reading_stmt)]
fn branches(
    alloc: Global,
    levels: u32,
    outer: u32,
    test: Node<RawExpr>,
    ts: &[u8],
) -> Result<(Node<RawStmt>, &[u8]), Halt>
    requires room { outer + 2 + 4 * levels < 2 ^ 20 }
    ensures { Gives (λ x. (x.0, x.1.now)) result (reader.branches (reader.inner levels) outer test ts.now) }
{
    let (_, rest) = text(b") begin\n", ts)?;
    let (_, rest) = blanks(outer, rest)?;
    let (yes, rest) = body(alloc, levels, outer, rest)?;
    let (_, rest) = text(b"end", rest)?;
    let (no, rest) = behind_end(alloc, levels, outer, rest)?;
    Ok((if_node(alloc, test, yes, no)?, rest))
}

// The end of an arm.
#[inline(never)]
fn arm_last(outer: u32, body: Nodes<RawStmt>, ts: &[u8]) -> Result<(Nodes<RawStmt>, &[u8]), Halt>
    ensures { Gives (λ x. (x.0, x.1.now)) result (followed_by (leaves.text (codes "end\n")) (λ _. followed_by (leaves.text (pieces.blanks outer)) (λ _. pure body)) ts.now) }
{
    let (_, rest) = text(b"end\n", ts)?;
    let (_, rest) = blanks(outer, rest)?;
    Ok((body, rest))
}

// The body of an arm, from behind its label.
#[tactic(auto, unfolding(scc_svread_grammar::specs::Reader::arm_body))]
#[cycle(reading_stmt)]
fn arm_body(
    alloc: Global,
    levels: u32,
    outer: u32,
    ts: &[u8],
) -> Result<(Nodes<RawStmt>, &[u8]), Halt>
    requires room { outer + 4 + 4 * levels < 2 ^ 20 }
    ensures { Gives (λ x. (x.0, x.1.now)) result (reader.arm_body (reader.inner levels) outer ts.now) }
{
    let (_, rest) = text(b": begin\n", ts)?;
    let (_, rest) = blanks(outer + 2, rest)?;
    let (body, rest) = body(alloc, levels, outer + 2, rest)?;
    arm_last(outer, body, rest)
}

#[cycle(reading_stmt)]
fn arm_line(
    alloc: Global,
    levels: u32,
    outer: u32,
    ts: &[u8],
) -> Result<(Node<RawArm>, &[u8]), Halt>
    requires room { outer + 4 + 4 * levels < 2 ^ 20 }
    ensures { Gives (λ x. (x.0, x.1.now)) result (reader.arm_line (reader.inner levels) outer ts.now) }
{
    let (_, rest) = text(b"  ", ts)?;
    let (label, rest) = literal(alloc, rest)?;
    let (body, rest) = arm_body(alloc, levels, outer, rest)?;
    Ok((arm_node(alloc, label, body)?, rest))
}

#[tactic(auto, unfolding(scc_svread_grammar::specs::Reader::arms))]
#[cycle(reading_stmt)]
fn arms(alloc: Global, levels: u32, outer: u32, ts: &[u8]) -> Result<(Nodes<RawArm>, &[u8]), Halt>
    requires room { outer + 4 + 4 * levels < 2 ^ 20 }
    ensures { Gives (λ x. (x.0, x.1.now)) result (reader.arms (reader.inner levels) outer ts.now) }
{
    let mut found = Nodes::new(alloc);
    let mut rest = ts;
    while bytes::is_next(32, rest) {
        let (next, after) = arm_line(alloc, levels, outer, rest)?;
        found.push(next)?;
        rest = after;
    }
    Ok((found, rest))
}

// The end of a `case`.
#[inline(never)]
fn case_last(
    alloc: Global,
    of: Node<RawExpr>,
    arms: Nodes<RawArm>,
    ts: &[u8],
) -> Result<(Node<RawStmt>, &[u8]), Halt>
    ensures { Gives (λ x. (x.0, x.1.now)) result (followed_by (leaves.text (codes "endcase\n")) (λ _. pure (node.Case of arms)) ts.now) }
{
    let (_, rest) = text(b"endcase\n", ts)?;
    Ok((case_node(alloc, of, arms)?, rest))
}

#[inline(never)]
#[tactic(auto, unfolding(scc_svread_grammar::specs::Reader::case_behind))]
#[cycle(reading_stmt)]
fn case_behind(
    alloc: Global,
    levels: u32,
    outer: u32,
    of: Node<RawExpr>,
    ts: &[u8],
) -> Result<(Node<RawStmt>, &[u8]), Halt>
    requires room { outer + 4 + 4 * levels < 2 ^ 20 }
    ensures { Gives (λ x. (x.0, x.1.now)) result (reader.case_behind (reader.inner levels) outer of ts.now) }
{
    let (_, rest) = text(b")\n", ts)?;
    let (_, rest) = blanks(outer, rest)?;
    let (arms, rest) = arms(alloc, levels, outer, rest)?;
    case_last(alloc, of, arms, rest)
}

// A statement from behind its first word.
#[tactic(auto, unfolding(scc_svread_grammar::specs::Reader::behind_word))]
#[cycle(reading_stmt)]
fn behind_word(
    alloc: Global,
    levels: u32,
    indent: u32,
    word: Text,
    ts: &[u8],
) -> Result<(Node<RawStmt>, &[u8]), Halt>
    requires room { indent + 4 + 4 * levels < 2 ^ 20 }
    ensures { Gives (λ x. (x.0, x.1.now)) result (reader.behind_word (reader.inner levels) indent word ts.now) }
{
    if word.bytes() == b"if".as_slice() {
        let (test, rest) = test_at(alloc, levels, ts)?;
        return branches(alloc, levels, indent, test, rest);
    }
    if word.bytes() == b"case".as_slice() {
        let (of, rest) = test_at(alloc, levels, ts)?;
        return case_behind(alloc, levels, indent, of, rest);
    }
    assign_behind(alloc, levels, word, ts)
}

#[tactic(auto, unfolding(scc_svread_grammar::specs::Reader::stmt))]
#[cycle(reading_stmt)]
fn stmt(alloc: Global, levels: u32, indent: u32, ts: &[u8]) -> Result<(Node<RawStmt>, &[u8]), Halt>
    requires room { indent + 4 + 4 * levels < 2 ^ 20 }
    ensures { Gives (λ x. (x.0, x.1.now)) result (reader.stmt (reader.inner levels) indent ts.now) }
{
    if bytes::is_next(92, ts) {
        return escaped_assign(alloc, levels, ts);
    }
    let (w, rest) = plain_word(alloc, ts)?;
    behind_word(alloc, levels, indent, w, rest)
}
