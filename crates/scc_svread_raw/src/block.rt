//! Reads blocks.
ghost use Rattle.std.specs.Prelude.{◌≡◌, ◌≤◌};
ghost use Rattle.scc_svread_grammar.specs.Answer.{Gives};
ghost use Rattle.scc_svread_grammar.specs.Reader as reader;

use crate::stmt::{blanks, stmts};
use scc_base::{List, Text};
use scc_svread_expressions::bytes;
use scc_svread_expressions::bytes::text;
use scc_svread_expressions::expr::open_expr;
use scc_svread_expressions::lexical::{literal, name};
use scc_svread_grammar::{Halt, RawBlock, RawLoad, RawReset, RawSet};
use std::alloc::Global;

// The end of a line of an edge, from behind its target.
#[tactic(auto, unfolding(scc_svread_grammar::specs::Reader::set_behind))]
fn set_behind(
    alloc: Global,
    levels: u32,
    outer: u32,
    target: Text,
    ts: &[u8],
) -> Result<(RawSet, &[u8]), Halt>
    ensures { Gives (λ x. (x.0, x.1.now)) result (reader.set_behind (reader.inner levels) outer target ts.now) }
{
    let (_, rest) = text(b" <= ", ts)?;
    let (value, rest) = open_expr(alloc, levels, rest)?;
    let (_, rest) = text(b";\n", rest)?;
    let (_, rest) = blanks(outer, rest)?;
    Ok((RawSet { target, value }, rest))
}

fn set_line(alloc: Global, levels: u32, outer: u32, ts: &[u8]) -> Result<(RawSet, &[u8]), Halt>
    ensures { Gives (λ x. (x.0, x.1.now)) result (reader.set_line (reader.inner levels) outer ts.now) }
{
    let (_, rest) = text(b"  ", ts)?;
    let (target, rest) = name(alloc, rest)?;
    set_behind(alloc, levels, outer, target, rest)
}

#[tactic(auto, unfolding(scc_svread_grammar::specs::Reader::sets))]
fn sets(alloc: Global, levels: u32, outer: u32, ts: &[u8]) -> Result<(List<RawSet>, &[u8]), Halt>
    ensures { Gives (λ x. (x.0, x.1.now)) result (reader.sets (reader.inner levels) outer ts.now) }
{
    let mut found = List::new(alloc);
    let mut rest = ts;
    while bytes::is_next(32, rest) {
        let (next, after) = set_line(alloc, levels, outer, rest)?;
        found.push(next)?;
        rest = after;
    }
    Ok((found, rest))
}

// The end of a line of a reset, from behind its target.
#[tactic(auto, unfolding(scc_svread_grammar::specs::Reader::load_behind))]
fn load_behind(alloc: Global, target: Text, ts: &[u8]) -> Result<(RawLoad, &[u8]), Halt>
    ensures { Gives (λ x. (x.0, x.1.now)) result (reader.load_behind target ts.now) }
{
    let (_, rest) = text(b" <= ", ts)?;
    let (value, rest) = literal(alloc, rest)?;
    let (_, rest) = text(b";\n", rest)?;
    let (_, rest) = blanks(4, rest)?;
    Ok((RawLoad { target, value }, rest))
}

fn load_line(alloc: Global, ts: &[u8]) -> Result<(RawLoad, &[u8]), Halt>
    ensures { Gives (λ x. (x.0, x.1.now)) result (reader.load_line ts.now) }
{
    let (_, rest) = text(b"  ", ts)?;
    let (target, rest) = name(alloc, rest)?;
    load_behind(alloc, target, rest)
}

#[tactic(auto, unfolding(scc_svread_grammar::specs::Reader::loads))]
fn loads(alloc: Global, ts: &[u8]) -> Result<(List<RawLoad>, &[u8]), Halt>
    ensures { Gives (λ x. (x.0, x.1.now)) result (reader.loads ts.now) }
{
    let mut found = List::new(alloc);
    let mut rest = ts;
    while bytes::is_next(32, rest) {
        let (next, after) = load_line(alloc, rest)?;
        found.push(next)?;
        rest = after;
    }
    Ok((found, rest))
}

#[tactic(auto, unfolding(scc_svread_grammar::specs::Reader::edge_at))]
fn edge_at(ts: &[u8]) -> Result<(bool, &[u8]), Halt>
    ensures { Gives (λ x. (x.0, x.1.now)) result (reader.edge_at ts.now) }
{
    if bytes::is_next(112, ts) {
        let (_, rest) = text(b"posedge ", ts)?;
        return Ok((true, rest));
    }
    let (_, rest) = text(b"negedge ", ts)?;
    Ok((false, rest))
}

// The condition under which a reset stands, and whether it is negated.
#[tactic(auto, unfolding(scc_svread_grammar::specs::Reader::level))]
fn level(alloc: Global, ts: &[u8]) -> Result<((bool, Text), &[u8]), Halt>
    ensures { Gives (λ x. (x.0, x.1.now)) result (reader.level ts.now) }
{
    if bytes::is_next(40, ts) {
        let (_, rest) = text(b"(!", ts)?;
        let (w, rest) = name(alloc, rest)?;
        let (_, rest) = text(b")", rest)?;
        return Ok(((true, w), rest));
    }
    let (w, rest) = name(alloc, ts)?;
    Ok(((false, w), rest))
}

#[tactic(auto, unfolding(scc_svread_grammar::specs::Reader::reset_values))]
fn reset_values(
    alloc: Global,
    rising: bool,
    signal: Text,
    condition: (bool, Text),
    ts: &[u8],
) -> Result<(RawReset, &[u8]), Halt>
    ensures { Gives (λ x. (x.0, x.1.now)) result (reader.reset_values rising signal condition ts.now) }
{
    let (_, rest) = text(b") begin\n    ", ts)?;
    let (values, rest) = loads(alloc, rest)?;
    let (negated, level) = condition;
    Ok((
        RawReset {
            rising,
            signal,
            negated,
            level,
            values,
        },
        rest,
    ))
}

#[tactic(auto, unfolding(scc_svread_grammar::specs::Reader::reset_level))]
fn reset_level(
    alloc: Global,
    rising: bool,
    signal: Text,
    ts: &[u8],
) -> Result<(RawReset, &[u8]), Halt>
    ensures { Gives (λ x. (x.0, x.1.now)) result (reader.reset_level rising signal ts.now) }
{
    let (_, rest) = text(b") begin\n    if (", ts)?;
    let (condition, rest) = level(alloc, rest)?;
    reset_values(alloc, rising, signal, condition, rest)
}

// An asynchronous reset and its branch, from behind the clock.
#[tactic(auto, unfolding(scc_svread_grammar::specs::Reader::reset_at))]
fn reset_at(alloc: Global, ts: &[u8]) -> Result<(RawReset, &[u8]), Halt>
    ensures { Gives (λ x. (x.0, x.1.now)) result (reader.reset_at ts.now) }
{
    let (_, rest) = text(b" or ", ts)?;
    let (rising, rest) = edge_at(rest)?;
    let (signal, rest) = name(alloc, rest)?;
    reset_level(alloc, rising, signal, rest)
}

#[tactic(auto, unfolding(scc_svread_grammar::specs::Reader::edge_behind))]
fn edge_behind(
    alloc: Global,
    levels: u32,
    rising: bool,
    clock: Text,
    ts: &[u8],
) -> Result<(RawBlock, &[u8]), Halt>
    ensures { Gives (λ x. (x.0, x.1.now)) result (reader.edge_behind (reader.inner levels) rising clock ts.now) }
{
    let (_, rest) = text(b") begin\n  ", ts)?;
    let (sets, rest) = sets(alloc, levels, 2, rest)?;
    let (_, rest) = text(b"end\n", rest)?;
    let reset = None;
    Ok((
        RawBlock::Edge {
            rising,
            clock,
            reset,
            sets,
        },
        rest,
    ))
}

// The other branch beside a reset's.
#[tactic(auto, unfolding(scc_svread_grammar::specs::Reader::set_branch))]
fn set_branch(alloc: Global, levels: u32, ts: &[u8]) -> Result<(List<RawSet>, &[u8]), Halt>
    ensures { Gives (λ x. (x.0, x.1.now)) result (reader.set_branch (reader.inner levels) ts.now) }
{
    let (_, rest) = text(b"end else begin\n    ", ts)?;
    let (found, rest) = sets(alloc, levels, 4, rest)?;
    let (_, rest) = text(b"end\n  end\n", rest)?;
    Ok((found, rest))
}

#[tactic(auto, unfolding(scc_svread_grammar::specs::Reader::reset_behind))]
fn reset_behind(
    alloc: Global,
    levels: u32,
    rising: bool,
    clock: Text,
    ts: &[u8],
) -> Result<(RawBlock, &[u8]), Halt>
    ensures { Gives (λ x. (x.0, x.1.now)) result (reader.reset_behind (reader.inner levels) rising clock ts.now) }
{
    let (found, rest) = reset_at(alloc, ts)?;
    let (sets, rest) = set_branch(alloc, levels, rest)?;
    let reset = Some(found);
    Ok((
        RawBlock::Edge {
            rising,
            clock,
            reset,
            sets,
        },
        rest,
    ))
}

#[tactic(auto, unfolding(scc_svread_grammar::specs::Reader::edge_block))]
fn edge_block(alloc: Global, levels: u32, ts: &[u8]) -> Result<(RawBlock, &[u8]), Halt>
    ensures { Gives (λ x. (x.0, x.1.now)) result (reader.edge_block (reader.inner levels) ts.now) }
{
    let (_, rest) = text(b"ff @(", ts)?;
    let (rising, rest) = edge_at(rest)?;
    let (clock, rest) = name(alloc, rest)?;
    if bytes::is_next(41, rest) {
        return edge_behind(alloc, levels, rising, clock, rest);
    }
    reset_behind(alloc, levels, rising, clock, rest)
}

#[tactic(auto, unfolding(scc_svread_grammar::specs::Reader::comb))]
fn comb(alloc: Global, levels: u32, ts: &[u8]) -> Result<(RawBlock, &[u8]), Halt>
    requires { levels ≤ 8192 }
    ensures { Gives (λ x. (x.0, x.1.now)) result (reader.comb (reader.inner levels) ts.now) }
{
    let (_, rest) = text(b"comb begin\n  ", ts)?;
    let (body, rest) = stmts(alloc, levels, 2, rest)?;
    let (_, rest) = text(b"end\n", rest)?;
    Ok((RawBlock::Comb(body), rest))
}

/// A block from behind its blanks.
#[tactic(auto, unfolding(scc_svread_grammar::specs::Reader::block))]
pub fn block(alloc: Global, levels: u32, ts: &[u8]) -> Result<(RawBlock, &[u8]), Halt>
    requires { levels ≤ 8192 }
    ensures { Gives (λ x. (x.0, x.1.now)) result (reader.block (reader.inner levels) ts.now) }
{
    let (_, rest) = text(b"always_", ts)?;
    if bytes::is_next(99, rest) {
        return comb(alloc, levels, rest);
    }
    edge_block(alloc, levels, rest)
}
