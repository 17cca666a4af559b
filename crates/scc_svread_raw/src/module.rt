//! Reads modules as they are written.
ghost use Rattle.std.specs.Prelude.{◌≡◌, ◌∷◌, [], ◌≤◌, ◌&&◌, not, IfOk, IfErr};
ghost use Rattle.scc_reading.specs.Reading.{is_next};
ghost use Rattle.scc_svread_grammar.specs.Answer.{Gives};
ghost use Rattle.scc_svread_grammar.specs.Claim.{FaultAt, IsAnswer, IsRead};
ghost use Rattle.scc_svread_grammar.specs.Grammar.{Reads};
ghost use Rattle.scc_svread_grammar.specs.Reader as reader;
ghost use Rattle.scc_svread_grammar.specs.declared.raw.RawModule.{RawModule};

use crate::block::block;
use scc_base::{List, NoMemory, Text};
use scc_svread_expressions::bytes;
use scc_svread_expressions::bytes::text;
use scc_svread_expressions::lexical::{name, range};
use scc_svread_grammar::{Halt, RawItem, RawModule, RawVar};
use scc_svtree::Dir;
use std::alloc::Global;

const LEVELS: u32 = 8192;

#[tactic(auto, unfolding(scc_svread_grammar::specs::Reader::var))]
fn var(alloc: Global, dir: Dir, ts: &[u8]) -> Result<(RawVar, &[u8]), Halt>
    ensures { Gives (λ x. (x.0, x.1.now)) result (reader.var dir ts.now) }
{
    let (high, rest) = range(alloc, ts)?;
    let (name, rest) = name(alloc, rest)?;
    Ok((RawVar { name, dir, high }, rest))
}

#[tactic(auto, unfolding(scc_svread_grammar::specs::Reader::input_at))]
fn input_at(alloc: Global, ts: &[u8]) -> Result<(RawVar, &[u8]), Halt>
    ensures { Gives (λ x. (x.0, x.1.now)) result (reader.input_at ts.now) }
{
    let (_, rest) = text(b"input logic ", ts)?;
    var(alloc, Dir::Input, rest)
}

#[tactic(auto, unfolding(scc_svread_grammar::specs::Reader::output_at))]
fn output_at(alloc: Global, ts: &[u8]) -> Result<(RawVar, &[u8]), Halt>
    ensures { Gives (λ x. (x.0, x.1.now)) result (reader.output_at ts.now) }
{
    let (_, rest) = text(b"output logic ", ts)?;
    var(alloc, Dir::Output, rest)
}

#[tactic(auto, unfolding(scc_svread_grammar::specs::Reader::port))]
fn port(alloc: Global, ts: &[u8]) -> Result<(RawVar, &[u8]), Halt>
    ensures { Gives (λ x. (x.0, x.1.now)) result (reader.port ts.now) }
{
    let (_, rest) = text(b"  ", ts)?;
    if bytes::is_next(105, rest) {
        return input_at(alloc, rest);
    }
    output_at(alloc, rest)
}

fn further_port(alloc: Global, ts: &[u8]) -> Result<(RawVar, &[u8]), Halt>
    ensures { Gives (λ x. (x.0, x.1.now)) result (reader.further_port ts.now) }
{
    let (_, rest) = text(b",\n", ts)?;
    port(alloc, rest)
}

// Further ports, behind those before them.
fn more_ports(alloc: Global, front: List<RawVar>, ts: &[u8]) -> Result<(List<RawVar>, &[u8]), Halt>
    ensures { Gives (λ x. (x.0, x.1.now)) result (reader.onto front reader.more_ports ts.now) }
{
    let mut found = front;
    let mut rest = ts;
    while bytes::is_next(44, rest) {
        let (next, after) = further_port(alloc, rest)?;
        found.push(next)?;
        rest = after;
    }
    Ok((found, rest))
}

// A list of one port.
fn alone(alloc: Global, first: RawVar) -> Result<List<RawVar>, NoMemory>
    ensures { IfOk result (λ l. l ≡ first ∷ []) }
{
    let mut list = List::new(alloc);
    list.push(first)?;
    Ok(list)
}

// The ports behind a first one, and their end.
#[tactic(auto, unfolding(scc_svread_grammar::specs::Reader::ports_after))]
fn ports_after(alloc: Global, first: RawVar, ts: &[u8]) -> Result<(List<RawVar>, &[u8]), Halt>
    ensures { Gives (λ x. (x.0, x.1.now)) result (reader.ports_after first ts.now) }
{
    let (all, rest) = more_ports(alloc, alone(alloc, first)?, ts)?;
    let (_, rest) = text(b"\n", rest)?;
    Ok((all, rest))
}

/// The ports of a module, each on a line of its own; none where no blank comes next.
#[tactic(auto, unfolding(scc_svread_grammar::specs::Reader::ports))]
pub fn ports(alloc: Global, ts: &[u8]) -> Result<(List<RawVar>, &[u8]), Halt>
    ensures { Gives (λ x. (x.0, x.1.now)) result (reader.ports ts.now) }
{
    if !bytes::is_next(32, ts) {
        return Ok((List::new(alloc), ts));
    }
    let (first, rest) = port(alloc, ts)?;
    ports_after(alloc, first, rest)
}

/// A declaration from behind its blanks; no block has begun behind it.
#[tactic(auto, unfolding(scc_svread_grammar::specs::Reader::declaration))]
pub fn declaration(alloc: Global, ts: &[u8]) -> Result<((RawItem, bool), &[u8]), Halt>
    ensures { Gives (λ x. (x.0, x.1.now)) result (reader.declaration ts.now) }
{
    let (_, rest) = text(b"logic ", ts)?;
    let (v, rest) = var(alloc, Dir::Inner, rest)?;
    let (_, rest) = text(b";\n", rest)?;
    Ok(((RawItem::Var(v), false), rest))
}

#[tactic(auto, unfolding(scc_svread_grammar::specs::Reader::item))]
fn item(
    alloc: Global,
    levels: u32,
    begun: bool,
    ts: &[u8],
) -> Result<((RawItem, bool), &[u8]), Halt>
    requires { levels ≤ 8192 }
    ensures { Gives (λ x. (x.0, x.1.now)) result (reader.item (reader.inner levels) begun ts.now) }
{
    let (_, rest) = text(b"  ", ts)?;
    if begins_declaration(begun, rest) {
        return declaration(alloc, rest);
    }
    let (b, rest) = block(alloc, levels, rest)?;
    Ok(((RawItem::Block(b), true), rest))
}

fn begins_declaration(begun: bool, ts: &[u8]) -> bool
    ensures { result ≡ is_next (λ b. not begun && reader.is_l b) ts.now }
{
    !begun && bytes::is_next(108, ts)
}

#[tactic(auto, unfolding(scc_svread_grammar::specs::Reader::items))]
fn items(alloc: Global, levels: u32, ts: &[u8]) -> Result<((List<RawItem>, bool), &[u8]), Halt>
    requires { levels ≤ 8192 }
    ensures { Gives (λ x. (x.0, x.1.now)) result (reader.items (reader.inner levels) ts.now) }
{
    let mut found = List::new(alloc);
    let mut begun = false;
    let mut rest = ts;
    while bytes::is_next(32, rest) {
        let ((next, now), after) = item(alloc, levels, begun, rest)?;
        found.push(next)?;
        begun = now;
        rest = after;
    }
    Ok(((found, begun), rest))
}

#[tactic(auto, unfolding(scc_svread_grammar::specs::Reader::items_behind))]
fn items_behind(
    alloc: Global,
    levels: u32,
    name: Text,
    ports: List<RawVar>,
    ts: &[u8],
) -> Result<(RawModule, &[u8]), Halt>
    requires { levels ≤ 8192 }
    ensures { Gives (λ x. (x.0, x.1.now)) result (reader.items_behind (reader.inner levels) name ports ts.now) }
{
    let (_, rest) = text(b");\n", ts)?;
    let ((items, _), rest) = items(alloc, levels, rest)?;
    let (_, rest) = text(b"endmodule\n", rest)?;
    Ok((RawModule { name, ports, items }, rest))
}

#[tactic(auto, unfolding(scc_svread_grammar::specs::Reader::ports_behind))]
fn ports_behind(
    alloc: Global,
    levels: u32,
    name: Text,
    ts: &[u8],
) -> Result<(RawModule, &[u8]), Halt>
    requires { levels ≤ 8192 }
    ensures { Gives (λ x. (x.0, x.1.now)) result (reader.ports_behind (reader.inner levels) name ts.now) }
{
    let (_, rest) = text(b" (\n", ts)?;
    let (ports, rest) = ports(alloc, rest)?;
    items_behind(alloc, levels, name, ports, rest)
}

#[tactic(auto, unfolding(scc_svread_grammar::specs::Reader::module_at))]
fn module_at(alloc: Global, levels: u32, ts: &[u8]) -> Result<(RawModule, &[u8]), Halt>
    requires { levels ≤ 8192 }
    ensures { Gives (λ x. (x.0, x.1.now)) result (reader.module_at (reader.inner levels) ts.now) }
{
    let (_, rest) = text(b"module ", ts)?;
    let (w, rest) = name(alloc, rest)?;
    ports_behind(alloc, levels, w, rest)
}

#[tactic(auto, unfolding(scc_svread_grammar::specs::Reader::reading))]
fn reading(alloc: Global, ts: &[u8]) -> Result<RawModule, Halt>
    ensures { Gives (λ m. (m, [])) result (reader.reading 8192 ts.now) }
{
    let (m, rest) = module_at(alloc, LEVELS, ts)?;
    if rest.is_empty() {
        return Ok(m);
    }
    Err(Halt::Unexpected(rest.len()))
}

/// Reads a module as it is written (IEEE 1800-2017, for the forms that the printer writes). Sizes, names and drivers may
/// be wrong in it.
///
/// It stops at the first byte at which no module's text begins with the bytes so far, or at the end; and at the first
/// statement or expression at level 8,193.
pub fn read_raw(alloc: Global, bytes: &[u8]) -> Result<RawModule, Halt>
    ensures read { IfOk result (λ m. IsRead 8192 bytes.now m) }
    ensures only { (m : RawModule) (d : Reads bytes.now m) → IsAnswer 8192 d result }
    ensures fault { IfErr result (λ e. FaultAt 8192 bytes.now e) }
{
    reading(alloc, bytes)
}
