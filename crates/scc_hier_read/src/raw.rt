//! Modules with instances as they are written.
use scc_base::{List, Text, lost};
use scc_svread_grammar::{Halt, RawItem, RawModule, RawVar};
use scc_svread_raw::parts::{block, declaration, is_next, name, ports, text, word_bytes};
use std::alloc::Global;

/// How deep statements and expressions stand in one another at most.
const LEVELS: u32 = 8192;

/// A name, and how many bytes of the text stand before it.
#[derive(Drop)]
pub struct RawName {
    pub at: usize,
    pub text: Text,
}

/// A port of an instance by its name, and the variable that it is connected to.
#[derive(Drop)]
pub struct RawWire {
    pub port: Text,
    pub var: RawName,
}

/// An instance: the names of its module and its own.
#[derive(Drop)]
pub struct RawInstance {
    pub module: RawName,
    pub name: RawName,
    pub wires: List<RawWire>,
}

/// A module with instances.
#[derive(Drop)]
pub struct RawHier {
    /// How many bytes of the text stand before the module.
    pub at: usize,
    /// The module without instances.
    pub module: RawModule,
    pub instances: List<RawInstance>,
    /// How many bytes of the module stand before the lines of instances.
    pub before: usize,
    /// How many bytes these lines have.
    pub bytes: usize,
}

// How many bytes of a text of this length stand before what is left of it.
fn place(whole: usize, ts: &[u8]) -> usize {
    whole.saturating_sub(ts.len())
}

fn name_at(alloc: Global, whole: usize, ts: &[u8]) -> Result<(RawName, &[u8]), Halt> {
    let at = place(whole, ts);
    let (text, rest) = name(alloc, ts)?;
    Ok((RawName { at, text }, rest))
}

fn wire(alloc: Global, whole: usize, ts: &[u8]) -> Result<(RawWire, &[u8]), Halt> {
    let (_, rest) = text(b".", ts)?;
    let (port, rest) = name(alloc, rest)?;
    let (_, rest) = text(b"(", rest)?;
    let (var, rest) = name_at(alloc, whole, rest)?;
    let (_, rest) = text(b")", rest)?;
    Ok((RawWire { port, var }, rest))
}

// The wires of an instance, none where no `.` comes next.
fn wires(alloc: Global, whole: usize, ts: &[u8]) -> Result<(List<RawWire>, &[u8]), Halt> {
    let mut found = List::new(alloc);
    if !is_next(46, ts) {
        return Ok((found, ts));
    }
    let (first, mut rest) = wire(alloc, whole, ts)?;
    found.push(first)?;
    for _ in 0..usize::MAX {
        if !is_next(44, rest) {
            return Ok((found, rest));
        }
        let (_, behind) = text(b", ", rest)?;
        let (next, after) = wire(alloc, whole, behind)?;
        found.push(next)?;
        rest = after;
    }
    Err(Halt::from(lost()))
}

// An instance from after its blanks.
fn instance(alloc: Global, whole: usize, ts: &[u8]) -> Result<(RawInstance, &[u8]), Halt> {
    let (module, rest) = name_at(alloc, whole, ts)?;
    let (_, rest) = text(b" ", rest)?;
    let (name, rest) = name_at(alloc, whole, rest)?;
    let (_, rest) = text(b" (", rest)?;
    let (wires, rest) = wires(alloc, whole, rest)?;
    let (_, rest) = text(b");\n", rest)?;
    Ok((
        RawInstance {
            module,
            name,
            wires,
        },
        rest,
    ))
}

// Whether these bytes, which stand after two blanks, begin with this word and no longer one.
fn begins(word: &[u8], ts: &[u8]) -> bool {
    let (found, _) = word_bytes(ts);
    found == word
}

fn begins_declaration(ts: &[u8]) -> bool {
    if !begins(b"logic", ts) {
        return false;
    }
    let (_, rest) = word_bytes(ts);
    is_next(32, rest)
}

fn begins_block(ts: &[u8]) -> bool {
    begins(b"always_comb", ts) || begins(b"always_ff", ts)
}

// What stands after two blanks.
fn behind_blanks(ts: &[u8]) -> Option<&[u8]> {
    match ts {
        [b' ', b' ', rest @ ..] => Some(rest),
        _ => None,
    }
}

fn goes_on_with_declaration(ts: &[u8]) -> bool {
    match behind_blanks(ts) {
        Some(rest) => begins_declaration(rest),
        None => false,
    }
}

fn goes_on_with_block(ts: &[u8]) -> bool {
    match behind_blanks(ts) {
        Some(rest) => begins_block(rest),
        None => false,
    }
}

// Declarations go into the items.
fn declarations<'a>(
    alloc: Global,
    items: &mut List<RawItem>,
    ts: &'a [u8],
) -> Result<((), &'a [u8]), Halt> {
    let mut rest = ts;
    for _ in 0..usize::MAX {
        if !goes_on_with_declaration(rest) {
            return Ok(((), rest));
        }
        let (_, behind) = text(b"  ", rest)?;
        let ((item, _), after) = declaration(alloc, behind)?;
        items.push(item)?;
        rest = after;
    }
    Err(Halt::from(lost()))
}

// Lines up to the first block, or to the last line, each of which is an instance.
fn instances(alloc: Global, whole: usize, ts: &[u8]) -> Result<(List<RawInstance>, &[u8]), Halt> {
    let mut found = List::new(alloc);
    let mut rest = ts;
    for _ in 0..usize::MAX {
        if !is_next(32, rest) || goes_on_with_block(rest) {
            return Ok((found, rest));
        }
        let (_, behind) = text(b"  ", rest)?;
        let (next, after) = instance(alloc, whole, behind)?;
        found.push(next)?;
        rest = after;
    }
    Err(Halt::from(lost()))
}

// Blocks go into the items.
fn blocks<'a>(
    alloc: Global,
    items: &mut List<RawItem>,
    ts: &'a [u8],
) -> Result<((), &'a [u8]), Halt> {
    let mut rest = ts;
    for _ in 0..usize::MAX {
        if !is_next(32, rest) {
            return Ok(((), rest));
        }
        let (_, behind) = text(b"  ", rest)?;
        let (b, after) = block(alloc, LEVELS, behind)?;
        items.push(RawItem::Block(b))?;
        rest = after;
    }
    Err(Halt::from(lost()))
}

// A module from after its ports.
fn items_behind(
    alloc: Global,
    whole: usize,
    at: usize,
    name: Text,
    ports: List<RawVar>,
    ts: &[u8],
) -> Result<(RawHier, &[u8]), Halt> {
    let mut items = List::new(alloc);
    let (_, rest) = text(b");\n", ts)?;
    let (_, rest) = declarations(alloc, &mut items, rest)?;
    let start = place(whole, rest);
    let (instances, rest) = instances(alloc, whole, rest)?;
    let end = place(whole, rest);
    let (_, rest) = blocks(alloc, &mut items, rest)?;
    let (_, rest) = text(b"endmodule\n", rest)?;
    let module = RawModule { name, ports, items };
    Ok((
        RawHier {
            at,
            module,
            instances,
            before: start.saturating_sub(at),
            bytes: end.saturating_sub(start),
        },
        rest,
    ))
}

fn module(alloc: Global, whole: usize, ts: &[u8]) -> Result<(RawHier, &[u8]), Halt> {
    let at = place(whole, ts);
    let (_, rest) = text(b"module ", ts)?;
    let (name, rest) = name(alloc, rest)?;
    let (_, rest) = text(b" (\n", rest)?;
    let (ports, rest) = ports(alloc, rest)?;
    items_behind(alloc, whole, at, name, ports, rest)
}

/// The modules of a text, at least one, as they are written. It stops at the first byte at which no text of modules begins with the
/// bytes so far, or at the end; and at the first statement or expression at level 8,193.
pub fn modules(alloc: Global, bytes: &[u8]) -> Result<List<RawHier>, Halt> {
    let whole = bytes.len();
    let (first, mut rest) = module(alloc, whole, bytes)?;
    let mut found = List::new(alloc);
    found.push(first)?;
    for _ in 0..usize::MAX {
        if rest.is_empty() {
            return Ok(found);
        }
        let (next, after) = module(alloc, whole, rest)?;
        found.push(next)?;
        rest = after;
    }
    Err(Halt::from(lost()))
}

/// How many bytes of the text stand before a module's name.
pub fn name_place(m: &RawHier) -> usize {
    m.at.saturating_add(7)
}

impl RawHier {
    /// The place in the text of a byte of the module without instances.
    pub fn place_of(&self, at: usize) -> usize {
        let more = if at < self.before { 0 } else { self.bytes };
        self.at.saturating_add(at).saturating_add(more)
    }
}
