//! The first name of a module that stands where it may not.
ghost use Rattle.std.specs.Prelude.{◌≡◌, ◌+◌, [], None, not, ◌&&◌, length, IfOk, OnOk};
ghost use Rattle.scc_svread_check.specs.Drivers as drivers;
ghost use Rattle.scc_svread_check.specs.Walking.{start};

use crate::block::{dir_bytes, range};
use crate::edge::{clock, edge};
use crate::facts::{Facts, Taken, is_input};
use crate::leaf::{pass_both, spelling};
use crate::mentioned::block_assigns;
use crate::text_set::TextSet;
use crate::walk::{START, Walk};
use crate::within::{mention, own_level};
use scc_base::{List, NoMemory};
use scc_svread_grammar::{RawBlock, RawItem, RawModule, RawStmt, RawVar};
use std::alloc::Global;

// Whether nothing drives a variable.
fn is_undriven(f: &Facts, v: &RawVar) -> bool
    ensures { result ≡ drivers.is_undriven f.now v.now }
{
    !is_input(v.dir) && !f.driven.has(v.name.bytes())
}

// A range and a name.
fn var(f: &Facts, v: &RawVar, w: Walk) -> Walk
    ensures { result ≡ drivers.var_names f.now v.now w }
{
    mention(is_undriven(f, v), &v.name, range(&v.high, w))
}

// Ports behind a first one.
fn further(f: &Facts, list: &[RawVar], w: Walk) -> Walk
    ensures { result ≡ drivers.further_names f.now list.now w }
{
    let mut walk = w;
    for v in list {
        walk = var(f, v, pass_both(walk, 2, dir_bytes(v.dir)));
    }
    walk
}

fn ports(f: &Facts, list: &[RawVar], w: Walk) -> Walk
    ensures { result ≡ drivers.ports_names f.now list.now w }
{
    match list {
        [] => w.pass(0),
        [v, more @ ..] => further(f, more, var(f, v, w.pass(dir_bytes(v.dir)))).pass(1),
    }
}

// A combinational block, which assigns these names.
fn comb(
    alloc: Global,
    f: &Facts,
    t: &Taken,
    list: &List<RawStmt>,
    assigned: &TextSet,
    w: Walk,
) -> Result<Walk, NoMemory>
    ensures { IfOk result (λ v. v ≡ drivers.comb_names f.now t.now list.now assigned.now w) }
{
    let mut whole = TextSet::new(alloc);
    let end = own_level(
        &f.inputs,
        &t.names,
        assigned,
        &mut whole,
        list.as_slice(),
        4,
        w.pass(20),
    )?;
    Ok(end.pass(6))
}

fn block(
    alloc: Global,
    many: bool,
    f: &Facts,
    t: &Taken,
    b: &RawBlock,
    w: Walk,
) -> Result<Walk, NoMemory>
    ensures { IfOk result (λ v. v ≡ drivers.block_names many f.now t.now b.now w) }
{
    match b {
        RawBlock::Comb(list) => {
            let mut assigned = TextSet::new(alloc);
            block_assigns(&mut assigned, b)?;
            comb(alloc, f, t, list, &assigned, w)
        }
        RawBlock::Edge {
            rising,
            clock: name,
            reset,
            sets,
        } => edge(
            alloc,
            many,
            f,
            t,
            name,
            reset,
            sets.as_slice(),
            clock(many, f, t, *rising, name, w.pass(22)),
        ),
    }
}

// The clock of a block at this edge.
fn clock_at(found: &mut TextSet, up: bool, b: &RawBlock) -> Result<(), NoMemory>
    ensures { OnOk result (found.new ≡ drivers.clock_at up b.now found.old) }
{
    match b {
        RawBlock::Comb(_) => Ok(()),
        RawBlock::Edge { rising, clock, .. } => found.add_if(up == *rising, clock.bytes()),
    }
}

fn add_block(t: &mut Taken, b: &RawBlock) -> Result<(), NoMemory>
    ensures { OnOk result (t.new ≡ drivers.taken_after t.old b.now) }
{
    block_assigns(&mut t.names, b)?;
    clock_at(&mut t.rising, true, b)?;
    clock_at(&mut t.falling, false, b)
}

// A declaration or a block, which is taken note of.
fn item(
    alloc: Global,
    many: bool,
    f: &Facts,
    t: &mut Taken,
    i: &RawItem,
    w: Walk,
) -> Result<Walk, NoMemory>
    ensures walk { IfOk result (λ v. v ≡ drivers.item_walk many f.now t.old i.now w) }
    ensures taken { OnOk result (t.new ≡ drivers.taken_behind t.old i.now) }
{
    match i {
        RawItem::Var(v) => Ok(var(f, v, w.pass(8)).pass(2)),
        RawItem::Block(b) => {
            let end = block(alloc, many, f, t, b, w)?;
            add_block(t, b)?;
            Ok(end)
        }
    }
}

fn items(
    alloc: Global,
    many: bool,
    f: &Facts,
    t: &mut Taken,
    list: &[RawItem],
    w: Walk,
) -> Result<Walk, NoMemory>
    ensures { IfOk result (λ v. v ≡ drivers.items_walk many f.now t.old list.now w) }
{
    let mut walk = w;
    for i in list {
        walk = item(alloc, many, f, t, i, walk)?;
    }
    Ok(walk)
}

// All items. What the blocks before one assign is let go here, where nothing can stop any more.
fn all_items(
    alloc: Global,
    many: bool,
    f: &Facts,
    list: &[RawItem],
    w: Walk,
) -> Result<Walk, NoMemory>
    ensures { IfOk result (λ v. v ≡ drivers.items_walk many f.now drivers.nothing list.now w) }
{
    let mut t = Taken::none(alloc);
    items(alloc, many, f, &mut t, list, w)
}

// The place of the first wrong name. Before, nothing is known of the names.
fn place_in(
    alloc: Global,
    many: bool,
    f: &mut Facts,
    m: &RawModule,
) -> Result<Option<usize>, NoMemory>
    ensures { IfOk result (λ at. at ≡ (drivers.names_in many (drivers.facts_after m.now f.old) m.now start).name) }
{
    f.add(m)?;
    let begin = spelling(&m.name, START.pass(7)).pass(3);
    let behind = ports(f, m.ports.as_slice(), begin).pass(3);
    let end = all_items(alloc, many, f, m.items.as_slice(), behind)?;
    Ok(end.name)
}

/// The place of the first name that stands where it may not, in a module that may have several clocks or one.
pub fn misplaced(alloc: Global, many: bool, m: &RawModule) -> Result<Option<usize>, NoMemory>
    ensures { IfOk result (λ at. at ≡ drivers.misplaced many m.now) }
{
    let mut f = Facts::none(alloc);
    place_in(alloc, many, &mut f, m)
}
