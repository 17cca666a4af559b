//! Names of blocks at edges that stand where they may not.
ghost use Rattle.std.specs.Prelude.{◌≡◌, ◌+◌, ◌||◌, ◌&&◌, [], not, length, map, option_map, IfOk, OnOk};
ghost use Rattle.scc_svtext.specs.Pieces.{spelled};
ghost use Rattle.scc_svread_check.specs.Drivers as drivers;
ghost use Rattle.scc_svread_check.specs.Walking as walking;
ghost use Rattle.scc_svread_check.specs.Within as within;

use crate::facts::{Facts, Taken};
use crate::leaf::{digits, spelling};
use crate::text_set::TextSet;
use crate::walk::Walk;
use crate::within::{Within, expr, mention};
use scc_base::{NoMemory, Text};
use scc_svread_grammar::{RawLoad, RawReset, RawSet};
use std::alloc::Global;

// Whether a target is an input, or is assigned elsewhere or before.
fn is_wrong_target(f: &Facts, taken: &TextSet, before: &TextSet, name: &[u8]) -> bool
    ensures { result ≡ drivers.is_wrong_target f.now taken.now before.now name.now }
{
    f.inputs.has(name) || taken.has(name) || before.has(name)
}

// An expression in which a name may be read anywhere; no names are given to look among.
fn set(empty: &TextSet, wrong: bool, s: &RawSet, n: usize, w: Walk) -> Walk
    requires { empty.now ≡ [] }
    ensures { result ≡ drivers.set_names wrong s.now n w }
{
    let c = Within {
        inputs: empty,
        taken: empty,
        assigned: empty,
        whole: empty,
    };
    let target = mention(wrong, &s.target, w.pass(n));
    expr(&c, &s.value, target.pass(4)).pass(2)
}

// What an edge sets, behind so many blanks.
fn sets(
    alloc: Global,
    f: &Facts,
    taken: &TextSet,
    list: &[RawSet],
    n: usize,
    w: Walk,
) -> Result<Walk, NoMemory>
    ensures { IfOk result (λ v. v ≡ drivers.sets_names f.now taken.now [] list.now n w) }
{
    let empty = TextSet::new(alloc);
    let mut before = TextSet::new(alloc);
    let mut walk = w;
    for s in list {
        let wrong = is_wrong_target(f, taken, &before, s.target.bytes());
        walk = set(&empty, wrong, s, n, walk);
        before.add(s.target.bytes())?;
    }
    Ok(walk)
}

// What an edge sets behind the first set of this name.
fn behind<'a>(name: &[u8], list: &'a [RawSet]) -> Option<&'a [RawSet]>
    ensures { option_map (λ l. l.now) result ≡ drivers.behind name.now list.now }
{
    for i in 0..list.len() {
        if list[i].target.bytes() == name {
            return Some(&list[i + 1..]);
        }
    }
    None
}

fn load(wrong: bool, l: &RawLoad, n: usize, w: Walk) -> Walk
    ensures { result ≡ drivers.load_names wrong l.now n w }
{
    digits(&l.value, 2, mention(wrong, &l.target, w.pass(n)).pass(4))
}

// What a reset loads, behind so many blanks; it is part of what the edge sets, in the same order.
fn loads(
    alloc: Global,
    f: &Facts,
    taken: &TextSet,
    sets: &[RawSet],
    list: &[RawLoad],
    n: usize,
    w: Walk,
) -> Result<Walk, NoMemory>
    ensures { IfOk result (λ v. v ≡ drivers.loads_names f.now taken.now [] sets.now list.now n w) }
{
    let mut before = TextSet::new(alloc);
    let mut rest = sets;
    let mut walk = w;
    for l in list {
        let name = l.target.bytes();
        let found = behind(name, rest);
        let wrong = is_wrong_target(f, taken, &before, name) || found.is_none();
        walk = load(wrong, l, n, walk);
        before.add(name)?;
        rest = found.unwrap_or(&[]);
    }
    Ok(walk)
}

// Whether no block before is at an edge.
fn is_first(t: &Taken) -> bool
    ensures { result ≡ drivers.is_first t.now }
{
    t.rising.is_empty() && t.falling.is_empty()
}

// Whether a block at this edge of this clock does not go with the blocks before.
fn is_other_clock(many: bool, t: &Taken, rising: bool, name: &[u8]) -> bool
    ensures { result ≡ drivers.is_other_clock many t.now rising name.now }
{
    let (same, other) = if rising {
        (&t.rising, &t.falling)
    } else {
        (&t.falling, &t.rising)
    };
    if many {
        other.has(name)
    } else {
        !is_first(t) && !same.has(name)
    }
}

// Whether a name cannot be that of a clock.
fn is_wrong_clock(many: bool, f: &Facts, t: &Taken, rising: bool, name: &[u8]) -> bool
    ensures { result ≡ drivers.is_wrong_clock many f.now t.now rising name.now }
{
    !f.levels.has(name) || f.read.has(name) || is_other_clock(many, t, rising, name)
}

// Whether a name cannot be that of a reset.
fn is_wrong_signal(many: bool, f: &Facts, own: &[u8], name: &[u8]) -> bool
    ensures { result ≡ drivers.is_wrong_signal many f.now own.now name.now }
{
    !f.levels.has(name) || own == name || (many && f.clocks.has(name))
}

// Whether a reset is asked for at another level than its edge leads to.
fn is_wrong_level(r: &RawReset) -> bool
    ensures { result ≡ drivers.is_wrong_level r.now }
{
    r.signal.bytes() != r.level.bytes() || r.rising == r.negated
}

fn level(negated: bool, name: &Text, w: Walk) -> Walk
    ensures { result ≡ walking.pass (drivers.level_bytes negated name.now) w }
{
    spelling(name, w).pass(if negated { 11 } else { 8 })
}

fn reset(
    alloc: Global,
    many: bool,
    f: &Facts,
    t: &Taken,
    own: &Text,
    r: &RawReset,
    sets: &[RawSet],
    w: Walk,
) -> Result<Walk, NoMemory>
    ensures { IfOk result (λ v. v ≡ drivers.reset_names many f.now t.now own.now r.now sets.now w) }
{
    let wrong = is_wrong_signal(many, f, own.bytes(), r.signal.bytes());
    let signal = mention(wrong, &r.signal, w.pass(12)).pass(16);
    let start = level(r.negated, &r.level, signal.name_if(is_wrong_level(r)));
    Ok(loads(alloc, f, &t.names, sets, r.values.as_slice(), 6, start)?.pass(19))
}

/// A block at an edge, from behind its clock's name.
pub fn edge(
    alloc: Global,
    many: bool,
    f: &Facts,
    t: &Taken,
    own: &Text,
    with: &Option<RawReset>,
    list: &[RawSet],
    w: Walk,
) -> Result<Walk, NoMemory>
    ensures { IfOk result (λ v. v ≡ drivers.edge_names many f.now t.now own.now with.now list.now w) }
{
    match with {
        None => Ok(sets(alloc, f, &t.names, list, 4, w.pass(8))?.pass(6)),
        Some(r) => {
            let start = reset(alloc, many, f, t, own, r, list, w)?;
            Ok(sets(alloc, f, &t.names, list, 6, start)?.pass(14))
        }
    }
}

/// A clock's name.
pub fn clock(many: bool, f: &Facts, t: &Taken, rising: bool, name: &Text, w: Walk) -> Walk
    ensures { result ≡ within.mention (drivers.is_wrong_clock many f.now t.now rising name.now) name.now w }
{
    mention(is_wrong_clock(many, f, t, rising, name.bytes()), name, w)
}
