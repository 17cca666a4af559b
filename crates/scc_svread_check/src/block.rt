//! Blocks and declarations.
ghost use Rattle.std.specs.Prelude.{◌≡◌, ◌+◌, ◌||◌, length, map, not, IfOk};
ghost use Rattle.scc_svread_check.specs.Blocks as blocks;
ghost use Rattle.scc_svread_check.specs.Lines as lines;
ghost use Rattle.scc_svread_check.specs.Parts as parts;
ghost use Rattle.scc_svread_check.specs.Walking as walking;

use crate::expr::part;
use crate::labels::is_other_length;
use crate::leaf::{cut, digits, name, pass_both, spelling};
use crate::number::{high_of, is_width, is_wrong_literal};
use crate::scope::Scope;
use crate::stmt::stmts;
use crate::walk::Walk;
use scc_base::{List, NoMemory, Text};
use scc_svread_grammar::{RawBlock, RawLoad, RawReset, RawSet, RawStmt, RawVar};
use scc_svtree::Dir;
use std::alloc::Global;

fn set(scope: &Scope, s: &RawSet, n: usize, w: Walk) -> Walk
    ensures { result ≡ blocks.set_line scope.now s.now n w }
{
    let target = name(scope, &s.target, w.pass(n));
    part(scope, &s.value, target.pass(4)).walk.pass(2)
}

// What an edge sets, behind so many blanks.
fn sets(scope: &Scope, list: &[RawSet], n: usize, w: Walk) -> Walk
    ensures { result ≡ lines.lines (map (blocks.set_line scope.now) list.now) n w }
{
    let mut walk = w;
    for s in list {
        walk = set(scope, s, n, walk);
    }
    walk
}

// The width of a variable that is declared exactly once.
fn width_once(high: Option<u128>) -> Option<u32>
    ensures { result ≡ parts.with_one (λ high. parts.cut (high + 1)) high }
{
    match high {
        Some(high) => Some(cut(high.saturating_add(1))),
        None => None,
    }
}

fn is_wrong_load(scope: &Scope, l: &RawLoad) -> bool
    ensures { result ≡ blocks.is_wrong_load scope.now l.now }
{
    let width = width_once(scope.high(l.target.bytes()));
    is_wrong_literal(&l.value) || is_other_length(width, &l.value)
}

fn load(scope: &Scope, l: &RawLoad, n: usize, w: Walk) -> Walk
    ensures { result ≡ blocks.load_line scope.now l.now n w }
{
    let target = name(scope, &l.target, w.pass(n)).pass(4);
    digits(&l.value, 2, target.size_if(is_wrong_load(scope, l)))
}

// What a reset loads, behind so many blanks.
fn loads(scope: &Scope, list: &[RawLoad], n: usize, w: Walk) -> Walk
    ensures { result ≡ lines.lines (map (blocks.load_line scope.now) list.now) n w }
{
    let mut walk = w;
    for l in list {
        walk = load(scope, l, n, walk);
    }
    walk
}

// The condition under which a reset stands.
fn level(scope: &Scope, negated: bool, level: &Text, w: Walk) -> Walk
    ensures { result ≡ blocks.level_walk scope.now negated level.now w }
{
    if negated {
        name(scope, level, w.pass(2)).pass(9)
    } else {
        name(scope, level, w).pass(8)
    }
}

fn reset(scope: &Scope, r: &RawReset, w: Walk) -> Walk
    ensures { result ≡ blocks.reset_walk scope.now r.now w }
{
    let signal = name(scope, &r.signal, w.pass(12));
    let start = level(scope, r.negated, &r.level, signal.pass(16));
    loads(scope, r.values.as_slice(), 6, start).pass(19)
}

// A combinational block.
fn comb(alloc: Global, scope: &Scope, list: &List<RawStmt>, w: Walk) -> Result<Walk, NoMemory>
    ensures { IfOk result (λ v. v ≡ blocks.comb_walk scope.now list.now w) }
{
    let end = stmts(alloc, scope, list.as_slice(), 4, w.pass(20))?;
    Ok(end.pass(6))
}

// A block at an edge, from behind its clock's name.
fn edge(scope: &Scope, with: &Option<RawReset>, list: &List<RawSet>, w: Walk) -> Walk
    ensures { result ≡ blocks.edge_walk scope.now with.now list.now w }
{
    match with {
        None => sets(scope, list.as_slice(), 4, w.pass(8)).pass(6),
        Some(r) => sets(scope, list.as_slice(), 6, reset(scope, r, w)).pass(14),
    }
}

/// A block.
pub fn block(alloc: Global, scope: &Scope, b: &RawBlock, w: Walk) -> Result<Walk, NoMemory>
    ensures { IfOk result (λ v. v ≡ blocks.block_walk scope.now b.now w) }
{
    match b {
        RawBlock::Comb(list) => comb(alloc, scope, list, w),
        RawBlock::Edge {
            clock,
            reset,
            sets,
            ..
        } => Ok(edge(scope, reset, sets, name(scope, clock, w.pass(22)))),
    }
}

/// Goes over a range.
pub fn range(high: &Option<Text>, w: Walk) -> Walk
    ensures { result ≡ walking.pass (blocks.range_bytes high.now) w }
{
    match high {
        Some(digits) => pass_both(w, digits.bytes().len(), 5),
        None => w.pass(0),
    }
}

/// A range and a name, which is to be none of those declared before.
pub fn var(before: &Scope, v: &RawVar, w: Walk) -> Walk
    ensures { result ≡ blocks.var_walk before.now v.now w }
{
    let wrong = !is_width(high_of(v).saturating_add(1));
    let named = range(&v.high, w.size_if(wrong));
    spelling(&v.name, named.name_if(before.has(v.name.bytes())))
}

/// How many bytes stand before a range.
pub fn dir_bytes(dir: Dir) -> usize
    ensures { result ≡ blocks.dir_bytes dir }
{
    match dir {
        Dir::Input => 14,
        Dir::Output => 15,
        Dir::Inner => 8,
    }
}
