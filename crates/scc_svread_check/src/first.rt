//! What is wrong first in a module.
ghost use Rattle.std.specs.Prelude.{◌≡◌, ◌+◌, ◌++◌, [], length, IfOk, OnOk};
ghost use Rattle.scc_svtext.specs.Pieces.{spelled};
ghost use Rattle.scc_svread_check.specs.Blocks as blocks;
ghost use Rattle.scc_svread_check.specs.First as firsts;
ghost use Rattle.scc_svread_check.specs.Scope.{declare, declare_all};
ghost use Rattle.scc_svread_check.specs.Walking.{start};

use crate::block::{block, dir_bytes, var};
use crate::drivers::misplaced;
use crate::leaf::{pass_both, spelling};
use crate::scope::Scope;
use crate::walk::{START, Walk};
use crate::wrong::Wrong;
use scc_base::{List, NoMemory};
use scc_svread_grammar::{RawBlock, RawItem, RawModule, RawVar};
use std::alloc::Global;

// A variable, which is declared then.
fn declared(names: &mut Scope, v: &RawVar, w: Walk) -> Result<Walk, NoMemory>
    ensures walk { IfOk result (λ u. u ≡ blocks.var_walk names.old v.now w) }
    ensures names { OnOk result (names.new ≡ declare names.old v.now) }
{
    let end = var(names, v, w);
    names.declare(v)?;
    Ok(end)
}

// Ports behind a first one.
fn further(names: &mut Scope, list: &[RawVar], w: Walk) -> Result<Walk, NoMemory>
    ensures walk { IfOk result (λ u. u ≡ firsts.further_ports names.old list.now w) }
    ensures names { OnOk result (names.new ≡ declare_all names.old list.now) }
{
    let mut walk = w;
    for v in list {
        walk = declared(names, v, pass_both(walk, 2, dir_bytes(v.dir)))?;
    }
    Ok(walk)
}

fn ports(names: &mut Scope, list: &[RawVar], w: Walk) -> Result<Walk, NoMemory>
    ensures walk { IfOk result (λ u. u ≡ firsts.ports_walk names.old list.now w) }
    ensures names { OnOk result (names.new ≡ declare_all names.old list.now) }
{
    match list {
        [] => Ok(w.pass(0)),
        [v, more @ ..] => {
            let first = declared(names, v, w.pass(dir_bytes(v.dir)))?;
            Ok(further(names, more, first)?.pass(1))
        }
    }
}

fn item(
    alloc: Global,
    names: &mut Scope,
    scope: &Scope,
    i: &RawItem,
    w: Walk,
) -> Result<Walk, NoMemory>
    ensures walk { IfOk result (λ u. u ≡ firsts.item_walk names.old scope.now i.now w) }
    ensures names { OnOk result (names.new ≡ firsts.item_names names.old i.now) }
{
    match i {
        RawItem::Var(v) => Ok(declared(names, v, w.pass(8))?.pass(2)),
        RawItem::Block(b) => block(alloc, scope, b, w),
    }
}

// Declarations and blocks.
fn items(
    alloc: Global,
    names: &mut Scope,
    scope: &Scope,
    list: &[RawItem],
    w: Walk,
) -> Result<Walk, NoMemory>
    ensures { IfOk result (λ u. u ≡ firsts.items_walk names.old scope.now list.now w) }
{
    let mut walk = w;
    for i in list {
        walk = item(alloc, names, scope, i, walk)?;
    }
    Ok(walk)
}

fn declare_ports(names: &mut Scope, list: &[RawVar]) -> Result<(), NoMemory>
    ensures { OnOk result (names.new ≡ declare_all names.old list.now) }
{
    for v in list {
        names.declare(v)?;
    }
    Ok(())
}

fn declare_item(names: &mut Scope, i: &RawItem) -> Result<(), NoMemory>
    ensures { OnOk result (names.new ≡ firsts.item_names names.old i.now) }
{
    match i {
        RawItem::Var(v) => names.declare(v),
        RawItem::Block(_) => Ok(()),
    }
}

fn declare_items(names: &mut Scope, list: &[RawItem]) -> Result<(), NoMemory>
    ensures { OnOk result (names.new ≡ firsts.names_with names.old list.now) }
{
    for i in list {
        declare_item(names, i)?;
    }
    Ok(())
}

// The names of a module.
fn scope_of(alloc: Global, m: &RawModule) -> Result<Scope, NoMemory>
    ensures { IfOk result (λ s. s ≡ firsts.scope_of m.now) }
{
    let mut names = Scope::new(alloc);
    declare_ports(&mut names, m.ports.as_slice())?;
    declare_items(&mut names, m.items.as_slice())?;
    Ok(names)
}

// A wrong size before a wrong name, and that before a wrong driver.
fn first_in(size: Option<usize>, name: Option<usize>, driver: Option<usize>) -> Option<Wrong>
    ensures { result ≡ firsts.first_in size name driver }
{
    match (size, name, driver) {
        (Some(at), _, _) => Some(Wrong::Size(at)),
        (None, Some(at), _) => Some(Wrong::Name(at)),
        (None, None, Some(at)) => Some(Wrong::Driver(at)),
        (None, None, None) => None,
    }
}

// A module up to its ports' end, which are declared then.
fn head(names: &mut Scope, m: &RawModule) -> Result<Walk, NoMemory>
    requires { names.old ≡ [] }
    ensures walk { IfOk result (λ w. w ≡ firsts.head_walk m.now start) }
    ensures names { OnOk result (names.new ≡ declare_all [] m.now.ports) }
{
    let start = spelling(&m.name, START.pass(7)).pass(3);
    Ok(ports(names, m.ports.as_slice(), start)?.pass(3))
}

// The walk over sizes and names.
fn looked_through(alloc: Global, m: &RawModule) -> Result<Walk, NoMemory>
    ensures { IfOk result (λ w. w ≡ firsts.module_walk m.now start) }
{
    let scope = scope_of(alloc, m)?;
    let mut names = Scope::new(alloc);
    let behind = head(&mut names, m)?;
    items(alloc, &mut names, &scope, m.items.as_slice(), behind)
}

fn add_start(found: &mut List<usize>, i: &RawItem, w: Walk) -> Result<(), NoMemory>
    ensures { OnOk result (found.new ≡ found.old ++ firsts.start_of i.now w) }
{
    match i {
        RawItem::Var(_) => Ok(()),
        RawItem::Block(RawBlock::Comb(_)) => found.push(w.pass(2).at),
        RawItem::Block(RawBlock::Edge { .. }) => Ok(()),
    }
}

fn starts_behind(
    alloc: Global,
    names: &mut Scope,
    scope: &Scope,
    list: &[RawItem],
    w: Walk,
) -> Result<List<usize>, NoMemory>
    ensures { IfOk result (λ l. l ≡ firsts.starts_behind names.old scope.now list.now w) }
{
    let mut found = List::new(alloc);
    let mut walk = w;
    for i in list {
        add_start(&mut found, i, walk)?;
        walk = item(alloc, names, scope, i, walk)?;
    }
    Ok(found)
}

/// Where the combinational blocks of a module begin, behind the blanks before them.
pub fn starts(alloc: Global, m: &RawModule) -> Result<List<usize>, NoMemory>
    ensures { IfOk result (λ l. l ≡ firsts.starts_of m.now) }
{
    let scope = scope_of(alloc, m)?;
    let mut names = Scope::new(alloc);
    let behind = head(&mut names, m)?;
    starts_behind(alloc, &mut names, &scope, m.items.as_slice(), behind)
}

/// What is wrong first in a module as it is written, by its place in the text: a wrong size; where no size is wrong, a name that is
/// not declared or was declared before; where each name is declared once, one that stands where it may not (IEEE 1800-2017, sections
/// 5.7.1, 6.24.1, 9.2.2, 9.4.2, 11.4.12, 11.5.1, 11.6.1 and 23.9). With `many` a module may have several clocks. Whether blocks read
/// in a cycle what others assign is not looked for. The only error is want of memory.
pub fn first_wrong(alloc: Global, many: bool, m: &RawModule) -> Result<Option<Wrong>, NoMemory>
    ensures wrong { IfOk result (λ r. r ≡ firsts.wrong_of many m.now) }
{
    let w = looked_through(alloc, m)?;
    let driver = misplaced(alloc, many, m)?;
    Ok(first_in(w.size, w.name, driver))
}
