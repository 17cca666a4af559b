//! Modules as trees without names.
ghost use Rattle.std.specs.Prelude.{◌≡◌, ◌++◌, ◌∷◌, [], map, option_map, IfOk, OnOk};
ghost use Rattle.scc_svread_check.specs.Mentioned.{with_name};
ghost use Rattle.scc_svread_written.specs.Resolved as resolved;

use crate::names::VarNames;
use crate::tree::{expr, small_number, stmts, word};
use scc_base::{List, NoMemory, Text};
use scc_svread_grammar::{RawBlock, RawItem, RawLoad, RawModule, RawReset, RawSet, RawVar};
use scc_svtree::{SvBlock, SvLoad, SvModule, SvReset, SvSet, SvVar};
use std::alloc::Global;

/// A copy of a text.
pub fn copied(alloc: Global, text: &Text) -> Result<Text, NoMemory>
    ensures { IfOk result (λ t. t ≡ text.now) }
{
    let mut copy = Text::new(alloc);
    copy.push_bytes(text.bytes())?;
    Ok(copy)
}

// ---- variables

fn width(high: &Option<Text>) -> u32
    ensures { result ≡ resolved.width_of high.now }
{
    match high {
        Some(digits) => small_number(digits.bytes()).saturating_add(1),
        None => 1,
    }
}

fn variable(alloc: Global, v: &RawVar) -> Result<SvVar, NoMemory>
    ensures { IfOk result (λ x. x ≡ resolved.variable_of v.now) }
{
    Ok(SvVar {
        name: copied(alloc, &v.name)?,
        width: width(&v.high),
        dir: v.dir,
    })
}

/// Variables with their names.
#[derive(Drop)]
struct Declared {
    vars: List<SvVar>,
    names: VarNames,
}

fn declare(alloc: Global, d: &mut Declared, v: &RawVar) -> Result<(), NoMemory>
    ensures vars { OnOk result (d.new.vars ≡ d.old.vars ++ resolved.variable_of v.now ∷ []) }
    ensures names { OnOk result (d.new.names ≡ with_name d.old.names v.now.name) }
{
    d.vars.push(variable(alloc, v)?)?;
    d.names.add(v.name.bytes())
}

fn declare_ports(alloc: Global, d: &mut Declared, list: &[RawVar]) -> Result<(), NoMemory>
    ensures vars { OnOk result (d.new.vars ≡ d.old.vars ++ map resolved.variable_of list.now) }
    ensures names { OnOk result (d.new.names ≡ resolved.with_names d.old.names (resolved.named list.now)) }
{
    for v in list {
        declare(alloc, d, v)?;
    }
    Ok(())
}

fn declare_item(alloc: Global, d: &mut Declared, i: &RawItem) -> Result<(), NoMemory>
    ensures vars { OnOk result (d.new.vars ≡ d.old.vars ++ map resolved.variable_of (resolved.declared (i.now ∷ []))) }
    ensures names { OnOk result (d.new.names ≡ resolved.with_names d.old.names (resolved.named (resolved.declared (i.now ∷ [])))) }
{
    match i {
        RawItem::Var(v) => declare(alloc, d, v),
        RawItem::Block(_) => Ok(()),
    }
}

fn declare_items(alloc: Global, d: &mut Declared, list: &[RawItem]) -> Result<(), NoMemory>
    ensures vars { OnOk result (d.new.vars ≡ d.old.vars ++ map resolved.variable_of (resolved.declared list.now)) }
    ensures names { OnOk result (d.new.names ≡ resolved.with_names d.old.names (resolved.named (resolved.declared list.now))) }
{
    for i in list {
        declare_item(alloc, d, i)?;
    }
    Ok(())
}

// ---- blocks

fn sets(alloc: Global, names: &VarNames, list: &[RawSet]) -> Result<List<SvSet>, NoMemory>
    ensures { IfOk result (λ l. l ≡ map (resolved.set_of names.now) list.now) }
{
    let mut found = List::new(alloc);
    for s in list {
        found.push(SvSet {
            target: names.var(s.target.bytes()),
            value: expr(alloc, names, &s.value)?,
        })?;
    }
    Ok(found)
}

fn load(names: &VarNames, l: &RawLoad) -> SvLoad
    ensures { result ≡ resolved.load_of names.now l.now }
{
    SvLoad {
        target: names.var(l.target.bytes()),
        value: word(l.value.digits.bytes()),
    }
}

fn loads(alloc: Global, names: &VarNames, list: &[RawLoad]) -> Result<List<SvLoad>, NoMemory>
    ensures { IfOk result (λ l. l ≡ map (resolved.load_of names.now) list.now) }
{
    let mut found = List::new(alloc);
    for l in list {
        found.push(load(names, l))?;
    }
    Ok(found)
}

fn reset(alloc: Global, names: &VarNames, r: &Option<RawReset>) -> Result<Option<SvReset>, NoMemory>
    ensures { IfOk result (λ x. x ≡ option_map (resolved.reset_of names.now) r.now) }
{
    match r {
        Some(r) => Ok(Some(SvReset {
            signal: names.var(r.signal.bytes()),
            rising: r.rising,
            values: loads(alloc, names, r.values.as_slice())?,
        })),
        None => Ok(None),
    }
}

fn block(alloc: Global, names: &VarNames, b: &RawBlock) -> Result<SvBlock, NoMemory>
    ensures { IfOk result (λ x. x ≡ resolved.block_of names.now b.now) }
{
    match b {
        RawBlock::Comb(list) => Ok(SvBlock::Comb(stmts(alloc, names, list.as_slice())?)),
        RawBlock::Edge {
            rising,
            clock,
            reset: r,
            sets: list,
        } => Ok(SvBlock::Edge {
            rising: *rising,
            clock: names.var(clock.bytes()),
            reset: reset(alloc, names, r)?,
            sets: sets(alloc, names, list.as_slice())?,
        }),
    }
}

fn add_block(
    alloc: Global,
    names: &VarNames,
    found: &mut List<SvBlock>,
    i: &RawItem,
) -> Result<(), NoMemory>
    ensures { OnOk result (found.new ≡ found.old ++ map (resolved.block_of names.now) (resolved.blocks_in (i.now ∷ []))) }
{
    match i {
        RawItem::Var(_) => Ok(()),
        RawItem::Block(b) => found.push(block(alloc, names, b)?),
    }
}

fn blocks(alloc: Global, names: &VarNames, items: &[RawItem]) -> Result<List<SvBlock>, NoMemory>
    ensures { IfOk result (λ l. l ≡ map (resolved.block_of names.now) (resolved.blocks_in items.now)) }
{
    let mut found = List::new(alloc);
    for i in items {
        add_block(alloc, names, &mut found, i)?;
    }
    Ok(found)
}

// ---- the module

fn all_declared(alloc: Global, m: &RawModule) -> Result<Declared, NoMemory>
    ensures vars { IfOk result (λ d. d.vars ≡ map resolved.variable_of m.now.ports ++ map resolved.variable_of (resolved.declared m.now.items)) }
    ensures names { IfOk result (λ d. d.names ≡ resolved.names_in m.now) }
{
    let mut d = Declared {
        vars: List::new(alloc),
        names: VarNames::new(alloc),
    };
    declare_ports(alloc, &mut d, m.ports.as_slice())?;
    declare_items(alloc, &mut d, m.items.as_slice())?;
    Ok(d)
}

/// The module that is written so; its sizes, names and drivers may be wrong. A name that is not declared stands for the first
/// variable, one that is declared twice for some variable, and numbers that no right module has for the greatest of their type. The
/// only error is want of memory.
#[tactic(auto, using(scc_svread_check::proofs::Mapped::map_append))]
pub fn module_of(alloc: Global, m: &RawModule) -> Result<SvModule, NoMemory>
    ensures module { IfOk result (λ x. x ≡ resolved.module_of m.now) }
{
    let d = all_declared(alloc, m)?;
    let blocks = blocks(alloc, &d.names, m.items.as_slice())?;
    Ok(SvModule {
        name: copied(alloc, &m.name)?,
        vars: d.vars,
        blocks,
    })
}
