//! Prints blocks.
ghost use Rattle.std.specs.Prelude.{◌≡◌, ◌++◌, flat_map, OnOk};
ghost use Rattle.scc_svtext.specs.Fixed.{fixed_text};
ghost use Rattle.scc_svtext.specs.ModuleText.{block_text, branch_text, edge_lines_text, edge_text, level_text, load_text, set_text, signal_text, width_at};
ghost use Rattle.scc_svtext.specs.Pieces.{name_at};

use crate::digits::{blank, fixed, literal};
use crate::expr::{expr, name};
use crate::fixed::Fixed;
use crate::stmt::stmts;
use scc_base::{NoMemory, Text};
use scc_svtree::{SvBlock, SvLoad, SvReset, SvSet, SvVar, VarId};
use std::alloc::Global;

/// The word for an edge.
pub fn edge(rising: bool) -> Fixed
    ensures { fixed_text result ≡ edge_text rising }
{
    if rising {
        Fixed::Posedge
    } else {
        Fixed::Negedge
    }
}

fn set(
    alloc: Global,
    out: &mut Text,
    names: &[Text],
    indent: u32,
    s: &SvSet,
) -> Result<(), NoMemory>
    ensures { OnOk result (out.new ≡ out.old ++ set_text names.now indent s.now) }
{
    blank(out, indent)?;
    name(out, names, s.target)?;
    fixed(out, Fixed::Load)?;
    expr(alloc, out, names, &s.value)?;
    fixed(out, Fixed::LineEnd)
}

fn sets(
    alloc: Global,
    out: &mut Text,
    names: &[Text],
    indent: u32,
    list: &[SvSet],
) -> Result<(), NoMemory>
    ensures { OnOk result (out.new ≡ out.old ++ flat_map (set_text names.now indent) list.now) }
{
    for s in list {
        set(alloc, out, names, indent, s)?;
    }
    Ok(())
}

fn width(vars: &[SvVar], v: VarId) -> u32
    ensures { result ≡ width_at vars.now v.0 }
{
    match vars.get(v.0 as usize) {
        Some(var) => var.width,
        None => 0,
    }
}

fn load(out: &mut Text, vars: &[SvVar], names: &[Text], l: SvLoad) -> Result<(), NoMemory>
    ensures { OnOk result (out.new ≡ out.old ++ load_text vars.now names.now l) }
{
    blank(out, 6)?;
    name(out, names, l.target)?;
    fixed(out, Fixed::Load)?;
    literal(out, width(vars, l.target), l.value)?;
    fixed(out, Fixed::LineEnd)
}

fn loads(out: &mut Text, vars: &[SvVar], names: &[Text], list: &[SvLoad]) -> Result<(), NoMemory>
    ensures { OnOk result (out.new ≡ out.old ++ flat_map (load_text vars.now names.now) list.now) }
{
    for l in list {
        load(out, vars, names, *l)?;
    }
    Ok(())
}

// The condition under which a reset stands.
fn level(out: &mut Text, names: &[Text], rising: bool, signal: VarId) -> Result<(), NoMemory>
    ensures { OnOk result (out.new ≡ out.old ++ level_text rising (name_at names.now signal.0)) }
{
    if rising {
        name(out, names, signal)
    } else {
        fixed(out, Fixed::NotOpen)?;
        name(out, names, signal)?;
        fixed(out, Fixed::Close)
    }
}

/// Appends an asynchronous reset to the list of edges.
pub fn signal(out: &mut Text, names: &[Text], r: &SvReset) -> Result<(), NoMemory>
    ensures { OnOk result (out.new ≡ out.old ++ signal_text names.now r.now) }
{
    fixed(out, Fixed::Or)?;
    fixed(out, edge(r.rising))?;
    name(out, names, r.signal)?;
    fixed(out, Fixed::Then)
}

/// Appends the branch of an asynchronous reset, up to the other one.
pub fn branch(out: &mut Text, vars: &[SvVar], names: &[Text], r: &SvReset) -> Result<(), NoMemory>
    ensures { OnOk result (out.new ≡ out.old ++ branch_text vars.now names.now r.now) }
{
    fixed(out, Fixed::ResetIf)?;
    level(out, names, r.rising, r.signal)?;
    fixed(out, Fixed::Then)?;
    loads(out, vars, names, r.values.as_slice())?;
    fixed(out, Fixed::ResetElse)
}

// Appends the lines of an edge's block behind the name of its clock.
fn edge_lines(
    alloc: Global,
    out: &mut Text,
    vars: &[SvVar],
    names: &[Text],
    r: &Option<SvReset>,
    list: &[SvSet],
) -> Result<(), NoMemory>
    ensures { OnOk result (out.new ≡ out.old ++ edge_lines_text vars.now names.now r.now list.now) }
{
    match r {
        Some(r) => {
            signal(out, names, r)?;
            branch(out, vars, names, r)?;
            sets(alloc, out, names, 6, list)?;
            fixed(out, Fixed::ResetEnd)
        }
        None => {
            fixed(out, Fixed::Then)?;
            sets(alloc, out, names, 4, list)
        }
    }
}

fn block(
    alloc: Global,
    out: &mut Text,
    vars: &[SvVar],
    names: &[Text],
    b: &SvBlock,
) -> Result<(), NoMemory>
    ensures { OnOk result (out.new ≡ out.old ++ block_text vars.now names.now b.now) }
{
    match b {
        SvBlock::Comb(list) => {
            fixed(out, Fixed::Comb)?;
            stmts(alloc, out, names, list.as_slice(), 4)?;
            fixed(out, Fixed::BlockEnd)
        }
        SvBlock::Edge {
            rising,
            clock,
            reset,
            sets,
        } => {
            fixed(out, Fixed::Edge)?;
            fixed(out, edge(*rising))?;
            name(out, names, *clock)?;
            edge_lines(alloc, out, vars, names, reset, sets.as_slice())?;
            fixed(out, Fixed::BlockEnd)
        }
    }
}

/// Appends the blocks.
pub fn blocks(
    alloc: Global,
    out: &mut Text,
    vars: &[SvVar],
    names: &[Text],
    list: &[SvBlock],
) -> Result<(), NoMemory>
    ensures { OnOk result (out.new ≡ out.old ++ flat_map (block_text vars.now names.now) list.now) }
{
    for b in list {
        block(alloc, out, vars, names, b)?;
    }
    Ok(())
}
