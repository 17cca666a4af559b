//! Prints statements and blocks.
use crate::module::{MemArm, MemBlock, MemModule, MemSet, MemStmt};
use crate::printing::{Spelled, expr};
use scc_base::{NoMemory, Text, lost};
use scc_svtext::pieces::{Fixed, blank, branch, edge, fixed, left, literal, name, signal};
use scc_svtree::{SvReset, VarId};
use std::alloc::Global;

fn deeper(indent: u32) -> Result<u32, NoMemory> {
    indent.checked_add(2).ok_or(NoMemory)
}

fn line(out: &mut Text, indent: u32, piece: Fixed) -> Result<(), NoMemory> {
    blank(out, indent)?;
    fixed(out, piece)
}

#[cycle(printed)]
fn stmts(
    list: &[MemStmt],
    alloc: Global,
    out: &mut Text,
    names: Spelled<'_>,
    indent: u32,
) -> Result<(), NoMemory> {
    for s in list {
        stmt(s, alloc, out, names, indent)?;
    }
    Ok(())
}

#[cycle(printed)]
fn stmt(
    s: &MemStmt,
    alloc: Global,
    out: &mut Text,
    names: Spelled<'_>,
    indent: u32,
) -> Result<(), NoMemory> {
    blank(out, indent)?;
    match s {
        MemStmt::Assign { left: l, value } => {
            left(out, names.vars, *l)?;
            fixed(out, Fixed::Assign)?;
            expr(alloc, out, names, value)?;
            fixed(out, Fixed::LineEnd)
        }
        MemStmt::If { test, yes, no } => {
            fixed(out, Fixed::If)?;
            expr(alloc, out, names, test)?;
            fixed(out, Fixed::Then)?;
            stmts(yes.as_slice(), alloc, out, names, deeper(indent)?)?;
            if !no.is_empty() {
                line(out, indent, Fixed::Else)?;
                stmts(no.as_slice(), alloc, out, names, deeper(indent)?)?;
            }
            line(out, indent, Fixed::End)
        }
        MemStmt::Case { of, arms } => {
            fixed(out, Fixed::Case)?;
            expr(alloc, out, names, of)?;
            fixed(out, Fixed::CaseOpen)?;
            each_arm(arms.as_slice(), alloc, out, names, deeper(indent)?)?;
            line(out, indent, Fixed::CaseEnd)
        }
    }
}

#[cycle(printed)]
fn each_arm(
    arms: &[MemArm],
    alloc: Global,
    out: &mut Text,
    names: Spelled<'_>,
    indent: u32,
) -> Result<(), NoMemory> {
    for arm in arms {
        blank(out, indent)?;
        literal(out, arm.label.width, arm.label.value)?;
        fixed(out, Fixed::ArmOpen)?;
        stmts(arm.body.as_slice(), alloc, out, names, deeper(indent)?)?;
        line(out, indent, Fixed::End)?;
    }
    Ok(())
}

// The lines of a memory: the element at its address takes what is written.
fn memory(
    out: &mut Text,
    m: &MemModule,
    names: Spelled<'_>,
    indent: u32,
    number: u32,
) -> Result<(), NoMemory> {
    let at = number as usize;
    let (Some(memory), Some(spelled)) = (m.memories.get(at), names.memories.get(at)) else {
        return Err(lost());
    };
    blank(out, indent)?;
    fixed(out, Fixed::If)?;
    name(out, names.vars, memory.write)?;
    fixed(out, Fixed::Then)?;
    blank(out, deeper(indent)?)?;
    out.push_bytes(spelled.bytes())?;
    fixed(out, Fixed::SelectOpen)?;
    name(out, names.vars, memory.address)?;
    fixed(out, Fixed::SelectClose)?;
    fixed(out, Fixed::Load)?;
    name(out, names.vars, memory.value)?;
    fixed(out, Fixed::LineEnd)?;
    line(out, indent, Fixed::End)
}

fn sets(
    alloc: Global,
    out: &mut Text,
    m: &MemModule,
    names: Spelled<'_>,
    indent: u32,
    list: &[MemSet],
) -> Result<(), NoMemory> {
    for set in list {
        match set {
            MemSet::Memory(number) => memory(out, m, names, indent, *number)?,
            MemSet::Register { target, value } => {
                blank(out, indent)?;
                name(out, names.vars, *target)?;
                fixed(out, Fixed::Load)?;
                expr(alloc, out, names, value)?;
                fixed(out, Fixed::LineEnd)?;
            }
        }
    }
    Ok(())
}

fn edge_lines(
    alloc: Global,
    out: &mut Text,
    m: &MemModule,
    names: Spelled<'_>,
    reset: &Option<SvReset>,
    list: &[MemSet],
) -> Result<(), NoMemory> {
    match reset {
        Some(reset) => {
            signal(out, names.vars, reset)?;
            branch(out, m.vars.as_slice(), names.vars, reset)?;
            sets(alloc, out, m, names, 6, list)?;
            fixed(out, Fixed::ResetEnd)
        }
        None => {
            fixed(out, Fixed::Then)?;
            sets(alloc, out, m, names, 4, list)
        }
    }
}

fn edge_head(
    out: &mut Text,
    names: Spelled<'_>,
    rising: bool,
    clock: VarId,
) -> Result<(), NoMemory> {
    fixed(out, Fixed::Edge)?;
    fixed(out, edge(rising))?;
    name(out, names.vars, clock)
}

/// Appends a block.
pub fn block(
    alloc: Global,
    out: &mut Text,
    m: &MemModule,
    names: Spelled<'_>,
    b: &MemBlock,
) -> Result<(), NoMemory> {
    match b {
        MemBlock::Comb(list) => {
            fixed(out, Fixed::Comb)?;
            stmts(list.as_slice(), alloc, out, names, 4)?;
            fixed(out, Fixed::BlockEnd)
        }
        MemBlock::Edge {
            rising,
            clock,
            reset,
            sets,
        } => {
            edge_head(out, names, *rising, *clock)?;
            edge_lines(alloc, out, m, names, reset, sets.as_slice())?;
            fixed(out, Fixed::BlockEnd)
        }
    }
}
