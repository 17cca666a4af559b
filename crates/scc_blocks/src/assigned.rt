//! Which variables statements assign.
use crate::stamps::Stamps;
use scc_base::{NoMemory, lost, push};
use scc_svtree::{SvArm, SvLeft, SvStmt, VarId};
use std::alloc::Global;

/// The variables that a process assigns, by the numbers of the lowering.
#[derive(Drop)]
pub struct Assigned {
    /// Cells and next values, each once.
    pub cells: Vec<u32>,
    /// Whether the number of the block that is being left.
    pub exit: bool,
    /// For each temporary whether it is.
    pub temporaries: Vec<bool>,
}

/// What a process's statements assign. `turn` is the process's number, counted from 1; `stamps` has all cells and next values.
pub fn assigned_by(
    alloc: Global,
    body: &[SvStmt],
    temporaries: usize,
    turn: u32,
    stamps: &mut Stamps,
) -> Result<Assigned, NoMemory> {
    let mut found = Assigned {
        cells: Vec::new(alloc),
        exit: false,
        temporaries: Vec::new(alloc),
    };
    for _ in 0..temporaries {
        push(&mut found.temporaries, false)?;
    }
    list(body, turn, stamps, &mut found)?;
    Ok(found)
}

#[cycle(assigned)]
fn list(
    body: &[SvStmt],
    turn: u32,
    stamps: &mut Stamps,
    found: &mut Assigned,
) -> Result<(), NoMemory> {
    for s in body {
        stmt(s, turn, stamps, found)?;
    }
    Ok(())
}

#[cycle(assigned)]
fn stmt(s: &SvStmt, turn: u32, stamps: &mut Stamps, found: &mut Assigned) -> Result<(), NoMemory> {
    match s {
        SvStmt::Assign { left, .. } => note(left, turn, stamps, found),
        SvStmt::If { yes, no, .. } => {
            list(yes.as_slice(), turn, stamps, found)?;
            list(no.as_slice(), turn, stamps, found)
        }
        SvStmt::Case { arms, .. } => each_arm(arms.as_slice(), turn, stamps, found),
    }
}

#[cycle(assigned)]
fn each_arm(
    arms: &[SvArm],
    turn: u32,
    stamps: &mut Stamps,
    found: &mut Assigned,
) -> Result<(), NoMemory> {
    for arm in arms {
        list(arm.body.as_slice(), turn, stamps, found)?;
    }
    Ok(())
}

fn note(
    left: &SvLeft,
    turn: u32,
    stamps: &mut Stamps,
    found: &mut Assigned,
) -> Result<(), NoMemory> {
    let (SvLeft::Whole(VarId(var))
    | SvLeft::Bit {
        var: VarId(var),
        ..
    }
    | SvLeft::Range {
        var: VarId(var),
        ..
    }) = left;
    let leaving = stamps.by.len();
    let at = *var as usize;
    if let Some(stamp) = stamps.by.get_mut(at) {
        if *stamp == turn {
            return Ok(());
        }
        *stamp = turn;
        return push(&mut found.cells, *var);
    }
    if at == leaving {
        found.exit = true;
        return Ok(());
    }
    // the state and the counter of a thread are always declared
    if u32::MAX - 4 < *var {
        return Ok(());
    }
    match found.temporaries.get_mut(at - leaving - 1) {
        Some(is) => {
            *is = true;
            Ok(())
        }
        None => Err(lost()),
    }
}
