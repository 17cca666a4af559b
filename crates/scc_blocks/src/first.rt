//! First assignments and registers.
use crate::assigned::Assigned;
use crate::declare::{Declared, Own};
use scc_base::{Boxed, List, NoMemory, lost, push};
use scc_bits::Word;
use scc_svtree::{SvExpr, SvExprNode, SvLeft, SvLiteral, SvSet, SvStmt, VarId};
use scc_svtree_renumber::UNDECLARED;
use std::alloc::Global;

/// A register of a process: its variable and that of its next value, by their numbers in the module.
#[derive(Clone, Copy, PartialEq, Eq, PartialOrd, Ord)]
pub struct Register {
    pub now: u32,
    pub next: u32,
    /// The number of the lowering.
    pub lowered: u32,
}

/// The registers of a process in declaration order.
pub fn registers_of(
    alloc: Global,
    cells: &[u32],
    declared: &Declared,
    own: &Own,
) -> Result<List<Register>, NoMemory> {
    let mut found = Vec::new(alloc);
    find_registers(cells, declared, own, &mut found)?;
    Ok(List::from_vec(found))
}

fn find_registers(
    cells: &[u32],
    declared: &Declared,
    own: &Own,
    found: &mut Vec<Register>,
) -> Result<(), NoMemory> {
    for cell in cells {
        let at = *cell as usize;
        match (declared.cells.get(2 * at), declared.cells.get(2 * at + 1)) {
            (Some(now), Some(next)) if *now != UNDECLARED && *next != UNDECLARED => {
                let Some(lowered) = cell.checked_mul(2) else {
                    return Err(lost());
                };
                push(
                    found,
                    Register {
                        now: *now,
                        next: *next,
                        lowered,
                    },
                )?;
            }
            _ => return Err(lost()),
        }
    }
    let [state, next_state, counter, next_counter] = own.last.as_slice() else {
        return Err(lost());
    };
    for (now, next, lowered) in [
        (*state, *next_state, crate::thread::STATE),
        (*counter, *next_counter, crate::thread::COUNTER),
    ] {
        if now != UNDECLARED {
            push(found, Register { now, next, lowered })?;
        }
    }
    found.sort()?;
    Ok(())
}

/// A variable that a block assigns, and the register whose next value it is.
#[derive(Clone, Copy, PartialEq, Eq, PartialOrd, Ord)]
struct Target {
    var: u32,
    of: u32,
}

/// One assignment for each variable that a process's block assigns, in declaration order: a next value takes its register's
/// word, all others 0.
pub fn first_assignments(
    alloc: Global,
    assigned: &Assigned,
    registers: &[Register],
    declared: &Declared,
    own: &Own,
) -> Result<List<SvStmt>, NoMemory> {
    let mut targets = Vec::new(alloc);
    find_targets(assigned, registers, declared, own, &mut targets)?;
    firsts(alloc, targets.as_slice(), declared)
}

// What is assigned first, in declaration order; where a variable is met twice, its register stands first.
fn find_targets(
    assigned: &Assigned,
    registers: &[Register],
    declared: &Declared,
    own: &Own,
    targets: &mut Vec<Target>,
) -> Result<(), NoMemory> {
    for r in registers {
        let target = Target {
            var: r.next,
            of: r.now,
        };
        push(targets, target)?;
    }
    for lowered in assigned.cells.iter() {
        let Some(var) = declared.cells.get(*lowered as usize) else {
            return Err(lost());
        };
        let of = UNDECLARED;
        push(targets, Target { var: *var, of })?;
    }
    for var in own.next.iter() {
        if *var != UNDECLARED {
            let of = UNDECLARED;
            push(targets, Target { var: *var, of })?;
        }
    }
    targets.sort()?;
    Ok(())
}

fn firsts(
    alloc: Global,
    targets: &[Target],
    declared: &Declared,
) -> Result<List<SvStmt>, NoMemory> {
    let mut out = List::new(alloc);
    let mut before = None;
    for target in targets {
        if before != Some(target.var) {
            out.push(first(alloc, *target, declared)?)?;
        }
        before = Some(target.var);
    }
    Ok(out)
}

fn first(alloc: Global, target: Target, declared: &Declared) -> Result<SvStmt, NoMemory> {
    let Some(var) = declared.vars.get(target.var as usize) else {
        return Err(lost());
    };
    let value = if target.of == UNDECLARED {
        SvExprNode::Literal(SvLiteral {
            width: var.width,
            value: Word { bits: 0 },
        })
    } else {
        SvExprNode::Left(SvLeft::Whole(VarId(target.of)))
    };
    Ok(SvStmt::Assign {
        left: SvLeft::Whole(VarId(target.var)),
        value: SvExpr {
            node: Boxed::new(alloc, value)?,
        },
    })
}

/// At an edge each register takes its next value.
pub fn sets_of(alloc: Global, registers: &[Register]) -> Result<List<SvSet>, NoMemory> {
    let mut sets = List::new(alloc);
    for r in registers {
        let value = SvExprNode::Left(SvLeft::Whole(VarId(r.next)));
        sets.push(SvSet {
            target: VarId(r.now),
            value: SvExpr {
                node: Boxed::new(alloc, value)?,
            },
        })?;
    }
    Ok(sets)
}
