//! The module.
use crate::assigned::{Assigned, assigned_by};
use crate::body::{Body, method_body, thread_body};
use crate::declare::{Declared, Own, Wanted, nothing};
use crate::first::{first_assignments, registers_of, sets_of};
use crate::reset::loads_of;
use crate::stamps::Stamps;
use crate::thread::{Widths, widths_of};
use crate::views::{Views, views_of};
use crate::written::written;
use scc_base::{Boxed, List, Names, NoMemory, Text, lost, push};
use scc_bits::{Word, width};
use scc_core::{CellSort, Core, CoreProcess, CoreStmt, Places, Sort2};
use scc_core_flow::live;
use scc_lower::{Cells, View};
use scc_states::Split;
use scc_svtree::{
    SvBlock, SvExpr, SvExprNode, SvLeft, SvLiteral, SvModule, SvReset, SvStmt, VarId,
};
use scc_svtree_renumber::{Ids, UNDECLARED, renumbered};
use std::alloc::Global;

/// The number of the process of a local that belongs to no process of the core.
pub const ELSEWHERE: u32 = u32::MAX;

/// How deep expressions nest beside their first operands.
const LEVELS: u32 = 8_192;

/// The module of a checked core: `o` is the order of its combinational methods, `s` has one split for each thread, in process
/// order. First stand constant outputs, then the combinational methods in that order, then the processes at clock edges.
pub fn blocks(
    alloc: Global,
    names: &Names,
    c: &Core,
    o: &List<u32>,
    s: &[Split],
) -> Result<SvModule, NoMemory> {
    let places = Places::of(alloc, &c.cells, &c.vectors)?;
    let splits = splits_of(alloc, c, s)?;
    let cells = Cells::new(&c.cells, &places);
    module(alloc, names, c, o.as_slice(), cells, splits.as_slice())
}

fn module(
    alloc: Global,
    names: &Names,
    c: &Core,
    order: &[u32],
    cells: Cells<'_>,
    splits: &[Option<&Split>],
) -> Result<SvModule, NoMemory> {
    let lives = lives_of(alloc, c, cells)?;
    let views = views_of(alloc, c, lives.writes.as_slice(), splits)?;
    let bodies = bodies_of(alloc, c, cells, splits, &lives, views.views.as_slice())?;
    let assigned = all_assigned(alloc, c, bodies.as_slice())?;
    let every = every_assigned(alloc, c, assigned.as_slice(), &views)?;
    let mut declared = nothing(alloc, c.cells.len())?;
    declare(
        alloc,
        names,
        c,
        splits,
        bodies.as_slice(),
        assigned.as_slice(),
        every.as_slice(),
        &mut declared,
    )?;
    let made = Made {
        c,
        cells,
        splits,
        views: &views,
        bodies: bodies.as_slice(),
        assigned: assigned.as_slice(),
        declared: &declared,
    };
    let blocks = all_blocks(alloc, made, order)?;
    let name = Text::from_bytes(alloc, name_of(names, c)?)?;
    let vars = declared.into_vars();
    Ok(SvModule { name, vars, blocks })
}

fn name_of<'a>(names: &'a Names, c: &Core) -> Result<&'a [u8], NoMemory> {
    if names.has(c.top) {
        Ok(names.text(c.top).as_bytes())
    } else {
        Err(lost())
    }
}

// The split of each process that is a thread.
fn splits_of<'a>(
    alloc: Global,
    c: &Core,
    s: &'a [Split],
) -> Result<Vec<Option<&'a Split>>, NoMemory> {
    let mut found = Vec::new(alloc);
    let mut rest = s.iter();
    for process in c.processes.as_slice() {
        let split = match process.sort {
            Sort2::Thread => {
                let Some(split) = rest.next() else {
                    return Err(lost());
                };
                Some(split)
            }
            Sort2::Method => None,
        };
        push(&mut found, split)?;
    }
    Ok(found)
}

/// The live statements of each process, and the cells that they write.
struct Lives {
    lists: List<List<CoreStmt>>,
    writes: List<List<u32>>,
}

impl Drop for Lives {
    fn drop(self) {
        let Lives {
            lists: _lists,
            writes: _writes,
        } = self;
    }
}

fn lives_of(alloc: Global, c: &Core, cells: Cells<'_>) -> Result<Lives, NoMemory> {
    let mut stamps = Stamps::new(alloc);
    stamps.grow(cells.cells.len())?;
    let mut lives = Lives {
        lists: List::new(alloc),
        writes: List::new(alloc),
    };
    let mut turn = 0u32;
    for process in c.processes.as_slice() {
        turn = turn.checked_add(1).ok_or(lost())?;
        let live = live(alloc, &cells.known, process.body.as_slice())?;
        let writes = written(alloc, live.as_slice(), cells, turn, &mut stamps)?;
        lives.writes.push(writes)?;
        lives.lists.push(live)?;
    }
    Ok(lives)
}

// The statements of each process.
fn bodies_of(
    alloc: Global,
    c: &Core,
    cells: Cells<'_>,
    splits: &[Option<&Split>],
    lives: &Lives,
    views: &[View],
) -> Result<List<Body>, NoMemory> {
    let mut bodies = List::new(alloc);
    for ((process, split), live) in c
        .processes
        .as_slice()
        .iter()
        .zip(splits.iter())
        .zip(lives.lists.as_slice().iter())
    {
        let body = match split {
            Some(split) => thread_body(alloc, process, split, cells, views)?,
            None => method_body(alloc, live.as_slice(), cells, views)?,
        };
        bodies.push(body)?;
    }
    Ok(bodies)
}

fn all_assigned(alloc: Global, c: &Core, bodies: &[Body]) -> Result<List<Assigned>, NoMemory> {
    let mut stamps = Stamps::new(alloc);
    // cells and next values
    stamps.grow(c.cells.len())?;
    stamps.grow(c.cells.len())?;
    let mut found = List::new(alloc);
    let mut turn = 0u32;
    for body in bodies {
        turn = turn.checked_add(1).ok_or(lost())?;
        let stmts = body.stmts.as_slice();
        let assigned = assigned_by(alloc, stmts, body.temporaries.len(), turn, &mut stamps)?;
        found.push(assigned)?;
    }
    Ok(found)
}

// For each cell and next value whether some block assigns it.
fn every_assigned(
    alloc: Global,
    c: &Core,
    assigned: &[Assigned],
    views: &Views,
) -> Result<List<bool>, NoMemory> {
    let mut every = Vec::new(alloc);
    note_assigned(c, assigned, views, &mut every)?;
    Ok(List::from_vec(every))
}

fn note_assigned(
    c: &Core,
    assigned: &[Assigned],
    views: &Views,
    every: &mut Vec<bool>,
) -> Result<(), NoMemory> {
    for _ in c.cells.as_slice() {
        push(every, false)?;
        push(every, false)?;
    }
    for a in assigned {
        for lowered in a.cells.iter() {
            set(every, *lowered as usize)?;
        }
    }
    for registers in views.registers.iter() {
        for cell in registers.iter() {
            set(every, 2 * *cell as usize)?;
            set(every, 2 * *cell as usize + 1)?;
        }
    }
    Ok(())
}

fn set(every: &mut Vec<bool>, at: usize) -> Result<(), NoMemory> {
    match every.get_mut(at) {
        Some(is) => {
            *is = true;
            Ok(())
        }
        None => Err(lost()),
    }
}

// The cells of each process's locals, in the order in which they are numbered.
fn locals_of(alloc: Global, c: &Core) -> Result<List<Vec<u32>>, NoMemory> {
    let mut found = Vec::new(alloc);
    find_locals(alloc, c, &mut found)?;
    Ok(List::from_vec(found))
}

fn find_locals(alloc: Global, c: &Core, found: &mut Vec<Vec<u32>>) -> Result<(), NoMemory> {
    for _ in c.processes.as_slice() {
        push(found, Vec::new(alloc))?;
    }
    let mut at = 0u32;
    for cell in c.cells.as_slice() {
        if let CellSort::Local(process) = cell.sort {
            match found.get_mut(process as usize) {
                Some(list) => push(list, at)?,
                None if process == ELSEWHERE => {}
                None => return Err(lost()),
            }
        }
        at = at.checked_add(1).ok_or(lost())?;
    }
    Ok(())
}

fn declare(
    alloc: Global,
    names: &Names,
    c: &Core,
    splits: &[Option<&Split>],
    bodies: &[Body],
    assigned: &[Assigned],
    every: &[bool],
    declared: &mut Declared,
) -> Result<(), NoMemory> {
    declared.ports(alloc, names, c)?;
    declared.objects(alloc, names, c, every)?;
    let locals = locals_of(alloc, c)?;
    for (p, process) in c.processes.as_slice().iter().enumerate() {
        let (Some(split), Some(body), Some(assigned), Some(locals)) = (
            splits.get(p),
            bodies.get(p),
            assigned.get(p),
            locals.get(p),
        ) else {
            return Err(lost());
        };
        let widths = match split {
            Some(split) => widths_of(split)?,
            None => Widths {
                state: 0,
                counter: 0,
            },
        };
        let wanted = Wanted {
            process,
            assigned,
            temporaries: body.temporaries.as_slice(),
            exit: body.exit,
            widths,
            locals: locals.as_slice(),
        };
        declared.process(alloc, names, c, wanted, every)?;
    }
    Ok(())
}

/// All that the blocks are written from.
#[derive(Clone, Copy)]
struct Made<'a> {
    c: &'a Core,
    cells: Cells<'a>,
    splits: &'a [Option<&'a Split>],
    views: &'a Views,
    bodies: &'a [Body],
    assigned: &'a [Assigned],
    declared: &'a Declared,
}

fn all_blocks(alloc: Global, made: Made<'_>, order: &[u32]) -> Result<List<SvBlock>, NoMemory> {
    let mut out = List::new(alloc);
    let zeros = constant_outputs(alloc, made)?;
    if !zeros.is_empty() {
        out.push(SvBlock::Comb(zeros))?;
    }
    for p in order {
        process_blocks(alloc, *p as usize, made, &mut out)?;
    }
    for (p, process) in made.c.processes.as_slice().iter().enumerate() {
        if process.edge.is_some() {
            process_blocks(alloc, p, made, &mut out)?;
        }
    }
    Ok(out)
}

// Outputs that no process writes are 0.
fn constant_outputs(alloc: Global, made: Made<'_>) -> Result<List<SvStmt>, NoMemory> {
    let mut out = List::new(alloc);
    let views = made.views.views.iter();
    for ((i, cell), view) in made.cells.cells.iter().enumerate().zip(views) {
        if matches!((&cell.sort, view), (CellSort::Output, View::Constant(_))) {
            let Some(id) = made.declared.cells.get(2 * i) else {
                return Err(lost());
            };
            let zero = SvExprNode::Literal(SvLiteral {
                width: width(cell.kind),
                value: Word { bits: 0 },
            });
            out.push(SvStmt::Assign {
                left: SvLeft::Whole(VarId(*id)),
                value: SvExpr {
                    node: Boxed::new(alloc, zero)?,
                },
            })?;
        }
    }
    Ok(out)
}

fn ids_of<'a>(declared: &'a Declared, own: &'a Own) -> Ids<'a> {
    Ids {
        same: false,
        first: declared.cells.as_slice(),
        next: own.next.as_slice(),
        last: own.last.as_slice(),
    }
}

// The number of a cell's variable.
fn id_of(declared: &Declared, cell: u32) -> Result<VarId, NoMemory> {
    match declared.cells.get(2 * cell as usize) {
        Some(id) if *id != UNDECLARED => Ok(VarId(*id)),
        Some(_) | None => Err(lost()),
    }
}

// The blocks of a process.
fn process_blocks(
    alloc: Global,
    p: usize,
    made: Made<'_>,
    out: &mut List<SvBlock>,
) -> Result<(), NoMemory> {
    let (Some(process), Some(body), Some(assigned), Some(cells), Some(own)) = (
        made.c.processes.get(p),
        made.bodies.get(p),
        made.assigned.get(p),
        made.views.registers.get(p),
        made.declared.own.get(p),
    ) else {
        return Err(lost());
    };
    let registers = registers_of(alloc, cells.as_slice(), made.declared, own)?;
    let mut stmts = first_assignments(alloc, assigned, registers.as_slice(), made.declared, own)?;
    let ids = ids_of(made.declared, own);
    let rest = renumbered(body.stmts.as_slice(), alloc, ids, LEVELS)?;
    stmts.append(rest)?;
    out.push(SvBlock::Comb(stmts))?;
    let Some(edge) = process.edge else {
        return Ok(());
    };
    let reset = reset_of(alloc, process, p, registers.as_slice(), made)?;
    out.push(SvBlock::Edge {
        rising: edge.rising,
        clock: id_of(made.declared, edge.cell)?,
        reset,
        sets: sets_of(alloc, registers.as_slice())?,
    })
}

// The asynchronous reset of a thread that has one.
fn reset_of(
    alloc: Global,
    process: &CoreProcess,
    p: usize,
    registers: &[crate::first::Register],
    made: Made<'_>,
) -> Result<Option<SvReset>, NoMemory> {
    let Some(reset) = process.reset else {
        return Ok(None);
    };
    if !reset.asynchronous {
        return Ok(None);
    }
    let Some(Some(split)) = made.splits.get(p) else {
        return Err(lost());
    };
    Ok(Some(SvReset {
        signal: id_of(made.declared, reset.cell)?,
        rising: reset.level,
        values: loads_of(alloc, split, registers, made.cells)?,
    }))
}
