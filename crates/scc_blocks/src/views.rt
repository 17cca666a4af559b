//! Which cells are constants and registers.
use scc_base::{List, NoMemory, lost, push};
use scc_bits::Word;
use scc_core::{Cell, CellSort, Core, CoreProcess, Sort2};
use scc_lower::View;
use scc_states::Split;
use std::alloc::Global;

/// How the cells of a design are read and written. One list serves all processes, since a root has one writer and a variable
/// that is written is named by one process.
pub struct Views {
    /// One for each cell.
    pub views: Vec<View>,
    /// The registers of each process: cells, ascending.
    pub registers: Vec<Vec<u32>>,
}

impl Drop for Views {
    fn drop(self) {
        let Views {
            views: _views,
            registers: _registers,
        } = self;
    }
}

/// Whether the cell is a root that a process may write.
pub fn is_root(cell: &Cell) -> bool {
    matches!(cell.sort, CellSort::Output | CellSort::Signal)
}

// The view of a cell that no process writes.
fn unwritten(cell: &Cell) -> View {
    match &cell.sort {
        CellSort::Output | CellSort::Signal => View::Constant(Word { bits: 0 }),
        CellSort::Variable { value, .. } => View::Constant(*value),
        CellSort::Input | CellSort::Local(_) | CellSort::Pointer(_) | CellSort::Port(_) => {
            View::Plain
        }
    }
}

/// The views and registers of a design: `writes` has the cells that each process writes in its live part, and a thread keeps
/// those that live across a wait.
pub fn views_of(
    alloc: Global,
    c: &Core,
    writes: &[List<u32>],
    splits: &[Option<&Split>],
) -> Result<Views, NoMemory> {
    let mut found = Views {
        views: Vec::new(alloc),
        registers: Vec::new(alloc),
    };
    found.fill(alloc, c, writes, splits)?;
    Ok(found)
}

fn kept_of<'a>(split: Option<&'a Split>) -> &'a [u32] {
    match split {
        Some(split) => split.kept.as_slice(),
        None => &[],
    }
}

impl Views {
    fn fill(
        &mut self,
        alloc: Global,
        c: &Core,
        writes: &[List<u32>],
        splits: &[Option<&Split>],
    ) -> Result<(), NoMemory> {
        for cell in c.cells.as_slice() {
            push(&mut self.views, unwritten(cell))?;
        }
        for (p, process) in c.processes.as_slice().iter().enumerate() {
            let (Some(written), Some(split)) = (writes.get(p), splits.get(p)) else {
                return Err(lost());
            };
            let mut own = Vec::new(alloc);
            self.own(c, process, written.as_slice(), kept_of(*split), &mut own)?;
            push(&mut self.registers, own)?;
        }
        Ok(())
    }

    // The registers of a process, and how it reads and writes its cells.
    fn own(
        &mut self,
        c: &Core,
        process: &CoreProcess,
        written: &[u32],
        kept: &[u32],
        own: &mut Vec<u32>,
    ) -> Result<(), NoMemory> {
        let clocked = process.edge.is_some();
        let method = process.sort == Sort2::Method;
        for at in written {
            let view = written_view(c, *at, clocked, method)?;
            self.set(*at, view)?;
            if view != View::Plain {
                push(own, *at)?;
            }
        }
        for at in kept {
            self.set(*at, View::Next)?;
            push(own, *at)?;
        }
        own.sort()?;
        own.dedup();
        Ok(())
    }

    fn set(&mut self, at: u32, view: View) -> Result<(), NoMemory> {
        match self.views.get_mut(at as usize) {
            Some(old) => {
                *old = view;
                Ok(())
            }
            None => Err(lost()),
        }
    }
}

// The view of a cell that a process writes.
fn written_view(c: &Core, at: u32, clocked: bool, method: bool) -> Result<View, NoMemory> {
    let Some(cell) = c.cells.get(at as usize) else {
        return Err(lost());
    };
    Ok(if clocked && is_root(cell) {
        View::Delayed
    } else if clocked && method && matches!(cell.sort, CellSort::Variable { .. }) {
        View::Next
    } else {
        View::Plain
    })
}
