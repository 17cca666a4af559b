//! What is asked of a core's cells and processes.
ghost use Rattle.std.specs.Prelude.{◌≡◌, List, [], ◌∷◌, ◌++◌, IfOk, OnOk, slice_get};
ghost use Rattle.scc_core.specs.declared.program.CoreProcess.{CoreProcess};
ghost use Rattle.scc_core_flow.specs.Live.{DecidesAll, Each, HasWholeTests};
ghost use Rattle.scc_core_spec.specs.Static.{Cells};
ghost use Rattle.scc_core_static_laws.specs.Held.{Knows};
ghost use Rattle.scc_core_spec.specs.Program.{is_combinational};
ghost use Rattle.scc_core_view.specs.Programs.{process_of, program_of};
ghost use Rattle.scc_rules.specs.Chosen.{is_shown, shown_cell};
ghost use Rattle.scc_rules.specs.Stands.{HasBodies, HasLives};

use scc_base::{List, NoMemory, lost, push};
use scc_core::{CellSort, Core, CoreProcess, CoreStmt, Known, Sort2};
use scc_core_flow::{LivePart, Mark, live_part, marked, whole_tests_are_decided};
use std::alloc::Global;

/// A core with the live part and the marks of each process.
#[derive(Drop)]
pub struct Facts<'a> {
    pub core: &'a Core,
    pub known: Known<'a>,
    /// The root of each cell of a port; each other cell itself.
    pub roots: Vec<u32>,
    pub lives: Vec<List<CoreStmt>>,
    pub marks: Vec<List<Mark>>,
    /// Whether some path comes to the end of each process's body.
    pub ends: Vec<bool>,
}

/// What a cell is to the rules.
#[derive(Clone, Copy, PartialEq, Eq)]
pub enum Role {
    /// A port of the top or a signal.
    Root,
    Variable,
    Local,
}

/// The live parts of some processes' bodies, and whether some path comes to the end of each body.
#[derive(Drop)]
struct Lives {
    bodies: Vec<List<CoreStmt>>,
    ends: Vec<bool>,
}

/// The facts of a core.
pub fn facts_of<'a>(
    alloc: Global,
    core: &'a Core,
    known: Known<'a>,
    roots: Vec<u32>,
) -> Result<Facts<'a>, NoMemory>
    ensures core { IfOk result (λ f. f.core.now ≡ core.now) }
    ensures lives { Knows known.entry core.now.cells [] → HasWholeTests core.now → IfOk result (λ f. HasLives f (program_of core.now)) }
{
    whole_tests_are_decided();
    let Lives { bodies, ends } = lives_of(alloc, &known, core.processes.as_slice())?;
    let mut marks = Vec::new(alloc);
    mark_each(alloc, &known, bodies.as_slice(), &mut marks)?;
    Ok(Facts {
        core,
        known,
        roots,
        lives: bodies,
        marks,
        ends,
    })
}

// The live part of each process.
fn lives_of(alloc: Global, known: &Known, processes: &[CoreProcess]) -> Result<Lives, NoMemory>
    ensures { (cs : Cells) → Each (λ p. DecidesAll known.now cs p.body) processes.now → IfOk result (HasBodies cs processes.now) }
{
    let mut lives = Lives {
        bodies: Vec::new(alloc),
        ends: Vec::new(alloc),
    };
    for process in processes {
        add_live(alloc, known, process, &mut lives)?;
    }
    Ok(lives)
}

fn add_live(
    alloc: Global,
    known: &Known,
    process: &CoreProcess,
    lives: &mut Lives,
) -> Result<(), NoMemory>
    ensures { (cs : Cells) (ps : List CoreProcess) → DecidesAll known.now cs process.now.body → HasBodies cs ps lives.old → OnOk result (HasBodies cs (ps ++ process.now ∷ []) lives.new) }
{
    let LivePart { body, ends } = live_part(alloc, known, process.body.as_slice())?;
    push(&mut lives.bodies, body)?;
    push(&mut lives.ends, ends)
}

// The marks of each live part.
fn mark_each(
    alloc: Global,
    known: &Known,
    bodies: &[List<CoreStmt>],
    marks: &mut Vec<List<Mark>>,
) -> Result<(), NoMemory> {
    for body in bodies {
        let own = marked(alloc, known, body.as_slice())?;
        push(marks, own)?;
    }
    Ok(())
}

impl<'a> Facts<'a> {
    /// The cell, or for a port below the top its root.
    pub fn root(&self, cell: u32) -> Result<u32, NoMemory> {
        self.roots.get(cell as usize).copied().ok_or(lost())
    }

    /// What a cell is.
    pub fn role(&self, cell: u32) -> Result<Role, NoMemory> {
        let Some(cell) = self.core.cells.get(cell as usize) else {
            return Err(lost());
        };
        match cell.sort {
            CellSort::Input | CellSort::Output | CellSort::Signal | CellSort::Port(_) => {
                Ok(Role::Root)
            }
            CellSort::Variable { .. } => Ok(Role::Variable),
            CellSort::Local(_) => Ok(Role::Local),
            CellSort::Pointer(_) => Err(lost()),
        }
    }

    /// Whether a cell is a port or a signal.
    pub fn is_shown(&self, cell: u32) -> bool
        ensures { result ≡ shown_cell (slice_get self.now.core.now.cells cell) }
    {
        match self.core.cells.get(cell as usize) {
            Some(cell) => is_shown(&cell.sort),
            None => false,
        }
    }

    /// The cells of a mark, ports by their roots.
    pub fn cells(&self, alloc: Global, mark: &Mark) -> Result<Vec<u32>, NoMemory> {
        let mut cells = Vec::new(alloc);
        for number in 0..mark.named.count() {
            push(&mut cells, self.root(mark.named.cell(number))?)?;
        }
        Ok(cells)
    }
}

fn is_shown(sort: &CellSort) -> bool
    ensures { result ≡ is_shown sort.now }
{
    match sort {
        CellSort::Input => true,
        CellSort::Output => true,
        CellSort::Signal => true,
        CellSort::Port(_) => true,
        CellSort::Variable { .. } => false,
        CellSort::Local(_) => false,
        CellSort::Pointer(_) => false,
    }
}

/// Whether a process is a combinational method.
pub fn is_combinational(p: &CoreProcess) -> bool
    ensures { result ≡ is_combinational (process_of p.now) }
{
    match p.sort {
        Sort2::Method => match p.edge {
            Some(_) => false,
            None => true,
        },
        Sort2::Thread => false,
    }
}

/// So many of one thing.
pub fn filled<T: Copy + Drop>(alloc: Global, n: usize, x: T) -> Result<Vec<T>, NoMemory> {
    let mut list = Vec::new(alloc);
    for _ in 0..n {
        push(&mut list, x)?;
    }
    Ok(list)
}
