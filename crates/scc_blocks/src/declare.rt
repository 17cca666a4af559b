//! Declarations: ports, then cells in their order, then what each process has of its own.
ghost use Rattle.std.specs.Prelude.{◌≡◌, ◌+◌, ◌∷◌, [], ◌++◌, true, codes, slice_set, length, Some, IfOk, OnOk};
ghost use Rattle.scc_blocks.specs.Declaring.{Adds, AddsAny, AddsAt, AddsCell, AddsInner, AddsOwn, AddsPort, AreBefore, AreTemporaries, AreUndeclared, Cells, HasIf, IsDeclared, IsFresh, IsOwn, IsPair, direction_of, local_at, next_variable_of, own_name, ports_of, temporary_name, variable_of, want, wants_of};

use crate::assigned::Assigned;
use crate::thread::Widths;
use itoa::Buffer;
use scc_base::{List, Names, NoMemory, Text, lost, push};
use scc_bits::width;
use scc_core::{Cell, CellSort, Core, CoreProcess};
use scc_lower::sv_name;
use scc_svtree::{Dir, SvVar};
use scc_svtree_renumber::UNDECLARED;
use std::alloc::Global;

/// The variables of a module, and the numbers that they have there.
pub struct Declared {
    pub vars: List<SvVar>,
    /// Of cell c at 2c, of its next value at 2c + 1.
    pub cells: Vec<u32>,
    /// Of what each process has of its own.
    pub own: Vec<Own>,
}

impl Drop for Declared {
    fn drop(self) {
        let Declared {
            vars: _vars,
            cells: _cells,
            own: _own,
        } = self;
    }
}

/// The numbers of a process's own variables.
pub struct Own {
    /// That of the variable of blocks that are left, then the temporaries.
    pub next: Vec<u32>,
    /// State, next state, counter, next counter.
    pub last: Vec<u32>,
}

impl Drop for Own {
    fn drop(self) {
        let Own {
            next: _next,
            last: _last,
        } = self;
    }
}

/// The numbers of a register of a process's own and of its next value.
#[derive(Clone, Copy)]
pub struct Pair {
    pub now: u32,
    pub next: u32,
}

/// What is to be declared of a process.
#[derive(Clone, Copy)]
pub struct Wanted<'a> {
    pub process: &'a CoreProcess,
    pub assigned: &'a Assigned,
    /// The widths of its temporaries.
    pub temporaries: &'a [u32],
    pub exit: u32,
    pub widths: Widths,
    /// The cells of its locals.
    pub locals: &'a [u32],
}

/// Nothing declared yet.
pub fn nothing(alloc: Global, cells: usize) -> Result<Declared, NoMemory>
    ensures { IfOk result (λ d. IsFresh d) }
{
    let numbers = undeclared(alloc, cells)?;
    Ok(Declared {
        vars: List::new(alloc),
        cells: numbers,
        own: Vec::new(alloc),
    })
}

// The numbers of so many cells that aren't declared.
fn undeclared(alloc: Global, cells: usize) -> Result<Vec<u32>, NoMemory>
    ensures { IfOk result (λ v. AreUndeclared v.items) }
{
    let mut numbers = Vec::new(alloc);
    for _ in 0..cells {
        push(&mut numbers, UNDECLARED)?;
        push(&mut numbers, UNDECLARED)?;
    }
    Ok(numbers)
}

impl Declared {
    /// The variables, which are all that is left of it.
    pub fn into_vars(self) -> List<SvVar>
        ensures { result ≡ self.vars }
    {
        let Declared {
            vars,
            cells: _cells,
            own: _own,
        } = self;
        vars
    }

    // A variable behind the others; its number.
    fn put(&mut self, var: SvVar) -> Result<u32, NoMemory>
        ensures vars { OnOk result (self.new.vars ≡ self.old.vars ++ var ∷ []) }
        ensures number { IfOk result (λ n. n ≡ length self.old.vars) }
        ensures declared { IfOk result (λ n. IsDeclared n) }
        ensures cells { self.new.cells.items ≡ self.old.cells.items }
        ensures own { self.new.own.items ≡ self.old.own.items }
    {
        let Ok(number) = u32::try_from(self.vars.len()) else {
            return Err(lost());
        };
        if number == UNDECLARED {
            return Err(lost());
        }
        self.vars.push(var)?;
        Ok(number)
    }

    fn number(&mut self, lowered: usize, id: u32) -> Result<(), NoMemory>
        ensures cells { OnOk result (self.new.cells.items ≡ slice_set self.old.cells.items lowered id) }
        ensures vars { self.new.vars ≡ self.old.vars }
        ensures own { self.new.own.items ≡ self.old.own.items }
    {
        match self.cells.get_mut(lowered) {
            Some(old) => {
                *old = id;
                Ok(())
            }
            None => Err(lost()),
        }
    }

    // A variable behind the others, and the number of the lowering that it has.
    fn place(&mut self, lowered: usize, var: SvVar) -> Result<(), NoMemory>
        ensures adds { OnOk result (AddsAt lowered var self.old self.new) }
        ensures own { self.new.own.items ≡ self.old.own.items }
    {
        let id = self.put(var)?;
        self.number(lowered, id)?;
        Ok(())
    }

    /// The ports of the top.
    pub fn ports(&mut self, alloc: Global, names: &Names, c: &Core) -> Result<(), NoMemory>
        ensures adds { OnOk result (Adds (wants_of names.now c.now.cells) (ports_of names.now c.now.cells) self.old self.new) }
        ensures own { self.new.own.items ≡ self.old.own.items }
    {
        let mut at = 0;
        for cell in c.cells.as_slice() {
            self.port(alloc, names, cell, at)?;
            at = next(at)?;
        }
        Ok(())
    }

    // The port of an input or output.
    fn port(&mut self, alloc: Global, names: &Names, cell: &Cell, at: u32) -> Result<(), NoMemory>
        ensures adds { OnOk result (AddsPort names.now cell.now at self.old self.new) }
        ensures own { self.new.own.items ≡ self.old.own.items }
    {
        let Some(dir) = direction(&cell.sort) else {
            return Ok(());
        };
        let var = variable(alloc, names, cell, dir)?;
        self.place(2 * at as usize, var)?;
        Ok(())
    }

    /// Outputs' next values, signals and variables with theirs.
    pub fn objects(
        &mut self,
        alloc: Global,
        names: &Names,
        c: &Core,
        every: &[bool],
    ) -> Result<(), NoMemory>
        ensures adds { OnOk result (AddsInner (wants_of names.now c.now.cells) self.old self.new) }
        ensures own { self.new.own.items ≡ self.old.own.items }
    {
        let mut at = 0;
        for cell in c.cells.as_slice() {
            self.object(alloc, names, c.cells.as_slice(), cell, at, every)?;
            at = next(at)?;
        }
        Ok(())
    }

    fn object(
        &mut self,
        alloc: Global,
        names: &Names,
        cells: &[Cell],
        cell: &Cell,
        at: u32,
        every: &[bool],
    ) -> Result<(), NoMemory>
        ensures adds { OnOk result (AddsInner (wants_of names.now cells.now) self.old self.new) }
        ensures own { self.new.own.items ≡ self.old.own.items }
    {
        match cell.sort {
            CellSort::Output | CellSort::Signal | CellSort::Variable { .. } => {
                self.cell(alloc, names, cells, at, every)
            }
            _ => Ok(()),
        }
    }

    // A cell and its next value, where some block assigns them.
    fn cell(
        &mut self,
        alloc: Global,
        names: &Names,
        cells: &[Cell],
        at: u32,
        every: &[bool],
    ) -> Result<(), NoMemory>
        ensures adds { OnOk result (AddsInner (wants_of names.now cells.now) self.old self.new) }
        ensures own { self.new.own.items ≡ self.old.own.items }
    {
        let Some(cell) = cells.get(at as usize) else {
            return Err(lost());
        };
        self.present(alloc, names, cell, at, every)?;
        self.next_value(alloc, names, cell, at, every)?;
        Ok(())
    }

    // A cell's variable, which a port has already.
    fn present(
        &mut self,
        alloc: Global,
        names: &Names,
        cell: &Cell,
        at: u32,
        every: &[bool],
    ) -> Result<(), NoMemory>
        ensures adds { OnOk result (AddsCell names.now cell.now at self.old self.new) }
        ensures own { self.new.own.items ≡ self.old.own.items }
    {
        let lowered = 2 * at as usize;
        if matches!(cell.sort, CellSort::Output) || !is_assigned(every, lowered)? {
            return Ok(());
        }
        let var = variable(alloc, names, cell, Dir::Inner)?;
        self.place(lowered, var)?;
        Ok(())
    }

    fn next_value(
        &mut self,
        alloc: Global,
        names: &Names,
        cell: &Cell,
        at: u32,
        every: &[bool],
    ) -> Result<(), NoMemory>
        ensures adds { OnOk result (AddsCell names.now cell.now at self.old self.new) }
        ensures own { self.new.own.items ≡ self.old.own.items }
    {
        let lowered = 2 * at as usize + 1;
        if !is_assigned(every, lowered)? {
            return Ok(());
        }
        let var = next_variable(alloc, names, cell)?;
        self.place(lowered, var)?;
        Ok(())
    }

    /// What a process has of its own: locals, temporaries, state, counter, and the number of the block that is left.
    pub fn process(
        &mut self,
        alloc: Global,
        names: &Names,
        c: &Core,
        wanted: Wanted<'_>,
        every: &[bool],
    ) -> Result<(), NoMemory>
        ensures adds { OnOk result (AddsInner (wants_of names.now c.now.cells) self.old self.new) }
        ensures own { OnOk result (AddsOwn names.now c.now.cells wanted.entry.process.now wanted.entry.assigned.now wanted.entry.temporaries.now wanted.entry.exit wanted.entry.widths wanted.entry.locals.now self.old self.new) }
    {
        let cells = c.cells.as_slice();
        let first = behind(cells, wanted.locals)?;
        self.locals(alloc, names, cells, wanted.locals, every)?;
        let own = self.own(alloc, names, wanted, first)?;
        push(&mut self.own, own)?;
        Ok(())
    }

    fn locals(
        &mut self,
        alloc: Global,
        names: &Names,
        cells: &[Cell],
        locals: &[u32],
        every: &[bool],
    ) -> Result<(), NoMemory>
        ensures adds { OnOk result (AddsInner (wants_of names.now cells.now) self.old self.new) }
        ensures own { self.new.own.items ≡ self.old.own.items }
    {
        for at in locals {
            self.cell(alloc, names, cells, *at, every)?;
        }
        Ok(())
    }

    // All but the locals.
    fn own(
        &mut self,
        alloc: Global,
        names: &Names,
        wanted: Wanted<'_>,
        first: u32,
    ) -> Result<Own, NoMemory>
        ensures adds { OnOk result (AddsAny self.old self.new) }
        ensures own { (cs : Cells) → AreBefore cs wanted.entry.locals.now first → IfOk result (λ o. IsOwn names.now cs wanted.entry.process.now wanted.entry.assigned.now wanted.entry.temporaries.now wanted.entry.exit wanted.entry.widths wanted.entry.locals.now self.new.vars o) }
        ensures others { self.new.own.items ≡ self.old.own.items }
    {
        let q = wanted.process;
        let a = wanted.assigned;
        let temporaries = self.temporaries(
            alloc,
            names,
            q,
            wanted.temporaries,
            a.temporaries.as_slice(),
            first,
        )?;
        let state = self.pair(alloc, names, q, b"$$state", wanted.widths.state)?;
        let counter = self.pair(alloc, names, q, b"$$wait", wanted.widths.counter)?;
        let exit = self.exit(alloc, names, q, a.exit, wanted.exit)?;
        own_of(alloc, exit, temporaries, state, counter)
    }

    fn temporaries(
        &mut self,
        alloc: Global,
        names: &Names,
        process: &CoreProcess,
        widths: &[u32],
        assigned: &[bool],
        first: u32,
    ) -> Result<Vec<u32>, NoMemory>
        ensures adds { OnOk result (AddsAny self.old self.new) }
        ensures numbers { IfOk result (λ v. AreTemporaries names.now process.now first widths.now assigned.now self.new.vars v.items) }
        ensures as_many { IfOk result (λ v. length v.items ≡ length widths.now) }
        ensures own { self.new.own.items ≡ self.old.own.items }
    {
        let mut ids = Vec::new(alloc);
        let mut number = first;
        for width in widths {
            let Some(is) = assigned.get(ids.len()) else {
                return Err(lost());
            };
            let id = self.temporary(alloc, names, process, *width, *is, number)?;
            push(&mut ids, id)?;
            number = next(number)?;
        }
        Ok(ids)
    }

    // A temporary, where it is assigned.
    fn temporary(
        &mut self,
        alloc: Global,
        names: &Names,
        process: &CoreProcess,
        width: u32,
        is_assigned: bool,
        number: u32,
    ) -> Result<u32, NoMemory>
        ensures adds { OnOk result (AddsAny self.old self.new) }
        ensures number { IfOk result (λ n. HasIf is_assigned self.new.vars (want (temporary_name names.now process.now number) width) n) }
        ensures own { self.new.own.items ≡ self.old.own.items }
    {
        if !is_assigned {
            return Ok(UNDECLARED);
        }
        let name = temporary_text(alloc, names, process, number)?;
        self.inner(name, width)
    }

    // A register of the process and its next value, where it has a width.
    fn pair(
        &mut self,
        alloc: Global,
        names: &Names,
        process: &CoreProcess,
        end: &[u8],
        width: u32,
    ) -> Result<Pair, NoMemory>
        ensures adds { OnOk result (AddsAny self.old self.new) }
        ensures pair { IfOk result (λ p. IsPair self.new.vars (own_name names.now process.now end.now) width p) }
        ensures own { self.new.own.items ≡ self.old.own.items }
    {
        if width == 0 {
            return Ok(Pair {
                now: UNDECLARED,
                next: UNDECLARED,
            });
        }
        let name = named(alloc, names, process, end)?;
        let now = self.inner(name, width)?;
        let mut name = named(alloc, names, process, end)?;
        name.push_bytes(b"$$n")?;
        let next = self.inner(name, width)?;
        Ok(Pair { now, next })
    }

    // The number of the block that is left, where it is assigned.
    fn exit(
        &mut self,
        alloc: Global,
        names: &Names,
        process: &CoreProcess,
        is_assigned: bool,
        width: u32,
    ) -> Result<u32, NoMemory>
        ensures adds { OnOk result (AddsAny self.old self.new) }
        ensures number { IfOk result (λ n. HasIf is_assigned self.new.vars (want (own_name names.now process.now (codes "$$exit")) width) n) }
        ensures own { self.new.own.items ≡ self.old.own.items }
    {
        if !is_assigned {
            return Ok(UNDECLARED);
        }
        let name = named(alloc, names, process, b"$$exit")?;
        self.inner(name, width)
    }

    // A variable that is no port; its number.
    fn inner(&mut self, name: Text, width: u32) -> Result<u32, NoMemory>
        ensures adds { OnOk result (AddsAny self.old self.new) }
        ensures number { IfOk result (λ n. HasIf true self.new.vars (want name width) n) }
        ensures own { self.new.own.items ≡ self.old.own.items }
    {
        let dir = Dir::Inner;
        let id = self.put(SvVar { name, width, dir })?;
        Ok(id)
    }
}

// The numbers of a process's own variables, as the blocks use them.
fn own_of(
    alloc: Global,
    exit: u32,
    mut temporaries: Vec<u32>,
    state: Pair,
    counter: Pair,
) -> Result<Own, NoMemory>
    ensures next { IfOk result (λ o. o.next.items ≡ exit ∷ temporaries.items) }
    ensures last { IfOk result (λ o. o.last.items ≡ state.now ∷ state.next ∷ counter.now ∷ counter.next ∷ []) }
{
    let mut next = Vec::new(alloc);
    push(&mut next, exit)?;
    next.append(&mut temporaries)?;
    let mut last = Vec::new(alloc);
    push(&mut last, state.now)?;
    push(&mut last, state.next)?;
    push(&mut last, counter.now)?;
    push(&mut last, counter.next)?;
    Ok(Own { next, last })
}

// The number behind those of these locals in their process.
fn behind(cells: &[Cell], locals: &[u32]) -> Result<u32, NoMemory>
    ensures { IfOk result (λ n. AreBefore cells.now locals.now n) }
{
    let mut first = 0;
    for at in locals {
        let number = local_number(cells, *at)?;
        first = next(number)?.max(first);
    }
    Ok(first)
}

// The number of a local in its process.
fn local_number(cells: &[Cell], at: u32) -> Result<u32, NoMemory>
    ensures { IfOk result (λ n. local_at cells.now at ≡ Some n) }
{
    let Some(cell) = cells.get(at as usize) else {
        return Err(lost());
    };
    match cell.name.local {
        Some((number, _)) => Ok(number),
        None => Err(lost()),
    }
}

// The process's name with an end.
fn named(alloc: Global, names: &Names, process: &CoreProcess, end: &[u8]) -> Result<Text, NoMemory>
    ensures { IfOk result (λ t. t ≡ own_name names.now process.now end.now) }
{
    let mut name = sv_name(alloc, names, &process.name)?;
    name.push_bytes(end)?;
    Ok(name)
}

fn temporary_text(
    alloc: Global,
    names: &Names,
    process: &CoreProcess,
    number: u32,
) -> Result<Text, NoMemory>
    ensures { IfOk result (λ t. t ≡ temporary_name names.now process.now number) }
{
    let mut name = named(alloc, names, process, b"$")?;
    let mut buffer = Buffer::new();
    name.push_bytes(buffer.format(number).as_bytes())?;
    name.push_bytes(b"$index")?;
    Ok(name)
}

// The direction of a port of the top.
fn direction(sort: &CellSort) -> Option<Dir>
    ensures { result ≡ direction_of sort.now }
{
    match sort {
        CellSort::Input => Some(Dir::Input),
        CellSort::Output => Some(Dir::Output),
        _ => None,
    }
}

// The number of the next cell.
fn next(at: u32) -> Result<u32, NoMemory>
    ensures { IfOk result (λ n. n ≡ at + 1) }
{
    match at.checked_add(1) {
        Some(next) => Ok(next),
        None => Err(lost()),
    }
}

// Whether some block assigns the cell or next value of that number.
fn is_assigned(every: &[bool], lowered: usize) -> Result<bool, NoMemory> {
    match every.get(lowered) {
        Some(is) => Ok(*is),
        None => Err(lost()),
    }
}

// A cell's variable.
fn variable(alloc: Global, names: &Names, cell: &Cell, dir: Dir) -> Result<SvVar, NoMemory>
    ensures { IfOk result (λ v. v ≡ variable_of names.now cell.now dir) }
{
    let name = sv_name(alloc, names, &cell.name)?;
    let width = width(cell.kind);
    Ok(SvVar { name, width, dir })
}

// The variable of a cell's next value.
fn next_variable(alloc: Global, names: &Names, cell: &Cell) -> Result<SvVar, NoMemory>
    ensures { IfOk result (λ v. v ≡ next_variable_of names.now cell.now) }
{
    let mut name = sv_name(alloc, names, &cell.name)?;
    name.push_bytes(b"$$n")?;
    let width = width(cell.kind);
    let dir = Dir::Inner;
    Ok(SvVar { name, width, dir })
}
