//! What is known of each function before it is copied: its size, its height, its waits and its loops.
ghost use Rattle.std.specs.Prelude.{◌≡◌, ◌+◌, ◌<◌, ◌∷◌, ◌++◌, ℕ, List, [], length, max, slice_get, slice_set, is_some, true, IsTrue, IfOk, OnOk, Some};
ghost use Rattle.scc_elab_spec.specs.Program.{Function as FunctionOf, Plain as ProgramOf};
ghost use Rattle.scc_inline_size_laws.specs.Counts.{height_in, size_in};
ghost use Rattle.scc_plain_view.specs.Codes.{code_of};
ghost use Rattle.scc_plain_view.specs.Plains.{function_of, plain_of};
ghost use Rattle.scc_inline_facts.specs.Extents.{reaching};
ghost use Rattle.scc_inline_facts.specs.Known.{Agrees, AreAll, AreFacts, AreKnown, IsSet, Tells};
ghost use Rattle.scc_inline_facts.specs.Parted.{list_height, list_size};
ghost use Rattle.scc_inline_facts.specs.Walked.{Comes_to, task_height, task_size, waiting_height, waiting_size};

use crate::counts::{Site, facts_at, with_own};
use crate::extent::Extent;
use crate::order::ordered;
use crate::parts::{Parts, parts_of};
use crate::whole::alone;
use scc_base::{List, NoMemory, lost, push};
use scc_plain_tree::{Plain, PlainArg, PlainFunction, PlainNode, PlainStmt, PlainTarget};
use std::alloc::Global;

/// What is known of a function whose calls are copied.
#[derive(Drop)]
pub struct Facts {
    /// What its body comes to with its calls copied.
    pub extent: Extent,
    waits: bool,
    /// Of each loop in text order whether it has a counter that nothing else changes, and no wait.
    pub loops: List<bool>,
    /// Of each local whether it is declared without a value.
    pub declared: List<bool>,
}

// What is known of a loop when its end is met.
#[derive(Clone, Copy)]
struct Seen {
    counter: Option<u32>,
    waits: bool,
}

// A loop whose end isn't met yet.
#[derive(Clone, Copy)]
struct Open {
    number: usize,
    waits: u64,
}

// What is known of a local so far.
#[derive(Clone, Copy)]
struct Uses {
    writes: u32,
    aimed: bool,
    declared: bool,
}

// What is still to be looked at: statements, each of which stands in so many others, or the end of a loop.
#[derive(Clone, Copy)]
enum Task<'t> {
    Statements(&'t [PlainStmt], u32),
    LoopEnd,
}

// A function that is looked at.
#[derive(Drop)]
struct Look {
    extent: Extent,
    noted: Noted,
}

#[derive(Drop)]
struct Noted {
    /// How many waits were met.
    waits: u64,
    loops: Vec<Seen>,
    open: Vec<Open>,
    locals: Vec<Uses>,
}

/// What is known of each function. Those that a function calls are looked at before it.
pub fn all_facts(alloc: Global, plain: &Plain) -> Result<Vec<Option<Facts>>, NoMemory>
    ensures { IfOk result (λ known. AreFacts (plain_of plain.now) known.items) }
{
    let mut known = none_known(alloc, plain)?;
    look_at_all(alloc, plain, &mut known)?;
    if all_told(plain, known.as_slice()) {
        Ok(known)
    } else {
        Err(lost())
    }
}

// Whether each function of the program is known.
fn all_told(plain: &Plain, known: &[Option<Facts>]) -> bool
    ensures { IsTrue result → AreKnown (plain_of plain.now) known.now → AreFacts (plain_of plain.now) known.now }
{
    if known.len() == plain.functions.len() {
        all_known(known)
    } else {
        false
    }
}

fn none_known(alloc: Global, plain: &Plain) -> Result<Vec<Option<Facts>>, NoMemory>
    ensures { IfOk result (λ known. AreKnown (plain_of plain.now) known.items) }
{
    let mut known = Vec::new(alloc);
    for _ in plain.functions.as_slice() {
        push(&mut known, None)?;
    }
    Ok(known)
}

fn look_at_all(alloc: Global, plain: &Plain, known: &mut Vec<Option<Facts>>) -> Result<(), NoMemory>
    ensures { OnOk result (AreKnown (plain_of plain.now) known.old.items → AreKnown (plain_of plain.now) known.new.items) }
{
    let order = ordered(alloc, plain)?;
    for number in order.as_slice() {
        look_at(alloc, plain, *number, known)?;
    }
    Ok(())
}

fn look_at(
    alloc: Global,
    plain: &Plain,
    number: u32,
    known: &mut Vec<Option<Facts>>,
) -> Result<(), NoMemory>
    ensures { OnOk result (AreKnown (plain_of plain.now) known.old.items → AreKnown (plain_of plain.now) known.new.items) }
{
    let Some(function) = plain.functions.get(number as usize) else {
        return Err(lost());
    };
    let own = looked_at(alloc, plain, function, known.as_slice())?;
    set(known, number, own)
}

// What is known of one function more.
fn set(known: &mut Vec<Option<Facts>>, number: u32, own: Facts) -> Result<(), NoMemory>
    ensures { OnOk result (IsSet known.old.items known.new.items number own) }
{
    match known.get_mut(number as usize) {
        Some(slot) => {
            if slot.is_some() {
                return Err(lost());
            }
            *slot = Some(own);
            Ok(())
        }
        None => Err(lost()),
    }
}

// Whether all functions are known.
fn all_known(known: &[Option<Facts>]) -> bool
    ensures { IsTrue result → AreAll known.now }
{
    for facts in known {
        if facts.is_none() {
            return false;
        }
    }
    true
}

fn looked_at(
    alloc: Global,
    plain: &Plain,
    function: &PlainFunction,
    known: &[Option<Facts>],
) -> Result<Facts, NoMemory>
    ensures { IfOk result (λ x. Tells known.now (plain_of plain.now) (function_of function.now) x) }
{
    let site = Site {
        alloc,
        known,
        plain,
        function,
    };
    let mut look = Look {
        extent: Extent::none(),
        noted: Noted::begun(alloc, function)?,
    };
    look.body(&site, function.body.as_slice())?;
    look.done(alloc)
}

impl Look {
    // All statements of a body, at every depth.
    fn body(&mut self, s: &Site, body: &[PlainStmt]) -> Result<(), NoMemory>
        ensures { (sizes heights : ℕ → ℕ) → Agrees s.now.known.now sizes heights → OnOk result (Comes_to sizes heights (plain_of s.now.plain.now) (function_of s.now.function.now) self.new.extent [] (self.old.extent.size + size_in sizes (plain_of s.now.plain.now) (function_of s.now.function.now) (code_of body.now)) (max self.old.extent.height (height_in heights (plain_of s.now.plain.now) (function_of s.now.function.now) (code_of body.now)))) }
    {
        let mut tasks = List::new(s.alloc);
        tasks.push(Task::Statements(body, 0))?;
        for _ in 0..usize::MAX {
            let Some(task) = tasks.pop() else {
                return Ok(());
            };
            self.turn(s, task, &mut tasks)?;
        }
        Err(lost())
    }

    fn turn<'t>(
        &mut self,
        s: &Site,
        task: Task<'t>,
        tasks: &mut List<Task<'t>>,
    ) -> Result<(), NoMemory>
        ensures { (sizes heights : ℕ → ℕ) → Agrees s.now.known.now sizes heights → OnOk result (Comes_to sizes heights (plain_of s.now.plain.now) (function_of s.now.function.now) self.new.extent tasks.new (self.old.extent.size + (task_size sizes (plain_of s.now.plain.now) (function_of s.now.function.now) task.entry + waiting_size sizes (plain_of s.now.plain.now) (function_of s.now.function.now) tasks.old)) (max self.old.extent.height (max (task_height heights (plain_of s.now.plain.now) (function_of s.now.function.now) task.entry) (waiting_height heights (plain_of s.now.plain.now) (function_of s.now.function.now) tasks.old)))) }
    {
        match task {
            Task::Statements(list, depth) => self.statements(s, list, depth, tasks),
            Task::LoopEnd => self.noted.loop_end(),
        }
    }

    // The beginning of a list is looked at, behind which the rest of it comes.
    fn statements<'t>(
        &mut self,
        s: &Site,
        list: &'t [PlainStmt],
        depth: u32,
        tasks: &mut List<Task<'t>>,
    ) -> Result<(), NoMemory>
        ensures { (sizes heights : ℕ → ℕ) → Agrees s.now.known.now sizes heights → OnOk result (Comes_to sizes heights (plain_of s.now.plain.now) (function_of s.now.function.now) self.new.extent tasks.new (self.old.extent.size + (size_in sizes (plain_of s.now.plain.now) (function_of s.now.function.now) (code_of list.now) + waiting_size sizes (plain_of s.now.plain.now) (function_of s.now.function.now) tasks.old)) (max self.old.extent.height (max (reaching depth (height_in heights (plain_of s.now.plain.now) (function_of s.now.function.now) (code_of list.now))) (waiting_height heights (plain_of s.now.plain.now) (function_of s.now.function.now) tasks.old)))) }
    {
        match list {
            [] => Ok(()),
            [first, rest @ ..] => {
                tasks.push(Task::Statements(rest, depth))?;
                let parts = parts_of(first);
                self.extent = with_own(s, &parts, depth, self.extent)?;
                self.noted.stmt(s, first)?;
                enter(first, &parts, depth.saturating_add(1), tasks)
            }
        }
    }

    fn done(self, alloc: Global) -> Result<Facts, NoMemory>
        ensures { IfOk result (λ x. x.extent ≡ self.extent) }
    {
        let Look { extent, noted } = self;
        let declared = noted.declared(alloc)?;
        let loops = noted.counting(alloc)?;
        Ok(Facts {
            extent,
            waits: noted.waits > 0,
            loops,
            declared,
        })
    }
}

// The lists that a statement holds are to be looked at, and then the end of a loop.
fn enter<'t>(
    first: &PlainStmt,
    parts: &Parts<'t>,
    depth: u32,
    tasks: &mut List<Task<'t>>,
) -> Result<(), NoMemory>
    ensures size { OnOk result ((sizes : ℕ → ℕ) (p : ProgramOf) (f : FunctionOf) → waiting_size sizes p f tasks.new ≡ (list_size sizes p f parts.now.first + list_size sizes p f parts.now.second) + waiting_size sizes p f tasks.old) }
    ensures height { OnOk result ((heights : ℕ → ℕ) (p : ProgramOf) (f : FunctionOf) → waiting_height heights p f tasks.new ≡ max (max (reaching depth (list_height heights p f parts.now.first)) (reaching depth (list_height heights p f parts.now.second))) (waiting_height heights p f tasks.old)) }
{
    end(first, tasks)?;
    put(parts.second, depth, tasks)?;
    put(parts.first, depth, tasks)
}

fn end<'t>(first: &PlainStmt, tasks: &mut List<Task<'t>>) -> Result<(), NoMemory>
    ensures size { OnOk result ((sizes : ℕ → ℕ) (p : ProgramOf) (f : FunctionOf) → waiting_size sizes p f tasks.new ≡ waiting_size sizes p f tasks.old) }
    ensures height { OnOk result ((heights : ℕ → ℕ) (p : ProgramOf) (f : FunctionOf) → waiting_height heights p f tasks.new ≡ waiting_height heights p f tasks.old) }
{
    match &first.node {
        PlainNode::Loop { .. } => tasks.push(Task::LoopEnd),
        _ => Ok(()),
    }
}

fn put<'t>(
    list: Option<&'t [PlainStmt]>,
    depth: u32,
    tasks: &mut List<Task<'t>>,
) -> Result<(), NoMemory>
    ensures size { OnOk result ((sizes : ℕ → ℕ) (p : ProgramOf) (f : FunctionOf) → waiting_size sizes p f tasks.new ≡ list_size sizes p f list.entry + waiting_size sizes p f tasks.old) }
    ensures height { OnOk result ((heights : ℕ → ℕ) (p : ProgramOf) (f : FunctionOf) → waiting_height heights p f tasks.new ≡ max (reaching depth (list_height heights p f list.entry)) (waiting_height heights p f tasks.old)) }
{
    match list {
        Some(list) => tasks.push(Task::Statements(list, depth)),
        None => Ok(()),
    }
}

impl Noted {
    fn begun(alloc: Global, function: &PlainFunction) -> Result<Noted, NoMemory> {
        let mut locals = Vec::new(alloc);
        for _ in function.locals.as_slice() {
            let nothing = Uses {
                writes: 0,
                aimed: false,
                declared: false,
            };
            push(&mut locals, nothing)?;
        }
        Ok(Noted {
            waits: 0,
            loops: Vec::new(alloc),
            open: Vec::new(alloc),
            locals,
        })
    }

    fn stmt(&mut self, site: &Site, s: &PlainStmt) -> Result<(), NoMemory> {
        match &s.node {
            PlainNode::Declare(local) => {
                if let Some(uses) = self.locals.get_mut(*local as usize) {
                    uses.declared = true;
                }
            }
            PlainNode::Call {
                function: callee,
                args,
                ..
            } => {
                self.call(site, *callee)?;
                for arg in args.as_slice() {
                    if let PlainArg::Target(target) = arg {
                        self.aim(target);
                    }
                }
            }
            PlainNode::Loop { count, .. } => {
                let number = self.loops.len();
                let counter = count.as_ref().map(|c| c.counter);
                push(
                    &mut self.loops,
                    Seen {
                        counter,
                        waits: false,
                    },
                )?;
                let waits = self.waits;
                push(&mut self.open, Open { number, waits })?;
            }
            PlainNode::Wait(_) => self.waits = self.waits.saturating_add(1),
            PlainNode::Assign { left, .. } => {
                if let Some(local) = alone(left)
                    && let Some(uses) = self.locals.get_mut(local as usize)
                {
                    uses.writes = uses.writes.saturating_add(1);
                }
            }
            PlainNode::Point { target, .. } => self.aim(target),
            _ => {}
        }
        Ok(())
    }

    fn call(&mut self, site: &Site, callee: u32) -> Result<(), NoMemory> {
        let known = facts_at(site.known, callee)?;
        if known.waits {
            self.waits = self.waits.saturating_add(1);
        }
        Ok(())
    }

    fn loop_end(&mut self) -> Result<(), NoMemory> {
        let open = self.open.pop().ok_or(lost())?;
        let waits = open.waits != self.waits;
        let seen = self.loops.get_mut(open.number).ok_or(lost())?;
        seen.waits = waits;
        Ok(())
    }

    fn aim(&mut self, target: &PlainTarget) {
        let aimed = match target {
            PlainTarget::Null => None,
            PlainTarget::Address(left) | PlainTarget::Copy(left) => alone(left),
        };
        if let Some(local) = aimed
            && let Some(uses) = self.locals.get_mut(local as usize)
        {
            uses.aimed = true;
        }
    }

    fn declared(&self, alloc: Global) -> Result<List<bool>, NoMemory> {
        let mut declared = List::new(alloc);
        for uses in &self.locals {
            declared.push(uses.declared)?;
        }
        Ok(declared)
    }

    // The initial value and the step are the two assignments of a counter.
    fn counting(&self, alloc: Global) -> Result<List<bool>, NoMemory> {
        let mut loops = List::new(alloc);
        for seen in &self.loops {
            let counts = seen.counter.and_then(|c| self.locals.get(c as usize));
            loops.push(!seen.waits && counts.is_some_and(|u| u.writes <= 2 && !u.aimed))?;
        }
        Ok(loops)
    }
}
