//! The variables that blocks mention and assign.
use scc_base::{NoMemory, lost, push};
use scc_svtree::{SvArm, SvBlock, SvExpr, SvExprNode, SvLeft, SvReset, SvSet, SvStmt, VarId};
use std::alloc::Global;

/// The variables of a block, as often as they stand.
#[derive(Drop)]
pub struct Mentions {
    /// Those that it mentions.
    pub all: Vec<usize>,
    /// Those of them that it assigns.
    pub assigned: Vec<usize>,
}

#[derive(Clone, Copy)]
enum Task<'a> {
    Stmts(&'a [SvStmt]),
    Arms(&'a [SvArm]),
    Expr(&'a SvExpr),
    Exprs(&'a [SvExpr]),
}

fn var_of(l: &SvLeft) -> usize {
    match l {
        SvLeft::Whole(v) => v.0 as usize,
        SvLeft::Bit { var, .. } => var.0 as usize,
        SvLeft::Range { var, .. } => var.0 as usize,
    }
}

impl Mentions {
    fn reads(&mut self, v: usize) -> Result<(), NoMemory> {
        push(&mut self.all, v)
    }

    fn assigns(&mut self, v: usize) -> Result<(), NoMemory> {
        push(&mut self.all, v)?;
        push(&mut self.assigned, v)
    }
}

fn expr<'a>(
    e: &'a SvExpr,
    found: &mut Mentions,
    tasks: &mut Vec<Task<'a>>,
) -> Result<(), NoMemory> {
    match e.node.get() {
        SvExprNode::Literal(_) => Ok(()),
        SvExprNode::Left(l) => found.reads(var_of(l)),
        SvExprNode::Unary { of, .. } => push(tasks, Task::Expr(of)),
        SvExprNode::Binary { left, right, .. } => {
            push(tasks, Task::Expr(right))?;
            push(tasks, Task::Expr(left))
        }
        SvExprNode::Cond { test, yes, no } => {
            push(tasks, Task::Expr(no))?;
            push(tasks, Task::Expr(yes))?;
            push(tasks, Task::Expr(test))
        }
        SvExprNode::Concat(list) => push(tasks, Task::Exprs(list.as_slice())),
        SvExprNode::Cast { of, .. } => push(tasks, Task::Expr(of)),
        SvExprNode::Sign { of, .. } => push(tasks, Task::Expr(of)),
    }
}

fn stmt<'a>(
    s: &'a SvStmt,
    found: &mut Mentions,
    tasks: &mut Vec<Task<'a>>,
) -> Result<(), NoMemory> {
    match s {
        SvStmt::Assign { left, value } => {
            found.assigns(var_of(left))?;
            push(tasks, Task::Expr(value))
        }
        SvStmt::If { test, yes, no } => {
            push(tasks, Task::Stmts(no.as_slice()))?;
            push(tasks, Task::Stmts(yes.as_slice()))?;
            push(tasks, Task::Expr(test))
        }
        SvStmt::Case { of, arms } => {
            push(tasks, Task::Arms(arms.as_slice()))?;
            push(tasks, Task::Expr(of))
        }
    }
}

fn step<'a>(
    task: Task<'a>,
    found: &mut Mentions,
    tasks: &mut Vec<Task<'a>>,
) -> Result<(), NoMemory> {
    match task {
        Task::Stmts(list) => {
            for s in list {
                stmt(s, found, tasks)?;
            }
            Ok(())
        }
        Task::Arms(list) => {
            for arm in list {
                push(tasks, Task::Stmts(arm.body.as_slice()))?;
            }
            Ok(())
        }
        Task::Expr(e) => expr(e, found, tasks),
        Task::Exprs(list) => {
            for e in list {
                expr(e, found, tasks)?;
            }
            Ok(())
        }
    }
}

// All that a task leads to.
fn run(alloc: Global, first: Task<'_>, found: &mut Mentions) -> Result<(), NoMemory> {
    let mut tasks = Vec::new(alloc);
    push(&mut tasks, first)?;
    for _ in 0..usize::MAX {
        match tasks.pop() {
            Some(task) => step(task, found, &mut tasks)?,
            None => return Ok(()),
        }
    }
    Err(lost())
}

fn sets(alloc: Global, list: &[SvSet], found: &mut Mentions) -> Result<(), NoMemory> {
    for s in list {
        found.assigns(s.target.0 as usize)?;
        run(alloc, Task::Expr(&s.value), found)?;
    }
    Ok(())
}

fn reset_of(r: &SvReset, found: &mut Mentions) -> Result<(), NoMemory> {
    found.reads(r.signal.0 as usize)?;
    for load in r.values.as_slice() {
        found.assigns(load.target.0 as usize)?;
    }
    Ok(())
}

fn edge(
    alloc: Global,
    clock: VarId,
    reset: &Option<SvReset>,
    list: &[SvSet],
    found: &mut Mentions,
) -> Result<(), NoMemory> {
    found.reads(clock.0 as usize)?;
    if let Some(r) = reset {
        reset_of(r, found)?;
    }
    sets(alloc, list, found)
}

/// The variables of a block.
pub fn vars_of(alloc: Global, b: &SvBlock) -> Result<Mentions, NoMemory> {
    let mut found = Mentions {
        all: Vec::new(alloc),
        assigned: Vec::new(alloc),
    };
    match b {
        SvBlock::Comb(list) => run(alloc, Task::Stmts(list.as_slice()), &mut found)?,
        SvBlock::Edge {
            clock,
            reset,
            sets: list,
            ..
        } => edge(alloc, *clock, reset, list.as_slice(), &mut found)?,
    }
    Ok(found)
}
