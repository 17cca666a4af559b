//! Whole programs. Statements are gone through by a stack of what is still to come, as a `switch` nests as many blocks as it has labels.
ghost use Rattle.std.specs.Prelude.{◌≡◌, ◌∷◌, ◌++◌, [], map, ℕ, List, IfOk, IfSome, None, OnOk, Some, true, option_and_then};
ghost use Rattle.std.specs.List.{list_all};
ghost use Rattle.scc_plain_tree.specs.declared.program.Plain.{Plain};
ghost use Rattle.scc_plain_tree.specs.declared.program.PlainFunction.{PlainFunction};
ghost use Rattle.scc_plain_look.specs.Held.{around};
ghost use Rattle.scc_plain_look.specs.Pending.{later, pending};
ghost use Rattle.scc_plain_look.specs.Steps as look;
ghost use Rattle.scc_plain_look.specs.Whole as whole;

use crate::declared::{are_whole_classes, are_whole_heads};
use crate::demand::demand;
use crate::expression::look_value;
use crate::scope::Scope;
use crate::single::{
    look_arguments, look_assign, look_bind, look_call, look_count_if, look_make, look_point,
    look_process, look_reset, look_senses, look_value_if, look_write,
};
use scc_base::{List, NoMemory, lost, push};
use scc_plain_tree::{Plain, PlainFunction, PlainNode, PlainStmt};
use std::alloc::Global;

// Statements that are still to come, inside so many blocks.
#[derive(Clone, Copy)]
struct Task<'t> {
    list: &'t [PlainStmt],
    depth: u32,
}

// The statements in a statement.
#[derive(Clone, Copy)]
struct Inner<'t> {
    first: &'t [PlainStmt],
    second: &'t [PlainStmt],
    // The blocks round the first ones.
    depth: u32,
}

// A statement and those behind it.
#[derive(Clone, Copy)]
struct Front<'t> {
    first: &'t PlainStmt,
    rest: &'t [PlainStmt],
}

fn split(list: &[PlainStmt]) -> Option<Front<'_>>
    ensures some { IfSome result (λ n. list.now ≡ n.first.now ∷ n.rest.now) }
    ensures none { result ≡ None → list.now ≡ [] }
{
    match list {
        [] => None,
        [first, rest @ ..] => Some(Front { first, rest }),
    }
}

// A statement by itself, inside so many blocks.
fn look_node(s: &Scope, node: &PlainNode, depth: u32) -> Result<(), NoMemory>
    ensures whole { IfOk result (λ u. (look.node_seen s.now.plain.now s.now.function.now node.now).asked depth (around s.now.plain.now s.now.function.now s.now.calls.now) ≡ true) }
{
    match node {
        PlainNode::Declare(n) => demand((*n as usize) < s.function.locals.len()),
        PlainNode::Assign { left, value } => look_assign(s, left, value),
        PlainNode::Point { left, target } => look_point(s, left, target),
        PlainNode::Write { to, value } => look_write(s, to, value),
        PlainNode::Call {
            number,
            function,
            object,
            args,
        } => look_call(s, *number, *function, object, args.as_slice()),
        PlainNode::If { test, .. } => look_value(s, test),
        PlainNode::Loop { count, .. } => look_count_if(s, count),
        PlainNode::Block(_) => Ok(()),
        PlainNode::Exit(n) => demand(*n < depth),
        PlainNode::Return(value) => look_value_if(s, value),
        PlainNode::Wait(n) => demand(1 <= *n && *n <= 65_535),
        PlainNode::Make { left, base, args } => look_make(s, left, *base, args.as_slice()),
        PlainNode::Bind { port, to } => look_bind(s, port, to),
        PlainNode::Process { function, edge, .. } => look_process(s, *function, edge),
        PlainNode::Sense(list) => look_senses(s, list.as_slice()),
        PlainNode::Quiet => Ok(()),
        PlainNode::Reset { signal, level, .. } => look_reset(s, signal, level),
    }
}

// The function that a statement calls.
fn called(_s: &Scope, node: &PlainNode) -> Option<u32>
    ensures { result ≡ (look.node_seen _s.now.plain.now _s.now.function.now node.now).called }
{
    match node {
        PlainNode::Call { function, .. } => Some(*function),
        _ => None,
    }
}

fn with_call(function: Option<u32>, calls: &mut List<u32>) -> Result<(), NoMemory>
    ensures { OnOk result (calls.new ≡ look.with_call function calls.old) }
{
    match function {
        Some(function) => calls.push(function),
        None => Ok(()),
    }
}

// A statement by itself, with the calls so far.
fn look_stmt(
    alloc: Global,
    p: &Plain,
    f: &PlainFunction,
    s: &PlainStmt,
    depth: u32,
    calls: &mut List<u32>,
) -> Result<(), NoMemory>
    ensures whole { OnOk result (look.here p.now f.now (look.seen p.now f.now s.now) depth calls.old ≡ Some calls.new) }
{
    let scope = Scope {
        alloc,
        plain: p,
        function: f,
        calls: calls.as_slice(),
    };
    look_node(&scope, &s.node, depth)?;
    let function = called(&scope, &s.node);
    with_call(function, calls)
}

fn inner_of(s: &PlainStmt, depth: u32) -> Result<Inner<'_>, NoMemory>
    ensures inner { IfOk result (λ i. (p : Plain) (f : PlainFunction) (calls : List ℕ) → (look.seen p f s.now).inner depth calls ≡ option_and_then (look.seen_each p f i.second.now depth) (look.seen_each p f i.first.now i.depth calls)) }
{
    match &s.node {
        PlainNode::If { yes, no, .. } => Ok(Inner {
            first: yes.as_slice(),
            second: no.as_slice(),
            depth,
        }),
        PlainNode::Loop { body, .. } => Ok(Inner {
            first: body.as_slice(),
            second: &[],
            depth,
        }),
        PlainNode::Block(body) => Ok(Inner {
            first: body.as_slice(),
            second: &[],
            depth: depth.checked_add(1).ok_or(lost())?,
        }),
        _ => Ok(Inner {
            first: &[],
            second: &[],
            depth,
        }),
    }
}

// The next statement of a task, with the calls so far; what is still to come behind it.
#[tactic(auto, using(crate::proofs::Turns::turned_by, crate::proofs::Turns::push_by))]
fn turn<'t>(
    alloc: Global,
    p: &Plain,
    f: &PlainFunction,
    task: Task<'t>,
    tasks: Vec<Task<'t>>,
    calls: &mut List<u32>,
) -> Result<Vec<Task<'t>>, NoMemory>
    ensures turned { IfOk result (λ v. pending p.now f.now (map (λ t. later t.list.now t.depth) v.items) calls.new ≡ pending p.now f.now (map (λ t. later t.list.now t.depth) (tasks.entry.items ++ task.entry ∷ [])) calls.old) }
{
    let Some(next) = split(task.list) else {
        return Ok(tasks);
    };
    let depth = task.depth;
    look_stmt(alloc, p, f, next.first, depth, calls)?;
    let inner = inner_of(next.first, depth)?;
    let mut tasks = tasks;
    let list = next.rest;
    push(&mut tasks, Task { list, depth })?;
    let list = inner.second;
    push(&mut tasks, Task { list, depth })?;
    let list = inner.first;
    let depth = inner.depth;
    push(&mut tasks, Task { list, depth })?;
    Ok(tasks)
}

// Statements with the calls so far.
fn look_list(
    alloc: Global,
    p: &Plain,
    f: &PlainFunction,
    list: &[PlainStmt],
    calls: &mut List<u32>,
) -> Result<(), NoMemory>
    ensures whole { OnOk result (look.seen_each p.now f.now list.now 0 calls.old ≡ Some calls.new) }
{
    let mut tasks = Vec::new(alloc);
    push(&mut tasks, Task { list, depth: 0 })?;
    for _ in 0..usize::MAX {
        let Some(task) = tasks.pop() else {
            return Ok(());
        };
        tasks = turn(alloc, p, f, task, tasks, calls)?;
    }
    Err(lost())
}

fn look_body(alloc: Global, p: &Plain, f: &PlainFunction) -> Result<(), NoMemory>
    ensures whole { IfOk result (λ u. whole.is_whole_body p.now f.now ≡ true) }
{
    let mut calls = List::new(alloc);
    look_list(alloc, p, f, f.inits.as_slice(), &mut calls)?;
    look_list(alloc, p, f, f.body.as_slice(), &mut calls)
}

fn look_bodies(alloc: Global, p: &Plain, list: &[PlainFunction]) -> Result<(), NoMemory>
    ensures whole { IfOk result (λ u. list_all (whole.is_whole_body p.now) list.now ≡ true) }
{
    for f in list {
        look_body(alloc, p, f)?;
    }
    Ok(())
}

/// Looks whether a program is whole; every finished one is.
pub fn look(alloc: Global, p: &Plain) -> Result<(), NoMemory>
    ensures whole { IfOk result (λ u. whole.whole_plain p.now ≡ true) }
{
    let classes = p.classes.len();
    let functions = p.functions.len();
    demand((p.top as usize) < classes)?;
    demand(are_whole_classes(classes, functions, p.classes.as_slice()))?;
    demand(are_whole_heads(classes, p.functions.as_slice()))?;
    look_bodies(alloc, p, p.functions.as_slice())
}
