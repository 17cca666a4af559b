//! Statements of constructors (IEEE 1666-2011, 5.2.9 to 5.2.14). What they name is looked at when the design is built.
ghost use Rattle.std.specs.Prelude.{IfErr};
ghost use Rattle.scc_plain_drafts.specs.Refusals.{MayStop};

use crate::stmts::finish;
use scc_base::{Code, List, Name, Place, Stop};
use scc_plain_bodies::{Body, Flow, FunctionId, PortCall, Subject, Walk, last_args, refuse};
use scc_plain_tree::{PlainNode, PlainSense, PlainStmt};
use scc_templates::{Entry, FunctionKey};
use scc_tree::{Expr, FileTree};

// The function of a process; E301 at its name where the text has no body of it.
fn process_function(
    name: Name,
    at: Place,
    tree: &FileTree,
    w: &mut Walk,
    b: &Body,
) -> Result<FunctionId, Stop>
    ensures stop { IfErr result MayStop }
{
    let Some(found) = w.look_up(name, tree, b) else {
        return refuse(Code::UnknownName, at); // E301
    };
    if found.entry != Entry::Function {
        return refuse(Code::UnknownName, at);
    }
    let key = FunctionKey {
        scope: found.scope,
        name,
        constructor: false,
    };
    match w.function(key, at, tree)? {
        Some(f) => Ok(f),
        None => refuse(Code::UnknownName, at),
    }
}

/// A process, whose function's name stands at `at`.
pub(crate) fn process(
    name: Name,
    at: Place,
    edge: Option<&Expr>,
    thread: bool,
    place: Place,
    tree: &FileTree,
    flow: Flow,
    w: &mut Walk,
    b: &mut Body,
    out: &mut List<PlainStmt>,
) -> Result<(), Stop>
    ensures stop { IfErr result MayStop }
{
    let f = process_function(name, at, tree, w, b)?;
    let edge = match edge {
        Some(e) => Some(sense(e, tree, flow, w, b)?),
        None => None,
    };
    let function = w.number_of(f)?;
    let node = PlainNode::Process {
        thread,
        function,
        edge,
    };
    finish(b, out, place, node)
}

// An entry of a sensitivity list.
fn sense(
    e: &Expr,
    tree: &FileTree,
    flow: Flow,
    w: &mut Walk,
    b: &mut Body,
) -> Result<PlainSense, Stop>
    ensures stop { IfErr result MayStop }
{
    let place = e.place;
    match w.meant(e, tree, flow, b)?.done() {
        Ok((call, of)) => {
            let args = last_args(e);
            w.any_of(args, tree, flow, b)?;
            edge_sense(call, of, args.is_empty(), place)
        }
        Err(m) => Ok(PlainSense {
            place,
            signal: m.location(),
            rising: None,
        }),
    }
}

fn edge_sense(call: PortCall, of: Subject, is_bare: bool, place: Place) -> Result<PlainSense, Stop>
    ensures stop { IfErr result MayStop }
{
    let rising = match call {
        PortCall::Pos => true,
        PortCall::Neg => false,
        _ => return refuse(Code::Mismatch, place), // E304
    };
    if !is_bare {
        return refuse(Code::Mismatch, place);
    }
    Ok(PlainSense {
        place,
        signal: of.location(),
        rising: Some(rising),
    })
}

/// `sensitive`.
pub(crate) fn sensitive(
    list: &[Expr],
    place: Place,
    tree: &FileTree,
    flow: Flow,
    w: &mut Walk,
    b: &mut Body,
    out: &mut List<PlainStmt>,
) -> Result<(), Stop>
    ensures stop { IfErr result MayStop }
{
    let mut senses = List::new(w.alloc);
    for e in list {
        senses.push(sense(e, tree, flow, w, b)?)?;
    }
    finish(b, out, place, PlainNode::Sense(senses))
}

/// `reset_signal_is` and `async_reset_signal_is`.
pub(crate) fn reset(
    signal: &Expr,
    level: &Expr,
    asynchronous: bool,
    place: Place,
    tree: &FileTree,
    flow: Flow,
    w: &mut Walk,
    b: &mut Body,
    out: &mut List<PlainStmt>,
) -> Result<(), Stop>
    ensures stop { IfErr result MayStop }
{
    let signal = w.meant(signal, tree, flow, b)?.location();
    let level = w.test(level, tree, flow, b)?.expr;
    let node = PlainNode::Reset {
        signal,
        level,
        asynchronous,
    };
    finish(b, out, place, node)
}
