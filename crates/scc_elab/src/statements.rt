//! Statements of constructors, by a stack of what is still to be done.
use crate::args::target_of;
use crate::bind::bind;
use crate::elements::{next_element, next_of_vector};
use crate::make::make_new;
use crate::members::{make_direct, next_group, next_member};
use crate::processes::{declare, reset, sense_all};
use crate::walk::{FIRM, RAW, location_of, value_of};
use crate::worth::{bit_number, stored};
use scc_base::{Code, NoMemory, Place, Stop, lost};
use scc_bits::Value;
use scc_elab_state::grown::Grown;
use scc_elab_state::numbers::{clear, number_at, put_number, put_pointer};
use scc_elab_state::spots::{LocalOf, SpotId};
use scc_elab_state::things::ThingSort;
use scc_elab_state::work::{Stack, Work};
use scc_plain_tree::{Plain, PlainExpr, PlainLeft, PlainNode, PlainPick, PlainStmt, PlainTarget};

/// Does all that is to be done.
pub fn run<'t>(stack: &mut Stack<'t>, p: &'t Plain, g: &mut Grown) -> Result<(), Stop> {
    for _ in 0..usize::MAX {
        let Some(work) = stack.next() else {
            return Ok(());
        };
        turn(work, p, stack, g)?;
    }
    Err(Stop::from(lost()))
}

fn turn<'t>(
    work: Work<'t>,
    p: &'t Plain,
    stack: &mut Stack<'t>,
    g: &mut Grown,
) -> Result<(), Stop> {
    match work {
        Work::Statements(list) => next_statement(list, p, stack, g),
        Work::Test(s) => statement(s, p, stack, g),
        Work::Others(list) => next_other(list, p, stack, g),
        Work::End => Ok(()),
        Work::Again(body, place) => Ok(again(body, place, stack)?),
        Work::Turn(body, place) => turn_of(body, place, stack, g),
        Work::Members {
            class,
            next,
            group,
            end,
        } => Ok(next_member(class, next, group, end, p, stack, g)?),
        Work::Groups { first, end, others } => Ok(next_group(first, end, others, p, stack, g)?),
        Work::Direct(member, at, args) => make_direct(member, at, args, p, stack, g),
        Work::Elements {
            of,
            sizes,
            next,
            each,
        } => next_element(sizes, of, next, each, p, stack, g),
        Work::Vector {
            of,
            next,
            size,
            base,
            place,
        } => next_of_vector(of, next, size, base, place, p, stack, g),
        Work::Lead { pointer, to } => Ok(g.things.set(pointer, ThingSort::Pointer(Some(to)))?),
        Work::Leave => Ok(leave(g)?),
    }
}

fn leave(g: &mut Grown) -> Result<(), NoMemory> {
    match g.frames.pop() {
        Some(_frame) => Ok(()),
        None => Err(lost()),
    }
}

fn next_statement<'t>(
    list: &'t [PlainStmt],
    p: &'t Plain,
    stack: &mut Stack<'t>,
    g: &mut Grown,
) -> Result<(), Stop> {
    match list {
        [] => Ok(()),
        [s, rest @ ..] => {
            stack.then(Work::Statements(rest))?;
            statement(s, p, stack, g)
        }
    }
}

fn next_other<'t>(
    list: &'t [PlainStmt],
    p: &'t Plain,
    stack: &mut Stack<'t>,
    g: &mut Grown,
) -> Result<(), Stop> {
    match list {
        [] => Ok(()),
        [s, rest @ ..] => {
            stack.then(Work::Others(rest))?;
            match &s.node {
                PlainNode::Make { .. } => Ok(()),
                _ => statement(s, p, stack, g),
            }
        }
    }
}

// A statement of a constructor. Refused as E404 where none may hold it.
fn statement<'t>(
    s: &'t PlainStmt,
    p: &'t Plain,
    stack: &mut Stack<'t>,
    g: &mut Grown,
) -> Result<(), Stop> {
    match &s.node {
        PlainNode::Declare(local) => Ok(begin_local(*local, g)?),
        PlainNode::Assign { left, value } => assign(left, value, p, g),
        PlainNode::Point { left, target } => point(left, target, s.place, p, g),
        PlainNode::If { test, yes, no } => {
            branch(test, yes.as_slice(), no.as_slice(), p, stack, g)
        }
        PlainNode::Block(body) => Ok(begin_block(body.as_slice(), stack)?),
        PlainNode::Loop { body, .. } => Ok(stack.then(Work::Again(body.as_slice(), s.place))?),
        PlainNode::Exit(n) => Ok(exit(*n, stack)?),
        PlainNode::Make { left, base, args } => {
            make_new(left, *base, args.as_slice(), s.place, p, stack, g)
        }
        _ => building(s, p, g),
    }
}

fn branch<'t>(
    test: &PlainExpr,
    yes: &'t [PlainStmt],
    no: &'t [PlainStmt],
    p: &'t Plain,
    stack: &mut Stack<'t>,
    g: &mut Grown,
) -> Result<(), Stop> {
    let taken = if value_of(test, p, g)?.is_true() {
        yes
    } else {
        no
    };
    Ok(stack.then(Work::Statements(taken))?)
}

fn begin_block<'t>(body: &'t [PlainStmt], stack: &mut Stack<'t>) -> Result<(), NoMemory> {
    stack.then(Work::End)?;
    stack.then(Work::Statements(body))
}

fn building(s: &PlainStmt, p: &Plain, g: &mut Grown) -> Result<(), Stop> {
    match &s.node {
        PlainNode::Bind { port, to } => bind(port, to, s.place, p, g),
        PlainNode::Process {
            thread,
            function,
            edge,
        } => declare(edge, *thread, *function, s.place, p, g),
        PlainNode::Sense(list) => sense_all(list.as_slice(), s.place, p, g),
        PlainNode::Quiet => sense_all(&[], s.place, p, g),
        PlainNode::Reset {
            signal,
            level,
            asynchronous,
        } => reset(signal, level, *asynchronous, s.place, p, g),
        // E404.
        _ => Err(Stop::refused(Code::Constructor, s.place)),
    }
}

fn begin_local(local: u32, g: &mut Grown) -> Result<(), NoMemory> {
    let frame = g.frame()?;
    let Some(function) = frame.function else {
        return Err(lost());
    };
    clear(
        g,
        LocalOf {
            object: frame.object,
            function,
            local,
        },
    )
}

// Leaves the block of that number, counted outward from 0.
fn exit(n: u32, stack: &mut Stack<'_>) -> Result<(), NoMemory> {
    let mut left = n;
    for _ in 0..usize::MAX {
        match stack.next() {
            None => return Err(lost()),
            Some(Work::Leave) => return Err(lost()),
            Some(Work::End) => {
                if left == 0 {
                    return Ok(());
                }
                left -= 1;
            }
            Some(_) => {}
        }
    }
    Err(lost())
}

// A loop whose body begins with its own test counts a turn where the test lets it in.
fn again<'t>(body: &'t [PlainStmt], place: Place, stack: &mut Stack<'t>) -> Result<(), NoMemory> {
    stack.then(Work::Turn(body, place))?;
    match test_of(body) {
        Some((test, _rest)) => stack.then(Work::Test(test)),
        None => Ok(()),
    }
}

fn turn_of<'t>(
    body: &'t [PlainStmt],
    place: Place,
    stack: &mut Stack<'t>,
    g: &mut Grown,
) -> Result<(), Stop> {
    g.turn(place)?;
    stack.then(Work::Again(body, place))?;
    let rest = match test_of(body) {
        Some((_test, rest)) => rest,
        None => body,
    };
    Ok(stack.then(Work::Statements(rest))?)
}

fn test_of(body: &[PlainStmt]) -> Option<(&PlainStmt, &[PlainStmt])> {
    match body {
        [] => None,
        [first, rest @ ..] => match &first.node {
            PlainNode::If { .. } => Some((first, rest)),
            _ => None,
        },
    }
}

// The left side's location and the number of a bit there, then the value. What names no variable takes nothing.
fn assign(left: &PlainLeft, value: &PlainExpr, p: &Plain, g: &mut Grown) -> Result<(), Stop> {
    let located = location_of(left, FIRM, p, g)?;
    let index = match &left.pick {
        Some(PlainPick::Bit { at: index, .. }) => Some(value_of(index, p, g)?),
        Some(PlainPick::Range { .. }) | None => None,
    };
    let new = value_of(value, p, g)?;
    let Some(at) = located.at else {
        return Err(Stop::from(lost()));
    };
    let Some(old) = number_at(g, at, p)? else {
        return Ok(());
    };
    Ok(put_number(g, at, picked(left.pick.as_ref(), index, old, new)?)?)
}

// The whole number after an assignment to a part of it; a bit past its end is none.
fn picked(
    pick: Option<&PlainPick>,
    index: Option<Value>,
    old: Value,
    new: Value,
) -> Result<Value, NoMemory> {
    match pick {
        None => stored(new, old.kind()),
        Some(PlainPick::Range { h, l, .. }) => replaced(old, *h, *l, new.word().bits),
        Some(PlainPick::Bit { .. }) => match index.and_then(|i| bit_number(old, i)) {
            Some(bit) => replaced(old, bit, bit, u128::from(new.is_true())),
            None => Ok(old),
        },
    }
}

fn replaced(old: Value, h: u32, l: u32, bits: u128) -> Result<Value, NoMemory> {
    match old.replaced(h, l, bits) {
        Some(value) => Ok(value),
        None => Err(lost()),
    }
}

// A pointer or reference is given something. A member is not given a local variable (E404).
fn point(
    left: &PlainLeft,
    target: &PlainTarget,
    place: Place,
    p: &Plain,
    g: &mut Grown,
) -> Result<(), Stop> {
    let located = location_of(left, RAW, p, g)?;
    let to = target_of(target, p, g)?;
    let Some(at) = located.at else {
        return Err(Stop::from(lost()));
    };
    if g.spots.local_of(at)?.is_none() && is_local(to, g)? {
        return Err(Stop::refused(Code::Constructor, place));
    }
    Ok(put_pointer(g, at, to, p)?)
}

fn is_local(to: Option<SpotId>, g: &Grown) -> Result<bool, NoMemory> {
    match to {
        Some(to) => Ok(g.spots.local_of(to)?.is_some()),
        None => Ok(false),
    }
}
