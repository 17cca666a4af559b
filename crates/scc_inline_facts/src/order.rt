//! The functions, each behind those that it calls.
use crate::walk::Walk;
use scc_base::{NoMemory, lost, push};
use scc_plain_tree::{Plain, PlainFunction, PlainNode};
use std::alloc::Global;

/// The functions, each behind those that it calls.
pub fn ordered(alloc: Global, plain: &Plain) -> Result<Vec<u32>, NoMemory> {
    let mut calls = Vec::new(alloc);
    let mut entered = Vec::new(alloc);
    for function in plain.functions.as_slice() {
        push(&mut calls, called(alloc, function)?)?;
        push(&mut entered, false)?;
    }
    let mut order = Vec::new(alloc);
    let mut stack: Vec<(u32, usize)> = Vec::new(alloc);
    for root in 0..calls.len() {
        let root = u32::try_from(root).map_err(|_| lost())?;
        enter(&mut stack, entered.as_mut_slice(), root)?;
        for _ in 0..usize::MAX {
            let Some((function, next)) = stack.pop() else {
                break;
            };
            let callees = calls.get(function as usize).ok_or(lost())?;
            match callees.get(next) {
                Some(callee) => {
                    push(&mut stack, (function, next.saturating_add(1)))?;
                    enter(&mut stack, entered.as_mut_slice(), *callee)?;
                }
                None => push(&mut order, function)?,
            }
        }
    }
    Ok(order)
}

// Goes to a function that was not yet gone to.
fn enter(
    stack: &mut Vec<(u32, usize)>,
    entered: &mut [bool],
    function: u32,
) -> Result<(), NoMemory> {
    let Some(flag) = entered.get_mut(function as usize) else {
        return Err(lost());
    };
    if *flag {
        return Ok(());
    }
    *flag = true;
    push(stack, (function, 0))
}

// The functions that a function calls.
fn called(alloc: Global, function: &PlainFunction) -> Result<Vec<u32>, NoMemory> {
    let mut found = Vec::new(alloc);
    let mut walk = Walk::new(alloc, function.body.as_slice())?;
    for _ in 0..usize::MAX {
        let Some(s) = walk.next()? else {
            break;
        };
        if let PlainNode::Call { function, .. } = &s.node {
            push(&mut found, *function)?;
        }
    }
    Ok(found)
}
