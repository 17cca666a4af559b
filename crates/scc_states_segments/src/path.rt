//! Where a path stands in a thread's parts, and what it comes to next.
ghost use Rattle.std.specs.Prelude.{◌≡◌, IfOk};
ghost use Rattle.scc_core_spec.specs.Segments.{behind};
ghost use Rattle.scc_states_segments.specs.Frames.{comes, from, scene, stepped};

use crate::parts::{Part, PartNode};
use scc_base::{List, NoMemory, lost};
use std::alloc::Global;

/// How parts follow others.
#[derive(Clone, Copy)]
pub enum Sort {
    /// Behind a test.
    Rest,
    /// Behind a block, which an exit may leave.
    Block,
    /// At the end of a loop's body, which no path comes to without a wait.
    End,
    /// The loop's body again.
    Again,
}

/// What follows some parts.
#[derive(Clone, Copy)]
pub struct Frame<'a> {
    pub sort: Sort,
    pub rest: &'a [Part],
}

/// What a path comes to.
#[derive(Clone, Copy)]
pub enum Step<'a> {
    /// A part that stands in its segment, before others.
    Comes(&'a Part, &'a [Part]),
    /// Nothing yet: it goes on before other parts.
    On(&'a [Part]),
    /// The end of the function.
    Finish,
}

/// Frames again.
pub fn again<'a>(alloc: Global, around: &[Frame<'a>]) -> Result<List<Frame<'a>>, NoMemory>
    ensures { IfOk result (λ fs. fs ≡ around.now) }
{
    Ok(List::from_vec(Vec::from_slice(alloc, around)?))
}

/// The first part that a path comes to which stands in its segment, and those behind it; None at the end of the function.
pub fn next_part<'a>(
    here: &'a [Part],
    around: &mut List<Frame<'a>>,
) -> Result<Option<(&'a Part, &'a [Part])>, NoMemory>
    ensures { IfOk result (λ o. from here.now (scene around.old) ≡ comes o (scene around.new)) }
{
    let mut here = here;
    for _ in 0..usize::MAX {
        match one_step(here, around)? {
            Step::Comes(part, rest) => return Ok(Some((part, rest))),
            Step::On(rest) => here = rest,
            Step::Finish => return Ok(None),
        }
    }
    Err(lost())
}

fn one_step<'a>(here: &'a [Part], around: &mut List<Frame<'a>>) -> Result<Step<'a>, NoMemory>
    ensures { IfOk result (λ s. from here.now (scene around.old) ≡ stepped s (scene around.new)) }
{
    let [part, rest @ ..] = here else {
        return behind_list(around);
    };
    match &part.node {
        PartNode::Plain(_) | PartNode::Test { .. } | PartNode::Wait { .. } => {
            Ok(Step::Comes(part, rest))
        }
        PartNode::Block(body) => {
            let sort = Sort::Block;
            around.push(Frame { sort, rest })?;
            Ok(Step::On(body.as_slice()))
        }
        PartNode::Loop(body) => {
            let sort = Sort::End;
            around.push(Frame { sort, rest })?;
            Ok(Step::On(body.as_slice()))
        }
        PartNode::Exit(n) => Ok(left(*n, around)),
    }
}

// Behind the end of a list.
fn behind_list<'a>(around: &mut List<Frame<'a>>) -> Result<Step<'a>, NoMemory>
    ensures { IfOk result (λ s. (scene around.old).next ≡ stepped s (scene around.new)) }
{
    let Some(frame) = around.pop() else {
        return Ok(Step::Finish);
    };
    let rest = frame.rest;
    match frame.sort {
        Sort::Rest => Ok(Step::On(rest)),
        Sort::Block => Ok(Step::On(rest)),
        Sort::End => Ok(Step::Finish),
        Sort::Again => {
            let sort = Sort::End;
            around.push(Frame { sort, rest })?;
            Ok(Step::On(rest))
        }
    }
}

// Behind the n-th open block, counted outward from 0.
fn left<'a>(n: u32, around: &mut List<Frame<'a>>) -> Step<'a>
    ensures { behind n (scene around.old).outer ≡ stepped result (scene around.new) }
{
    let mut more = n;
    while let Some(frame) = around.pop() {
        let rest = frame.rest;
        match frame.sort {
            Sort::Block => {
                if more == 0 {
                    return Step::On(rest);
                }
                more -= 1;
            }
            Sort::Rest => {}
            Sort::End => {}
            Sort::Again => {}
        }
    }
    Step::Finish
}
