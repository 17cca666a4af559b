//! The parts of a thread's live body: statements that stand in a segment whole, and what a segment parts at.
ghost use Rattle.std.specs.Prelude.{◌≡◌, ◌+◌, [], ◌∷◌, OnOk, IfOk};
ghost use Rattle.scc_core_spec.specs.Code as code;
ghost use Rattle.scc_core_view.specs.Codes.{code_of};
ghost use Rattle.scc_states_segments.specs.Parts.{AreParts, IsPart};

use crate::opening::opens;
use scc_base::{List, NoMemory, Place, lost};
use scc_core::{Copies, CoreExpr, CoreNode, CoreStmt};
use std::alloc::Global;

/// A part of a thread's body.
#[cycle(part)]
#[derive(Drop)]
pub struct Part {
    pub place: Place,
    pub node: PartNode,
}

#[cycle(part)]
#[derive(Drop)]
pub enum PartNode {
    /// A statement without a wait, which leaves no block around it.
    Plain(CoreStmt),
    /// A test with a wait, or an exit, behind it.
    Test {
        test: CoreExpr,
        yes: List<Part>,
        no: List<Part>,
    },
    Block(List<Part>),
    /// Goes on until it is left.
    Loop(List<Part>),
    /// Leaves the enclosing block of that number, counted outward from 0.
    Exit(u32),
    /// The wait of that number, for so many edges.
    Wait {
        number: u32,
        count: u32,
    },
}

/// The parts of some statements. The first wait in them has the number `next`, which is then that of the first behind them.
#[cycle(parts)]
pub fn parts_of(body: &[CoreStmt], alloc: Global, next: &mut u32) -> Result<List<Part>, NoMemory>
    ensures number { OnOk result (next.new ≡ next.old + code.waits_in (code_of body.now)) }
    ensures parts { IfOk result (AreParts next.old body.now) }
{
    let mut list = List::new(alloc);
    for s in body {
        list.push(part_of(s, alloc, next)?)?;
    }
    Ok(list)
}

#[cycle(parts)]
fn part_of(s: &CoreStmt, alloc: Global, next: &mut u32) -> Result<Part, NoMemory>
    ensures number { OnOk result (next.new ≡ next.old + code.waits_in (code_of (s.now ∷ []))) }
    ensures part { IfOk result (IsPart next.old next.new s.now) }
{
    let place = s.place;
    if !opens(s) {
        let node = PartNode::Plain(Copies::plain(alloc).stmt(s)?);
        return Ok(Part { place, node });
    }
    match &s.node {
        CoreNode::Wait { n } => {
            let node = PartNode::Wait {
                number: *next,
                count: *n,
            };
            *next = one_more(*next)?;
            Ok(Part { place, node })
        }
        CoreNode::If { test, yes, no } => {
            let yes = parts_of(yes.as_slice(), alloc, next)?;
            let no = parts_of(no.as_slice(), alloc, next)?;
            let test = Copies::plain(alloc).expr(test)?;
            let node = PartNode::Test { test, yes, no };
            Ok(Part { place, node })
        }
        CoreNode::Block(body) => {
            let node = PartNode::Block(parts_of(body.as_slice(), alloc, next)?);
            Ok(Part { place, node })
        }
        CoreNode::Loop { body, .. } => {
            let node = PartNode::Loop(parts_of(body.as_slice(), alloc, next)?);
            Ok(Part { place, node })
        }
        CoreNode::Exit(n) => Ok(Part {
            place,
            node: PartNode::Exit(*n),
        }),
        CoreNode::Assign { .. } | CoreNode::Alias { .. } => Err(lost()),
    }
}

// The number behind one; more waits than there are numbers stand in no source.
fn one_more(number: u32) -> Result<u32, NoMemory>
    ensures { IfOk result (λ n. n ≡ number + 1) }
{
    match number.checked_add(1) {
        Some(next) => Ok(next),
        None => Err(lost()),
    }
}
