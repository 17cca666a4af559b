//! The assignments and tests of a body, with what each reads and writes.
ghost use Rattle.std.specs.Prelude.{◌≡◌, [], ◌∷◌, ◌++◌, IfOk, OnOk};
ghost use Rattle.scc_core_spec.specs.Uses.{acts, loads};
ghost use Rattle.scc_core_view.specs.Codes.{code_of};
ghost use Rattle.scc_core_view.specs.Terms.{term_of};
ghost use Rattle.scc_rules_walks.specs.Acts.{acts_in, put_reads};
ghost use Rattle.scc_rules_walks.specs.Loads.{uses_of};

use crate::loads::{Load, left_loads, test_loads, value_loads};
use scc_base::{NoMemory, Place, lost, push};
use scc_core::{CoreExpr, CoreLeft, CoreNode, CoreStmt};
use std::alloc::Global;

/// An assignment or a test by itself.
#[derive(Drop)]
pub struct Act<'a> {
    /// That of the statement.
    pub place: Place,
    /// The indices of its left side, then its value; or its test.
    pub reads: Vec<Load<'a>>,
    /// The left side of an assignment.
    pub write: Option<&'a CoreLeft>,
}

/// The assignments and tests of a body without pointers, in text order.
pub fn acts_of<'a>(alloc: Global, body: &'a [CoreStmt]) -> Result<Vec<Act<'a>>, NoMemory>
    ensures { IfOk result (λ v. acts_in v.items ≡ acts (code_of body.now)) }
{
    let mut out = Vec::new(alloc);
    add_all(body, alloc, &mut out)?;
    Ok(out)
}

#[cycle(acts)]
fn add_all<'a>(body: &'a [CoreStmt], alloc: Global, out: &mut Vec<Act<'a>>) -> Result<(), NoMemory>
    ensures { OnOk result (acts_in out.new.items ≡ acts_in out.old.items ++ acts (code_of body.now)) }
{
    for s in body {
        add(s, alloc, out)?;
    }
    Ok(())
}

#[cycle(acts)]
fn add<'a>(s: &'a CoreStmt, alloc: Global, out: &mut Vec<Act<'a>>) -> Result<(), NoMemory>
    ensures { OnOk result (acts_in out.new.items ≡ acts_in out.old.items ++ acts (code_of (s.now ∷ []))) }
{
    match &s.node {
        CoreNode::Assign { left, value } => {
            let reads = put_reads(alloc, left, value)?;
            let place = s.place;
            let write = Some(left);
            push(
                out,
                Act {
                    place,
                    reads,
                    write,
                },
            )
        }
        CoreNode::If { test, yes, no } => {
            let reads = test_loads(alloc, test)?;
            let place = s.place;
            push(
                out,
                Act {
                    place,
                    reads,
                    write: None,
                },
            )?;
            add_all(yes.as_slice(), alloc, out)?;
            add_all(no.as_slice(), alloc, out)
        }
        CoreNode::Block(body) => add_all(body.as_slice(), alloc, out),
        CoreNode::Loop { body, .. } => add_all(body.as_slice(), alloc, out),
        CoreNode::Exit(_) => Ok(()),
        CoreNode::Wait { .. } => Ok(()),
        CoreNode::Alias { .. } => Err(lost()),
    }
}

// What an assignment reads: the indices of its left side, then its value.
fn put_reads<'a>(
    alloc: Global,
    left: &'a CoreLeft,
    value: &'a CoreExpr,
) -> Result<Vec<Load<'a>>, NoMemory>
    ensures { IfOk result (λ v. uses_of v.items ≡ put_reads left.now value.now) }
{
    let mut out = Vec::new(alloc);
    left_loads(alloc, left, &mut out)?;
    value_loads(alloc, value, &mut out)?;
    Ok(out)
}
