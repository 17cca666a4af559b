//! Loops that count: a `for` that declares one number with a value, compares it by `<`, `<=`, `>`, `>=` or `!=`, the counter on the
//! left, and changes it by one operator with the counter on the left. Whether the numbers are static is asked later.
use scc_base::NoMemory;
use scc_bits::Op;
use scc_plain_tree::{
    PlainBase, PlainCount, PlainExpr, PlainExprNode, PlainLeft, PlainNode, PlainStmt,
};
use std::alloc::Global;

/// An operator with its right operand.
#[derive(Clone, Copy)]
struct By<'e> {
    op: Op,
    right: &'e PlainExpr,
}

fn is_compare(op: Op) -> bool {
    matches!(op, Op::Lt | Op::Le | Op::Gt | Op::Ge | Op::Ne)
}

// Whether a location is a local by itself.
fn is_local(left: &PlainLeft, n: u32) -> bool {
    let is_it = match &left.base {
        PlainBase::Local(m) => *m == n,
        _ => false,
    };
    is_it && left.parts.is_empty() && left.pick.is_none()
}

fn is_counter(e: &PlainExpr, n: u32) -> bool {
    match e.node.get() {
        PlainExprNode::Load(left) => is_local(left, n),
        _ => false,
    }
}

// The operator between the counter and a right operand.
fn applied(e: &PlainExpr, n: u32) -> Option<By<'_>> {
    match e.node.get() {
        PlainExprNode::Operate {
            op,
            left,
            right: Some(right),
        } => {
            if !is_counter(left, n) {
                return None;
            }
            Some(By { op: *op, right })
        }
        _ => None,
    }
}

// The start of a counter, where nothing stands before the loop but its declaration.
fn start_of(before: &[PlainStmt], n: u32) -> Option<&PlainExpr> {
    let [one] = before else {
        return None;
    };
    match &one.node {
        PlainNode::Assign { left, value } => is_local(left, n).then_some(value),
        _ => None,
    }
}

fn compared(test: &[PlainStmt], n: u32) -> Option<By<'_>> {
    let [one] = test else {
        return None;
    };
    let by = match &one.node {
        PlainNode::If { test, .. } => applied(test, n)?,
        _ => return None,
    };
    if !is_compare(by.op) {
        return None;
    }
    Some(by)
}

fn stepped(step: &[PlainStmt], n: u32) -> Option<By<'_>> {
    let [one] = step else {
        return None;
    };
    match &one.node {
        PlainNode::Assign { left, value } => {
            if !is_local(left, n) {
                return None;
            }
            match value.node.get() {
                PlainExprNode::Convert(of) => applied(of, n),
                _ => applied(value, n),
            }
        }
        _ => None,
    }
}

/// How a loop counts by a local, from what stands before it, its test and its step.
pub(crate) fn counted(
    alloc: Global,
    counter: u32,
    before: &[PlainStmt],
    test: &[PlainStmt],
    step: &[PlainStmt],
) -> Result<Option<PlainCount>, NoMemory> {
    let Some(start) = start_of(before, counter) else {
        return Ok(None);
    };
    let Some(compare) = compared(test, counter) else {
        return Ok(None);
    };
    let Some(step) = stepped(step, counter) else {
        return Ok(None);
    };
    Ok(Some(PlainCount {
        counter,
        start: start.copied(alloc)?,
        compare: compare.op,
        bound: compare.right.copied(alloc)?,
        step_op: step.op,
        step: step.right.copied(alloc)?,
    }))
}
