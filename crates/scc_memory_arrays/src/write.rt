//! Statements by which elements get new values.
use crate::array::Arrays;
use crate::same::same;
use indexmap::IndexMap;
use scc_base::NoMemory;
use scc_svtree::{SvArm, SvExpr, SvExprNode, SvLeft, SvStmt, SvVar, VarId};
use std::alloc::Global;

/// An assignment to one of the first elements of an array, so many, which a variable chooses.
#[derive(Clone, Copy)]
pub struct Write<'a> {
    pub array: u32,
    pub count: u32,
    pub at: VarId,
    pub value: &'a SvExpr,
}

/// How many statements of a block stand before the first that isn't an assignment `x$$n = x` or `x = 0` of a variable that none
/// before assigns.
pub fn first_run(alloc: Global, vars: &[SvVar], body: &[SvStmt]) -> Result<usize, NoMemory> {
    let mut seen = IndexMap::new(alloc);
    run_over(vars, body, &mut seen)
}

fn run_over(
    vars: &[SvVar],
    body: &[SvStmt],
    seen: &mut IndexMap<u32, ()>,
) -> Result<usize, NoMemory> {
    let mut count = 0usize;
    for s in body {
        let Some(v) = first_of(vars, s) else {
            return Ok(count);
        };
        if seen.insert(v.0, ())?.is_some() {
            return Ok(count);
        }
        count = count.saturating_add(1);
    }
    Ok(count)
}

// The variable of an assignment `x$$n = x` or `x = 0`.
fn first_of(vars: &[SvVar], s: &SvStmt) -> Option<VarId> {
    let SvStmt::Assign {
        left: SvLeft::Whole(v),
        value,
    } = s
    else {
        return None;
    };
    let var = vars.get(v.0 as usize)?;
    let is_first = match value.node.get() {
        SvExprNode::Literal(l) => l.value.bits == 0 && l.width == var.width,
        SvExprNode::Left(SvLeft::Whole(w)) => {
            is_next(var.name.bytes(), vars.get(w.0 as usize)?.name.bytes())
        }
        _ => false,
    };
    is_first.then_some(*v)
}

// Whether a name is that of the next value of another.
fn is_next(name: &[u8], of: &[u8]) -> bool {
    name.len() == of.len() + 3 && name.starts_with(of) && name.ends_with(b"$$n")
}

/// Whether a statement keeps an element as it is: `A$k$$n = A$k`.
pub fn is_start(arrays: &Arrays, s: &SvStmt) -> bool {
    let SvStmt::Assign {
        left: SvLeft::Whole(v),
        value,
    } = s
    else {
        return false;
    };
    let (Some(next), SvExprNode::Left(SvLeft::Whole(w))) = (arrays.next(*v), value.node.get())
    else {
        return false;
    };
    arrays.element(*w) == Some(next)
}

/// The assignment that a `case` is whose arms give the elements from the first on the same value.
pub fn write_of<'a>(
    alloc: Global,
    arrays: &Arrays,
    of: &SvExpr,
    arms: &'a [SvArm],
) -> Result<Option<Write<'a>>, NoMemory> {
    let SvExprNode::Left(SvLeft::Whole(at)) = of.node.get() else {
        return Ok(None);
    };
    let Some(first) = arms.first() else {
        return Ok(None);
    };
    let Some((next, value)) = assigned(first) else {
        return Ok(None);
    };
    let Some(spot) = arrays.next(next) else {
        return Ok(None);
    };
    let mut count = 0u32;
    for arm in arms {
        if !is_arm(alloc, arrays, arm, spot.array, count, value)? {
            return Ok(None);
        }
        count = count.saturating_add(1);
    }
    Ok(Some(Write {
        array: spot.array,
        count,
        at: *at,
        value,
    }))
}

// The variable and the value of an arm that is one assignment of a variable as a whole.
fn assigned(arm: &SvArm) -> Option<(VarId, &SvExpr)> {
    match arm.body.as_slice() {
        [
            SvStmt::Assign {
                left: SvLeft::Whole(v),
                value,
            },
        ] => Some((*v, value)),
        _ => None,
    }
}

// Whether an arm gives the element of its number this value.
fn is_arm(
    alloc: Global,
    arrays: &Arrays,
    arm: &SvArm,
    array: u32,
    number: u32,
    wanted: &SvExpr,
) -> Result<bool, NoMemory> {
    if arm.label.value.bits != u128::from(number) {
        return Ok(false);
    }
    let Some((next, value)) = assigned(arm) else {
        return Ok(false);
    };
    match arrays.next(next) {
        Some(spot) if spot.array == array && spot.at == number => same(alloc, value, wanted),
        _ => Ok(false),
    }
}
