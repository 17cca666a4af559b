//! Choices among all elements of an array by an index.
use crate::array::Arrays;
use scc_svtree::{SvBinary, SvExpr, SvExprNode, SvLeft, SvVar, VarId};

/// How deep a tree of choices is at most.
const LEVELS: u32 = 32;

/// A variable that is less than a number.
#[derive(Clone, Copy, PartialEq, Eq)]
pub struct Guard {
    pub var: u32,
    pub bound: u128,
}

/// A choice by a variable among the next values of an array's first elements, so many.
#[derive(Clone, Copy)]
pub struct Read {
    pub array: u32,
    pub count: u32,
    pub at: VarId,
}

/// What a test says.
pub fn guard_of(test: &SvExpr) -> Option<Guard> {
    let SvExprNode::Binary {
        op: SvBinary::Lt,
        left,
        right,
    } = test.node.get()
    else {
        return None;
    };
    let SvExprNode::Left(SvLeft::Whole(v)) = left.node.get() else {
        return None;
    };
    let SvExprNode::Literal(l) = right.node.get() else {
        return None;
    };
    Some(Guard {
        var: v.0,
        bound: l.value.bits,
    })
}

/// The read that an expression is, where a test around it says `guard`: the index can't pass the elements that are chosen among, or
/// the test says so.
pub fn read_of(arrays: &Arrays, vars: &[SvVar], e: &SvExpr, guard: Option<Guard>) -> Option<Read> {
    let SvExprNode::Cond { test, .. } = e.node.get() else {
        return None;
    };
    let var = guard_of(test)?.var;
    let spot = arrays.next(first_leaf(e)?)?;
    let array = arrays.get(spot.array)?;
    let width = vars.get(var as usize)?.width;
    let under = Under {
        nexts: array.nexts.as_slice(),
        var,
        width,
    };
    let count = leaves(e, under, 0, LEVELS)?;
    let bound = Guard {
        var,
        bound: u128::from(count),
    };
    if reaches(width, count) && guard != Some(bound) {
        return None;
    }
    Some(Read {
        array: spot.array,
        count,
        at: VarId(var),
    })
}

// Whether a word of that width can be as great as a number.
fn reaches(width: u32, number: u32) -> bool {
    width >= 32 || number >> width == 0
}

// The variable where the first branches end.
fn first_leaf(e: &SvExpr) -> Option<VarId> {
    let mut here = e;
    for _ in 0..LEVELS + 1 {
        match here.node.get() {
            SvExprNode::Cond { yes, .. } => here = yes,
            SvExprNode::Left(SvLeft::Whole(v)) => return Some(*v),
            _ => return None,
        }
    }
    None
}

/// The variables among which is chosen, and the index with its width.
#[derive(Clone, Copy)]
struct Under<'a> {
    nexts: &'a [u32],
    var: u32,
    width: u32,
}

// The number after the last element of a tree that begins with the element `low`.
#[cycle(leaves)]
fn leaves(e: &SvExpr, under: Under<'_>, low: u32, levels: u32) -> Option<u32> {
    match e.node.get() {
        SvExprNode::Left(SvLeft::Whole(v)) => {
            if under.nexts.get(low as usize) == Some(&v.0) {
                low.checked_add(1)
            } else {
                None
            }
        }
        SvExprNode::Cond { test, yes, no } => {
            if levels == 0 {
                return None;
            }
            let middle = middle_of(test, under)?;
            if leaves(yes, under, low, levels - 1)? != middle {
                return None;
            }
            let high = leaves(no, under, middle, levels - 1)?;
            let lower = middle.checked_sub(low)?;
            let all = high.checked_sub(low)?;
            if lower == all / 2 { Some(high) } else { None }
        }
        _ => None,
    }
}

// The number below which a test wants the index.
fn middle_of(test: &SvExpr, under: Under<'_>) -> Option<u32> {
    let guard = guard_of(test)?;
    let SvExprNode::Binary { right, .. } = test.node.get() else {
        return None;
    };
    match right.node.get() {
        SvExprNode::Literal(l) if l.width == under.width && guard.var == under.var => {
            u32::try_from(guard.bound).ok()
        }
        _ => None,
    }
}
