//! What statements read, in the order of their evaluation.
ghost use Rattle.std.specs.Prelude.{◌≡◌, true, false, List, [], ◌∷◌, ◌++◌, flat_map, IfOk, OnOk};
ghost use Rattle.scc_core.specs.Operands.{first_of};
ghost use Rattle.scc_core_spec.specs.Uses.{Use, inside, loads, picked};
ghost use Rattle.scc_core_view.specs.Terms.{taken_of, term_of};
ghost use Rattle.scc_rules_walks.specs.Loads.{all_loads, first_loads, index_loads, is_load, pick_term, put_uses, uses_of};

use scc_base::{NoMemory, Place, lost, push};
use scc_core::{
    CoreBase, CoreExpr, CoreExprNode, CoreLeft, CoreNode, CorePart, CorePick, CoreStmt, LEVELS,
    deeper, spine,
};
use std::alloc::Global;

/// A location that is read, and the place of the expression that reads it.
#[derive(Clone, Copy)]
pub struct Load<'a> {
    pub place: Place,
    pub left: &'a CoreLeft,
}

/// What an expression reads: operands before operators, left before right, indices before their location.
#[cycle(loads)]
fn loads_of<'a>(
    alloc: Global,
    e: &'a CoreExpr,
    out: &mut Vec<Load<'a>>,
    levels: u32,
) -> Result<(), NoMemory>
    ensures { OnOk result (uses_of out.new.items ≡ uses_of out.old.items ++ loads (term_of e.now)) }
{
    let levels = deeper(levels)?;
    let list = spine(alloc, e)?;
    let mut left = list.len();
    while left > 0 {
        left -= 1;
        beside(alloc, list[left], out, levels)?;
    }
    Ok(())
}

// What an expression reads beside its first operand.
#[cycle(loads)]
fn beside<'a>(
    alloc: Global,
    e: &'a CoreExpr,
    out: &mut Vec<Load<'a>>,
    levels: u32,
) -> Result<(), NoMemory>
    ensures { (us : List Use) → uses_of out.old.items ≡ us ++ first_loads (first_of e.now) → OnOk result (uses_of out.new.items ≡ us ++ loads (term_of e.now)) }
{
    match e.node.get() {
        CoreExprNode::Lit(_) => Ok(()),
        CoreExprNode::Convert(_) => Ok(()),
        CoreExprNode::Load(left) => {
            inside_of(alloc, left, out, levels)?;
            bits_of(alloc, left, out, levels)?;
            let place = e.place;
            push(out, Load { place, left })
        }
        CoreExprNode::Read(left) => {
            inside_of(alloc, left, out, levels)?;
            let place = e.place;
            push(out, Load { place, left })?;
            bits_of(alloc, left, out, levels)
        }
        CoreExprNode::Operate { right, .. } => match right {
            Some(right) => loads_of(alloc, right, out, levels),
            None => Ok(()),
        },
        CoreExprNode::Choose { yes, no, .. } => {
            loads_of(alloc, yes, out, levels)?;
            loads_of(alloc, no, out, levels)
        }
        CoreExprNode::Pick { of, pick } => {
            let whole = is_load(of, levels)?;
            of_bits(alloc, whole, pick, out, levels)
        }
        CoreExprNode::Join(parts) => each_of(alloc, parts.as_slice(), out, levels),
    }
}

// Whether an expression is what a variable holds, as a whole.
fn is_load(e: &CoreExpr, levels: u32) -> Result<bool, NoMemory>
    ensures { IfOk result (λ is. is ≡ is_load (term_of e.now)) }
{
    match e.node.get() {
        CoreExprNode::Load(left) => Ok(left.pick.is_none()),
        CoreExprNode::Join(parts) => match parts.as_slice() {
            [] => Ok(false),
            [one] => is_load(one, deeper(levels)?),
            [_, _, ..] => Ok(false),
        },
        CoreExprNode::Lit(_) => Ok(false),
        CoreExprNode::Read(_) => Ok(false),
        CoreExprNode::Convert(_) => Ok(false),
        CoreExprNode::Operate { .. } => Ok(false),
        CoreExprNode::Choose { .. } => Ok(false),
        CoreExprNode::Pick { .. } => Ok(false),
    }
}

// What the parts of a concatenation read.
#[cycle(loads)]
fn each_of<'a>(
    alloc: Global,
    parts: &'a [CoreExpr],
    out: &mut Vec<Load<'a>>,
    levels: u32,
) -> Result<(), NoMemory>
    ensures { OnOk result (uses_of out.new.items ≡ uses_of out.old.items ++ all_loads parts.now) }
{
    for part in parts {
        loads_of(alloc, part, out, levels)?;
    }
    Ok(())
}

// What bits of an expression read: behind what the expression reads, or before what a variable holds.
#[cycle(loads)]
fn of_bits<'a>(
    alloc: Global,
    whole: bool,
    pick: &'a CorePick,
    out: &mut Vec<Load<'a>>,
    levels: u32,
) -> Result<(), NoMemory>
    ensures behind { whole ≡ false → OnOk result (uses_of out.new.items ≡ uses_of out.old.items ++ picked (pick_term pick.now).pick) }
    ensures before { whole ≡ true → (us : List Use) (u : Use) → uses_of out.old.items ≡ us ++ u ∷ [] → OnOk result (uses_of out.new.items ≡ (us ++ picked (pick_term pick.now).pick) ++ u ∷ []) }
{
    if whole {
        let last = out.pop().ok_or(lost())?;
        of_pick(alloc, pick, out, levels)?;
        push(out, last)
    } else {
        of_pick(alloc, pick, out, levels)
    }
}

#[cycle(loads)]
fn of_pick<'a>(
    alloc: Global,
    pick: &'a CorePick,
    out: &mut Vec<Load<'a>>,
    levels: u32,
) -> Result<(), NoMemory>
    ensures { OnOk result (uses_of out.new.items ≡ uses_of out.old.items ++ picked (pick_term pick.now).pick) }
{
    match pick {
        CorePick::Bit { at, .. } => loads_of(alloc, at, out, levels),
        CorePick::Range { .. } => Ok(()),
    }
}

// What the index of a location's bit reads.
#[cycle(loads)]
fn bits_of<'a>(
    alloc: Global,
    left: &'a CoreLeft,
    out: &mut Vec<Load<'a>>,
    levels: u32,
) -> Result<(), NoMemory>
    ensures { OnOk result (uses_of out.new.items ≡ uses_of out.old.items ++ picked (taken_of left.now).pick) }
{
    match &left.pick {
        Some(pick) => of_pick(alloc, pick, out, levels),
        None => Ok(()),
    }
}

// What the indices of a location read. No pointer is left.
#[cycle(loads)]
fn inside_of<'a>(
    alloc: Global,
    left: &'a CoreLeft,
    out: &mut Vec<Load<'a>>,
    levels: u32,
) -> Result<(), NoMemory>
    ensures { OnOk result (uses_of out.new.items ≡ uses_of out.old.items ++ inside (taken_of left.now).left) }
{
    match &left.base {
        CoreBase::Cell(_) => of_parts(alloc, left.parts.as_slice(), out, levels),
        CoreBase::Prefix(_) => of_parts(alloc, left.parts.as_slice(), out, levels),
        CoreBase::Null => of_parts(alloc, left.parts.as_slice(), out, levels),
        CoreBase::Follow { .. } => Err(lost()),
    }
}

#[cycle(loads)]
fn of_parts<'a>(
    alloc: Global,
    parts: &'a [CorePart],
    out: &mut Vec<Load<'a>>,
    levels: u32,
) -> Result<(), NoMemory>
    ensures { OnOk result (uses_of out.new.items ≡ uses_of out.old.items ++ flat_map index_loads parts.now) }
{
    for part in parts {
        of_part(alloc, part, out, levels)?;
    }
    Ok(())
}

#[cycle(loads)]
fn of_part<'a>(
    alloc: Global,
    part: &'a CorePart,
    out: &mut Vec<Load<'a>>,
    levels: u32,
) -> Result<(), NoMemory>
    ensures { OnOk result (uses_of out.new.items ≡ uses_of out.old.items ++ index_loads part.now) }
{
    match part {
        CorePart::Index { at, .. } => loads_of(alloc, at, out, levels),
        CorePart::Member(_) => Ok(()),
    }
}

/// What the left side of an assignment reads: its indices, then that of its bit.
pub fn left_loads<'a>(
    alloc: Global,
    left: &'a CoreLeft,
    out: &mut Vec<Load<'a>>,
) -> Result<(), NoMemory>
    ensures { OnOk result (uses_of out.new.items ≡ uses_of out.old.items ++ (inside (taken_of left.now).left ++ picked (taken_of left.now).pick)) }
{
    inside_of(alloc, left, out, LEVELS)?;
    bits_of(alloc, left, out, LEVELS)
}

/// What an expression reads.
pub fn value_loads<'a>(
    alloc: Global,
    e: &'a CoreExpr,
    out: &mut Vec<Load<'a>>,
) -> Result<(), NoMemory>
    ensures { OnOk result (uses_of out.new.items ≡ uses_of out.old.items ++ loads (term_of e.now)) }
{
    loads_of(alloc, e, out, LEVELS)
}

/// What a statement itself reads: the indices of its left side, then its value; or its test.
pub fn own_loads<'a>(alloc: Global, s: &'a CoreStmt) -> Result<Vec<Load<'a>>, NoMemory> {
    let mut out = Vec::new(alloc);
    match &s.node {
        CoreNode::Assign { left, value } => {
            left_loads(alloc, left, &mut out)?;
            value_loads(alloc, value, &mut out)?;
        }
        CoreNode::If { test, .. } => value_loads(alloc, test, &mut out)?,
        CoreNode::Block(_) | CoreNode::Loop { .. } | CoreNode::Exit(_) | CoreNode::Wait { .. } => {}
        CoreNode::Alias { .. } => return Err(lost()),
    }
    Ok(out)
}

/// What an assignment reads and writes: the indices of its left side, the left side, then the value.
pub fn put_loads<'a>(
    alloc: Global,
    left: &'a CoreLeft,
    value: &'a CoreExpr,
) -> Result<Vec<Load<'a>>, NoMemory>
    ensures { IfOk result (λ v. uses_of v.items ≡ put_uses left.now value.now) }
{
    let mut out = Vec::new(alloc);
    left_loads(alloc, left, &mut out)?;
    let place = left.place;
    push(&mut out, Load { place, left })?;
    value_loads(alloc, value, &mut out)?;
    Ok(out)
}

/// What a test reads.
pub fn test_loads<'a>(alloc: Global, test: &'a CoreExpr) -> Result<Vec<Load<'a>>, NoMemory>
    ensures { IfOk result (λ v. uses_of v.items ≡ loads (term_of test.now)) }
{
    let mut out = Vec::new(alloc);
    value_loads(alloc, test, &mut out)?;
    Ok(out)
}
