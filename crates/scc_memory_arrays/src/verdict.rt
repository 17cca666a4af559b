//! The arrays of a module that can be memories.
use crate::array::{Array, Arrays};
use crate::candidates::candidates;
use crate::paths::Paths;
use crate::uses::Uses;
use crate::write::{first_run, is_start};
use scc_base::{NoMemory, push};
use scc_svtree::{SvBlock, SvExpr, SvExprNode, SvLeft, SvModule, SvReset, SvSet, SvStmt, VarId};
use std::alloc::Global;

/// The arrays of a module without wrong sizes, names and drivers that can be memories, in the order in which their first elements are
/// declared:
///
/// - All `NAME$k` are registers of one `always_ff` without a reset's literal, `NAME$k <= NAME$k$$n`; all are of one width and no ports.
///   None of `NAME`, `NAME$$w`, `NAME$$a` and `NAME$$d` is declared. One `always_comb` begins with `NAME$k$$n = NAME$k` for each, and
///   `NAME$k` stands nowhere else.
/// - A next value is read by itself, or in a choice among the first ones by a variable that can't pass them or is tested before; and
///   assigned by itself, or in a `case` that gives the first ones the same value. At least one such choice or `case` stands there.
/// - Each path through the block assigns at most one of them.
pub fn taken(alloc: Global, m: &SvModule) -> Result<Arrays, NoMemory> {
    let arrays = candidates(alloc, m.vars.as_slice())?;
    let (good, used) = verdicts(alloc, m, &arrays)?;
    kept(alloc, m.vars.len(), arrays, good, used)
}

// For each array whether it can be a memory, and whether a variable chooses among its elements.
fn verdicts(
    alloc: Global,
    m: &SvModule,
    arrays: &Arrays,
) -> Result<(Vec<bool>, Vec<bool>), NoMemory> {
    let mut uses = Uses::new(alloc, m, arrays)?;
    registers(&mut uses)?;
    starts(&mut uses)?;
    for b in m.blocks.as_slice() {
        match b {
            SvBlock::Comb(body) => {
                let body = body.as_slice();
                let first = first_run(alloc, m.vars.as_slice(), body)?;
                uses.block(body, first)?;
            }
            SvBlock::Edge { sets, .. } => set_values(&mut uses, sets.as_slice())?,
        }
    }
    paths(&mut uses)?;
    let Uses { good, used, .. } = uses;
    Ok((good, used))
}

fn kept(
    alloc: Global,
    vars: usize,
    arrays: Arrays,
    good: Vec<bool>,
    used: Vec<bool>,
) -> Result<Arrays, NoMemory> {
    let mut out = Arrays::none(alloc, vars)?;
    let Arrays { list, .. } = arrays;
    for ((array, good), used) in list.into_iter().zip(good.iter()).zip(used.iter()) {
        if *good && *used {
            out.add(array)?;
        }
    }
    Ok(out)
}

/// Where a variable is set at an edge: the number of the block, and whether it takes its own next value.
#[derive(Clone, Copy)]
struct Place {
    block: usize,
    own: bool,
}

// Whether an expression is a variable as a whole.
fn is_variable(e: &SvExpr, v: u32) -> bool {
    match e.node.get() {
        SvExprNode::Left(SvLeft::Whole(w)) => w.0 == v,
        _ => false,
    }
}

// Whether an edge gives an element its own next value.
fn is_own(arrays: &Arrays, set: &SvSet) -> bool {
    let Some(spot) = arrays.element(set.target) else {
        return false;
    };
    match arrays.get(spot.array).and_then(|a| a.next(spot.at)) {
        Some(next) => is_variable(&set.value, next),
        None => false,
    }
}

// The elements stand in one `always_ff` without a reset's literal.
fn registers(uses: &mut Uses<'_>) -> Result<(), NoMemory> {
    let mut places = Vec::new(uses.alloc);
    for _v in uses.m.vars.as_slice() {
        push(&mut places, None)?;
    }
    note_edges(uses, &mut places);
    let arrays = uses.arrays;
    let mut number = 0u32;
    for array in arrays.list.iter() {
        if !stand_together(array, places.as_slice()) {
            uses.refuse(number);
        }
        number = number.saturating_add(1);
    }
    Ok(())
}

// Notes where variables are set, and what edges name beside what they set.
fn note_edges(uses: &mut Uses<'_>, places: &mut Vec<Option<Place>>) {
    let m = uses.m;
    for (block, b) in m.blocks.as_slice().iter().enumerate() {
        if let SvBlock::Edge {
            clock,
            reset,
            sets,
            ..
        } = b
        {
            uses.mention(*clock);
            note_sets(uses.arrays, block, sets.as_slice(), places);
            if let Some(reset) = reset {
                mention_reset(uses, reset);
            }
        }
    }
}

fn note_sets(arrays: &Arrays, block: usize, sets: &[SvSet], places: &mut Vec<Option<Place>>) {
    for set in sets {
        let own = is_own(arrays, set);
        if let Some(place) = places.get_mut(set.target.0 as usize) {
            *place = Some(Place { block, own });
        }
    }
}

fn mention_reset(uses: &mut Uses<'_>, reset: &SvReset) {
    uses.mention(reset.signal);
    for load in reset.values.as_slice() {
        if uses.arrays.element(load.target).is_some() {
            uses.mention(load.target);
        }
    }
}

// Whether the elements are set in one block, each to its next value, and no next value is set.
fn stand_together(array: &Array, places: &[Option<Place>]) -> bool {
    let mut block = None;
    for element in array.elements.iter() {
        let Some(Some(place)) = places.get(*element as usize) else {
            return false;
        };
        if !place.own || (block.is_some() && block != Some(place.block)) {
            return false;
        }
        block = Some(place.block);
    }
    for next in array.nexts.iter() {
        if !matches!(places.get(*next as usize), Some(None)) {
            return false;
        }
    }
    true
}

/// How many elements of an array are begun, and in which block.
#[derive(Clone, Copy)]
struct Begun {
    count: usize,
    block: usize,
    apart: bool,
}

// One `always_comb` begins with the elements as they are.
fn starts(uses: &mut Uses<'_>) -> Result<(), NoMemory> {
    let mut begun = Vec::new(uses.alloc);
    for _array in uses.arrays.list.iter() {
        let none = Begun {
            count: 0,
            block: 0,
            apart: false,
        };
        push(&mut begun, none)?;
    }
    for (block, b) in uses.m.blocks.as_slice().iter().enumerate() {
        if let SvBlock::Comb(body) = b {
            let body = body.as_slice();
            let first = first_run(uses.alloc, uses.m.vars.as_slice(), body)?;
            for (number, s) in body.iter().enumerate() {
                if number < first {
                    begin(uses.arrays, s, block, &mut begun);
                }
            }
        }
    }
    let arrays = uses.arrays;
    let mut number = 0u32;
    for (array, begun) in arrays.list.iter().zip(begun.iter()) {
        if begun.apart || begun.count != array.size() {
            uses.refuse(number);
        }
        number = number.saturating_add(1);
    }
    Ok(())
}

fn begin(arrays: &Arrays, s: &SvStmt, block: usize, begun: &mut Vec<Begun>) {
    let SvStmt::Assign {
        left: SvLeft::Whole(VarId(v)),
        ..
    } = s
    else {
        return;
    };
    if !is_start(arrays, s) {
        return;
    }
    let Some(spot) = arrays.next(VarId(*v)) else {
        return;
    };
    if let Some(of) = begun.get_mut(spot.array as usize) {
        if of.count > 0 && of.block != block {
            of.apart = true;
        }
        of.block = block;
        of.count = of.count.saturating_add(1);
    }
}

// What edges set, but for elements that take their next values.
fn set_values<'a>(uses: &mut Uses<'a>, sets: &'a [SvSet]) -> Result<(), NoMemory> {
    for set in sets {
        if !is_own(uses.arrays, set) {
            uses.expr(&set.value)?;
        }
    }
    Ok(())
}

// Each path assigns at most one element.
fn paths(uses: &mut Uses<'_>) -> Result<(), NoMemory> {
    let mut paths = Paths::new(uses.alloc, uses.arrays)?;
    for b in uses.m.blocks.as_slice() {
        if let SvBlock::Comb(body) = b {
            let body = body.as_slice();
            let first = first_run(uses.alloc, uses.m.vars.as_slice(), body)?;
            paths.block(body, first)?;
        }
    }
    let mut number = 0u32;
    for twice in paths.twice.iter() {
        if *twice {
            uses.refuse(number);
        }
        number = number.saturating_add(1);
    }
    Ok(())
}
