//! Orders of blocks and the first on a cycle, of few blocks and of many.
use scc_base::{Boxed, List, NoMemory};
use scc_svtree::{SvBinary, SvBlock, SvExpr, SvExprNode, SvLeft, SvStmt, VarId};
use scc_svtree_order::first_of;
use std::alloc::Global;

fn expr(alloc: Global, node: SvExprNode) -> Result<SvExpr, NoMemory> {
    let node = Boxed::new(alloc, node)?;
    Ok(SvExpr { node })
}

fn variable(alloc: Global, v: u32) -> Result<SvExpr, NoMemory> {
    expr(alloc, SvExprNode::Left(SvLeft::Whole(VarId(v))))
}

// A block that assigns the first variable the conjunction of the others.
fn block(alloc: Global, vars: (u32, u32, u32)) -> Result<SvBlock, NoMemory> {
    let (target, left, right) = vars;
    let both = SvExprNode::Binary {
        op: SvBinary::And,
        left: variable(alloc, left)?,
        right: variable(alloc, right)?,
    };
    let mut body = List::new(alloc);
    body.push(SvStmt::Assign {
        left: SvLeft::Whole(VarId(target)),
        value: expr(alloc, both)?,
    })?;
    Ok(SvBlock::Comb(body))
}

const A: u32 = 0;

const X: u32 = 1;

const Y: u32 = 2;

const Z: u32 = 3;

const W: u32 = 4;

#[test]
fn few_blocks(rt: HostRuntime) -> Result<(), NoMemory> {
    let alloc = rt.alloc();
    let rows: &[(&[(u32, u32, u32)], Option<usize>)] = &[
        // no block, a block that reads what it assigns, and a chain from its end
        (&[], None),
        (&[(X, X, A)], None),
        (&[(Z, Y, Y), (Y, X, X), (X, A, A)], None),
        // a cycle, with a block that it leads to and one that leads to it
        (&[(W, Y, Y), (X, A, A), (Y, X, Z), (Z, Y, Y)], Some(2)),
        // two cycles
        (&[(W, Z, Z), (X, Y, Y), (Z, W, W), (Y, X, X)], Some(0)),
    ];
    for (row, want) in rows {
        let mut blocks = List::new(alloc);
        for vars in *row {
            blocks.push(block(alloc, *vars)?)?;
        }
        assert_eq!(rt; first_of(alloc, blocks.as_slice())?, *want, "{row:?}");
    }
    Ok(())
}

// A chain of blocks from its end: each reads what the next one assigns, and the last reads variable `last`.
fn chain(alloc: Global, count: u32, last: u32) -> Result<List<SvBlock>, NoMemory> {
    let mut blocks = List::new(alloc);
    for k in 1..count {
        blocks.push(block(alloc, (k, k + 1, k + 1))?)?;
    }
    blocks.push(block(alloc, (count, last, last))?)?;
    Ok(blocks)
}

// So many that a search from each block would not end in the time of a test: groups of blocks that reach each other, of which no
// clause tells anything, have to be an order, or to be sorted.
const MANY: u32 = 300_000;

#[test]
fn many_blocks_in_an_order(rt: HostRuntime) -> Result<(), NoMemory> {
    let alloc = rt.alloc();
    let blocks = chain(alloc, MANY, A)?;
    assert_eq!(rt; first_of(alloc, blocks.as_slice())?, None);
    Ok(())
}

#[test]
fn many_blocks_before_a_cycle(rt: HostRuntime) -> Result<(), NoMemory> {
    let alloc = rt.alloc();
    let blocks = chain(alloc, MANY, MANY - 1)?;
    let want = MANY as usize - 2;
    assert_eq!(rt; first_of(alloc, blocks.as_slice())?, Some(want));
    Ok(())
}
