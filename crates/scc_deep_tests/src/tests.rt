//! Trees as deep as no source makes them: a chain of operators has at most 131,072.
use scc_base::{Boxed, List, NoMemory, Place};
use scc_bits::{Kind, Op, Word};
use scc_core::{CoreBase, CoreExpr, CoreExprNode, CoreLeft};
use scc_memory::{MemExpr, MemExprNode};
use scc_plain_tree::{PlainBase, PlainExpr, PlainExprNode, PlainLeft, PlainNode, PlainStmt};
use scc_svtree::{SvBinary, SvExpr, SvExprNode, SvLiteral, SvUnary};
use std::alloc::Global;
use std::test::Fail;

const LEVELS: u32 = 1_000_000;

const START: Place = Place { file: 0, at: 0 };

const ONE: Word = Word { bits: 1 };

/// A chain of additions with a conversion round each.
fn plain_chain(alloc: Global, levels: u32) -> Result<PlainExpr, NoMemory> {
    let kind = Kind::Uint(8);
    let mut e = PlainExpr::new(alloc, START, kind, PlainExprNode::Lit(ONE))?;
    for _ in 0..levels {
        let right = PlainExpr::new(alloc, START, kind, PlainExprNode::Lit(ONE))?;
        let sum = PlainExprNode::Operate {
            op: Op::Add,
            left: e,
            right: Some(right),
        };
        let sum = PlainExpr::new(alloc, START, kind, sum)?;
        e = PlainExpr::new(alloc, START, kind, PlainExprNode::Convert(sum))?;
    }
    Ok(e)
}

/// A chain of pointers.
fn plain_pointers(alloc: Global, levels: u32) -> Result<PlainLeft, NoMemory> {
    let mut left = PlainLeft::new(alloc, START, PlainBase::Local(0));
    for _ in 0..levels {
        left = PlainLeft::new(alloc, START, PlainBase::Follow(Boxed::new(alloc, left)?));
    }
    Ok(left)
}

/// Blocks in blocks.
fn plain_blocks(alloc: Global, levels: u32) -> Result<PlainStmt, NoMemory> {
    let mut s = PlainStmt {
        place: START,
        node: PlainNode::Quiet,
    };
    for _ in 0..levels {
        let mut list = List::new(alloc);
        list.push(s)?;
        s = PlainStmt {
            place: START,
            node: PlainNode::Block(list),
        };
    }
    Ok(s)
}

/// A chain of additions with a conversion round each.
fn core_chain(alloc: Global, levels: u32) -> Result<CoreExpr, NoMemory> {
    let kind = Kind::Uint(8);
    let mut e = CoreExpr::new(alloc, START, kind, CoreExprNode::Lit(ONE))?;
    for _ in 0..levels {
        let right = CoreExpr::new(alloc, START, kind, CoreExprNode::Lit(ONE))?;
        let sum = CoreExprNode::Operate {
            op: Op::Add,
            left: e,
            right: Some(right),
        };
        let sum = CoreExpr::new(alloc, START, kind, sum)?;
        e = CoreExpr::new(alloc, START, kind, CoreExprNode::Convert(sum))?;
    }
    Ok(e)
}

/// A chain of pointers.
fn core_pointers(alloc: Global, levels: u32) -> Result<CoreLeft, NoMemory> {
    let mut left = CoreLeft::new(alloc, START, CoreBase::Cell(0));
    for _ in 0..levels {
        let base = CoreBase::Follow {
            pointer: Boxed::new(alloc, left)?,
            soft: false,
        };
        left = CoreLeft::new(alloc, START, base);
    }
    Ok(left)
}

fn emitted(alloc: Global, node: SvExprNode) -> Result<SvExpr, NoMemory> {
    Ok(SvExpr {
        node: Boxed::new(alloc, node)?,
    })
}

fn emitted_one(alloc: Global) -> Result<SvExpr, NoMemory> {
    let literal = SvLiteral {
        width: 8,
        value: ONE,
    };
    emitted(alloc, SvExprNode::Literal(literal))
}

/// A chain of choices, additions, casts, signs and complements.
fn emitted_chain(alloc: Global, levels: u32) -> Result<SvExpr, NoMemory> {
    let mut e = emitted_one(alloc)?;
    for _ in 0..levels {
        let right = emitted_one(alloc)?;
        let op = SvBinary::Add;
        e = emitted(alloc, SvExprNode::Binary { op, left: e, right })?;
        e = emitted(alloc, SvExprNode::Cast { width: 8, of: e })?;
        e = emitted(
            alloc,
            SvExprNode::Sign {
                signed: true,
                of: e,
            },
        )?;
        let op = SvUnary::Not;
        e = emitted(alloc, SvExprNode::Unary { op, of: e })?;
        let yes = emitted_one(alloc)?;
        let no = emitted_one(alloc)?;
        e = emitted(alloc, SvExprNode::Cond { test: e, yes, no })?;
    }
    Ok(e)
}

fn memory_node(alloc: Global, node: MemExprNode) -> Result<MemExpr, NoMemory> {
    Ok(MemExpr {
        node: Boxed::new(alloc, node)?,
    })
}

fn memory_literal(alloc: Global) -> Result<MemExpr, NoMemory> {
    let literal = SvLiteral {
        width: 8,
        value: ONE,
    };
    memory_node(alloc, MemExprNode::Literal(literal))
}

/// A chain of elements, additions, casts, signs, complements and choices.
fn memory_chain(alloc: Global, levels: u32) -> Result<MemExpr, NoMemory> {
    let mut e = memory_literal(alloc)?;
    for _ in 0..levels {
        e = memory_node(alloc, MemExprNode::Element { memory: 0, at: e })?;
        let right = memory_literal(alloc)?;
        let op = SvBinary::Add;
        e = memory_node(alloc, MemExprNode::Binary { op, left: e, right })?;
        e = memory_node(alloc, MemExprNode::Cast { width: 8, of: e })?;
        e = memory_node(
            alloc,
            MemExprNode::Sign {
                signed: true,
                of: e,
            },
        )?;
        let op = SvUnary::Not;
        e = memory_node(alloc, MemExprNode::Unary { op, of: e })?;
        let yes = memory_literal(alloc)?;
        let no = memory_literal(alloc)?;
        e = memory_node(alloc, MemExprNode::Cond { test: e, yes, no })?;
    }
    Ok(e)
}

#[test]
fn plain_trees_are_let_go(rt: HostRuntime) -> Result<(), Fail> {
    let alloc = rt.alloc();
    let chain = plain_chain(alloc, LEVELS)?;
    assert!(rt; matches!(chain.node.get(), PlainExprNode::Convert(_)));
    drop(chain);
    let pointers = plain_pointers(alloc, LEVELS)?;
    assert!(rt; matches!(&pointers.base, PlainBase::Follow(_)));
    drop(pointers);
    let blocks = plain_blocks(alloc, LEVELS)?;
    assert!(rt; matches!(&blocks.node, PlainNode::Block(_)));
    drop(blocks);
    Ok(())
}

#[test]
fn core_trees_are_let_go(rt: HostRuntime) -> Result<(), Fail> {
    let alloc = rt.alloc();
    let chain = core_chain(alloc, LEVELS)?;
    assert!(rt; matches!(chain.node.get(), CoreExprNode::Convert(_)));
    drop(chain);
    let pointers = core_pointers(alloc, LEVELS)?;
    assert!(rt; matches!(&pointers.base, CoreBase::Follow { .. }));
    drop(pointers);
    Ok(())
}

#[test]
fn emitted_trees_are_let_go(rt: HostRuntime) -> Result<(), Fail> {
    let alloc = rt.alloc();
    let chain = emitted_chain(alloc, LEVELS)?;
    assert!(rt; matches!(chain.node.get(), SvExprNode::Cond { .. }));
    drop(chain);
    Ok(())
}

#[test]
fn trees_with_memories_are_let_go(rt: HostRuntime) -> Result<(), Fail> {
    let alloc = rt.alloc();
    let chain = memory_chain(alloc, LEVELS)?;
    assert!(rt; matches!(chain.node.get(), MemExprNode::Cond { .. }));
    drop(chain);
    Ok(())
}

/// A list is let go from its end.
#[test]
fn long_lists_are_let_go(rt: HostRuntime) -> Result<(), Fail> {
    let alloc = rt.alloc();
    let mut list = List::new(alloc);
    for _ in 0..LEVELS {
        list.push(Boxed::new(alloc, ONE)?)?;
    }
    assert_eq!(rt; list.len(), LEVELS as usize);
    drop(list);
    Ok(())
}
