//! Expressions and locations. A chain of operators is as deep as it is long, so it is let go by a loop along its first operands.
use scc_base::{Boxed, List, NoMemory, Place};
use scc_bits::{Kind, Op, Word};
use std::alloc::Global;

/// An expression and the kind of its value.
#[cycle(plain)]
pub struct PlainExpr {
    pub place: Place,
    pub kind: Kind,
    pub node: Boxed<PlainExprNode>,
}

#[cycle(plain)]
#[derive(Drop)]
pub enum PlainExprNode {
    Lit(Word),
    /// What a variable holds.
    Load(PlainLeft),
    /// What a port or signal shows.
    Read(PlainLeft),
    /// The value in the kind of this expression.
    Convert(PlainExpr),
    /// An operator; a unary one has no right operand.
    Operate {
        op: Op,
        left: PlainExpr,
        right: Option<PlainExpr>,
    },
    Choose {
        test: PlainExpr,
        yes: PlainExpr,
        no: PlainExpr,
    },
    /// Bits of a value.
    Pick {
        of: PlainExpr,
        pick: PlainPick,
    },
    /// A concatenation, the highest part first.
    Join(List<PlainExpr>),
}

/// A location.
#[cycle(plain)]
pub struct PlainLeft {
    pub place: Place,
    pub base: PlainBase,
    pub parts: List<PlainPart>,
    pub pick: Option<PlainPick>,
}

#[cycle(plain)]
#[derive(Drop)]
pub enum PlainBase {
    /// The local of that number.
    Local(u32),
    /// The object whose function this is.
    This,
    /// The result of the call of that number.
    Answer(u32),
    /// The location that the pointer holds. A reference is followed without a part of its own.
    Follow(Boxed<PlainLeft>),
}

#[cycle(plain)]
#[derive(Drop)]
pub enum PlainPart {
    /// The member of that number in its class.
    Member(u32),
    Index(PlainExpr),
}

#[cycle(plain)]
#[derive(Drop)]
pub enum PlainPick {
    /// The bit of that number of a value of kind `of`, counted from 0 at the low end.
    Bit { of: Kind, at: PlainExpr },
    /// Bits h down to l of a value of kind `of`; l is at most h, and h is below the width.
    Range { of: Kind, h: u32, l: u32 },
}

impl PlainExpr {
    /// The expression of a kind at a place; its node goes onto the heap.
    pub fn new(
        alloc: Global,
        place: Place,
        kind: Kind,
        node: PlainExprNode,
    ) -> Result<PlainExpr, NoMemory> {
        Ok(PlainExpr {
            place,
            kind,
            node: Boxed::new(alloc, node)?,
        })
    }
}

impl PlainLeft {
    /// The location that a base names by itself.
    pub fn new(alloc: Global, place: Place, base: PlainBase) -> PlainLeft {
        PlainLeft {
            place,
            base,
            parts: List::new(alloc),
            pick: None,
        }
    }
}

impl Drop for PlainExpr {
    #[cycle(gone)]
    fn drop(mut self) {
        loop {
            let PlainExpr {
                place: _,
                kind: _,
                node,
            } = self;
            match Boxed::into_inner(node) {
                PlainExprNode::Lit(_word) => return,
                PlainExprNode::Convert(of) => self = of,
                PlainExprNode::Operate {
                    op: _op,
                    left,
                    right,
                } => {
                    drop(right);
                    self = left;
                }
                PlainExprNode::Choose { test, yes, no } => {
                    drop(yes);
                    drop(no);
                    self = test;
                }
                PlainExprNode::Pick { of, pick } => {
                    drop(pick);
                    self = of;
                }
                PlainExprNode::Join(list) => {
                    drop(list);
                    return;
                }
                PlainExprNode::Load(left) => {
                    drop(left);
                    return;
                }
                PlainExprNode::Read(left) => {
                    drop(left);
                    return;
                }
            }
        }
    }
}

impl Drop for PlainLeft {
    #[cycle(gone)]
    fn drop(mut self) {
        loop {
            let PlainLeft {
                place: _,
                base,
                parts,
                pick,
            } = self;
            drop(parts);
            drop(pick);
            match base {
                PlainBase::Local(_local) => return,
                PlainBase::This => return,
                PlainBase::Answer(_call) => return,
                PlainBase::Follow(inner) => self = Boxed::into_inner(inner),
            }
        }
    }
}
