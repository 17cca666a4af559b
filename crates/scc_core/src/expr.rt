//! Expressions and locations over cells. A chain of operators is as deep as it is long, so it is let go by a loop along its first operands.
ghost use Rattle.std.specs.Prelude.{◌≡◌, IfOk};

use crate::CellName;
use scc_base::{Boxed, List, Name, NoMemory, Place};
use scc_bits::{Kind, Op, Word};
use std::alloc::Global;

/// An expression and the kind of its value.
#[cycle(core)]
pub struct CoreExpr {
    pub place: Place,
    pub kind: Kind,
    pub node: Boxed<CoreExprNode>,
}

#[cycle(core)]
#[derive(Drop)]
pub enum CoreExprNode {
    Lit(Word),
    /// What a variable holds.
    Load(CoreLeft),
    /// What a port or signal shows.
    Read(CoreLeft),
    /// The value in the kind of this expression.
    Convert(CoreExpr),
    /// An operator; a unary one has no right operand.
    Operate {
        op: Op,
        left: CoreExpr,
        right: Option<CoreExpr>,
    },
    Choose {
        test: CoreExpr,
        yes: CoreExpr,
        no: CoreExpr,
    },
    /// Bits of a value.
    Pick {
        of: CoreExpr,
        pick: CorePick,
    },
    /// A concatenation, the highest part first.
    Join(List<CoreExpr>),
}

/// A location.
#[cycle(core)]
pub struct CoreLeft {
    pub place: Place,
    pub base: CoreBase,
    pub parts: List<CorePart>,
    pub pick: Option<CorePick>,
}

#[cycle(core)]
#[derive(Drop)]
pub enum CoreBase {
    /// The cell of that number.
    Cell(u32),
    /// The front part of a cell's name, which the parts complete.
    Prefix(CellName),
    /// The location that the pointer holds. A soft one gave a call its object: where it is null, null is met where the
    /// location is used.
    Follow {
        pointer: Boxed<CoreLeft>,
        soft: bool,
    },
    /// No location; only as the target of an `Alias`.
    Null,
}

#[cycle(core)]
#[derive(Drop)]
pub enum CorePart {
    Member(Name),
    /// An element of so many; `u32::MAX` for a vector whose size isn't known before its object is.
    Index { size: u32, at: CoreExpr },
}

#[cycle(core)]
#[derive(Drop)]
pub enum CorePick {
    /// The bit of that number of a value of kind `of`, counted from 0 at the low end.
    Bit { of: Kind, at: CoreExpr },
    /// Bits h down to l of a value of kind `of`; l is at most h, and h is below the width.
    Range { of: Kind, h: u32, l: u32 },
}

impl CoreExpr {
    /// The expression of a kind at a place; its node goes onto the heap.
    pub fn new(
        alloc: Global,
        place: Place,
        kind: Kind,
        node: CoreExprNode,
    ) -> Result<CoreExpr, NoMemory>
        ensures { IfOk result (λ e. e ≡ record { place = place; kind = kind; node = node }) }
    {
        Ok(CoreExpr {
            place,
            kind,
            node: Boxed::new(alloc, node)?,
        })
    }
}

impl CoreLeft {
    /// The location that a base names by itself.
    pub fn new(alloc: Global, place: Place, base: CoreBase) -> CoreLeft {
        CoreLeft {
            place,
            base,
            parts: List::new(alloc),
            pick: None,
        }
    }

    /// The part of a number that is taken of it.
    pub fn into_pick(self) -> Option<CorePick>
        ensures { result ≡ self.pick }
    {
        let CoreLeft {
            place: _,
            base: _base,
            parts: _parts,
            pick,
        } = self;
        pick
    }
}

impl Drop for CoreExpr {
    #[cycle(gone)]
    fn drop(mut self) {
        loop {
            let CoreExpr {
                place: _,
                kind: _,
                node,
            } = self;
            match Boxed::into_inner(node) {
                CoreExprNode::Lit(_word) => return,
                CoreExprNode::Convert(of) => self = of,
                CoreExprNode::Operate {
                    op: _op,
                    left,
                    right,
                } => {
                    drop(right);
                    self = left;
                }
                CoreExprNode::Choose { test, yes, no } => {
                    drop(yes);
                    drop(no);
                    self = test;
                }
                CoreExprNode::Pick { of, pick } => {
                    drop(pick);
                    self = of;
                }
                CoreExprNode::Join(list) => {
                    drop(list);
                    return;
                }
                CoreExprNode::Load(left) => {
                    drop(left);
                    return;
                }
                CoreExprNode::Read(left) => {
                    drop(left);
                    return;
                }
            }
        }
    }
}

impl Drop for CoreLeft {
    #[cycle(gone)]
    fn drop(mut self) {
        loop {
            let CoreLeft {
                place: _,
                base,
                parts,
                pick,
            } = self;
            drop(parts);
            drop(pick);
            match base {
                CoreBase::Cell(_cell) => return,
                CoreBase::Prefix(name) => {
                    drop(name);
                    return;
                }
                CoreBase::Follow {
                    pointer,
                    soft: _soft,
                } => self = Boxed::into_inner(pointer),
                CoreBase::Null => return,
            }
        }
    }
}
