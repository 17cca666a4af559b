//! Expressions over arrays in place of memories.
use crate::address::{At, Choice, Names};
use crate::module::{MemExpr, MemExprNode};
use scc_base::{Boxed, List, NoMemory, lost, push};
use scc_bits::Word;
use scc_svtree::{SvBinary, SvExpr, SvExprNode, SvLeft, SvLiteral, VarId};
use std::alloc::Global;

/// How deep expressions nest beside their first operands.
const LEVELS: u32 = 8_192;

/// How deep a choice among all elements is.
const TREE: u32 = 40;

pub fn node(alloc: Global, of: SvExprNode) -> Result<SvExpr, NoMemory> {
    Ok(SvExpr {
        node: Boxed::new(alloc, of)?,
    })
}

/// A variable as a whole.
pub fn variable(alloc: Global, v: VarId) -> Result<SvExpr, NoMemory> {
    node(alloc, SvExprNode::Left(SvLeft::Whole(v)))
}

pub fn number(width: u32, n: u32) -> SvLiteral {
    SvLiteral {
        width,
        value: Word {
            bits: u128::from(n),
        },
    }
}

// The operand that is made first, if there is one.
fn first(e: &MemExpr) -> Option<&MemExpr> {
    match e.node.get() {
        MemExprNode::Unary { of, .. }
        | MemExprNode::Cast { of, .. }
        | MemExprNode::Sign { of, .. } => Some(of),
        MemExprNode::Binary { left, .. } => Some(left),
        MemExprNode::Cond { test, .. } => Some(test),
        MemExprNode::Literal(_)
        | MemExprNode::Left(_)
        | MemExprNode::Concat(_)
        | MemExprNode::Element { .. } => None,
    }
}

/// Makes expressions over arrays.
#[derive(Clone, Copy)]
pub struct Opener<'a> {
    pub alloc: Global,
    pub names: Names<'a>,
}

impl<'a> Opener<'a> {
    pub fn expr(&self, e: &'a MemExpr) -> Result<SvExpr, NoMemory> {
        self.made(e, LEVELS)
    }

    // An expression and its first operands, from the outermost on, down to a read.
    fn spine(&self, e: &'a MemExpr) -> Result<Vec<&'a MemExpr>, NoMemory> {
        let mut found = Vec::new(self.alloc);
        let mut here = e;
        for _ in 0..usize::MAX {
            push(&mut found, here)?;
            if self.names.choice(here)?.is_some() {
                return Ok(found);
            }
            match first(here) {
                Some(inner) => here = inner,
                None => return Ok(found),
            }
        }
        Err(lost())
    }

    #[cycle(opened)]
    fn made(&self, e: &'a MemExpr, levels: u32) -> Result<SvExpr, NoMemory> {
        if levels == 0 {
            return Err(lost());
        }
        let mut chain = self.spine(e)?;
        let Some(innermost) = chain.pop() else {
            return Err(lost());
        };
        let mut made = self.leaf(innermost, levels - 1)?;
        for outer in chain.iter().rev() {
            made = self.over(outer, made, levels - 1)?;
        }
        Ok(made)
    }

    // A read, or an expression without a first operand.
    #[cycle(opened)]
    fn leaf(&self, e: &'a MemExpr, levels: u32) -> Result<SvExpr, NoMemory> {
        if let Some(choice) = self.names.choice(e)? {
            return self.chosen(choice);
        }
        match e.node.get() {
            MemExprNode::Literal(l) => node(self.alloc, SvExprNode::Literal(*l)),
            MemExprNode::Left(left) => {
                node(self.alloc, SvExprNode::Left(self.renumbered(left)?))
            }
            MemExprNode::Concat(parts) => {
                let mut list = List::new(self.alloc);
                for part in parts.as_slice() {
                    list.push(self.made(part, levels)?)?;
                }
                node(self.alloc, SvExprNode::Concat(list))
            }
            _ => Err(lost()),
        }
    }

    #[cycle(opened)]
    fn over(&self, e: &'a MemExpr, inner: SvExpr, levels: u32) -> Result<SvExpr, NoMemory> {
        let made = match e.node.get() {
            MemExprNode::Unary { op, .. } => SvExprNode::Unary { op: *op, of: inner },
            MemExprNode::Cast { width, .. } => SvExprNode::Cast {
                width: *width,
                of: inner,
            },
            MemExprNode::Sign { signed, of } => {
                if !*signed && self.is_single(of)? {
                    return Ok(inner);
                }
                SvExprNode::Sign {
                    signed: *signed,
                    of: inner,
                }
            }
            MemExprNode::Binary { op, right, .. } => SvExprNode::Binary {
                op: *op,
                left: inner,
                right: self.made(right, levels)?,
            },
            MemExprNode::Cond { yes, no, .. } => SvExprNode::Cond {
                test: inner,
                yes: self.made(yes, levels)?,
                no: self.made(no, levels)?,
            },
            _ => return Err(lost()),
        };
        node(self.alloc, made)
    }

    // Whether an expression is a read of one element, which stands without sign only where it would be widened.
    fn is_single(&self, e: &'a MemExpr) -> Result<bool, NoMemory> {
        match self.names.choice(e)? {
            Some(
                Choice {
                    at: At::Constant(_),
                    ..
                },
            ) => Ok(true),
            _ => Ok(false),
        }
    }

    /// A location with its variable's new number.
    pub fn renumbered(&self, left: &SvLeft) -> Result<SvLeft, NoMemory> {
        Ok(match left {
            SvLeft::Whole(v) => SvLeft::Whole(self.id(*v)?),
            SvLeft::Bit { var, at } => SvLeft::Bit {
                var: self.id(*var)?,
                at: *at,
            },
            SvLeft::Range { var, h, l } => SvLeft::Range {
                var: self.id(*var)?,
                h: *h,
                l: *l,
            },
        })
    }

    /// The new number of a variable that belongs to no memory.
    pub fn id(&self, v: VarId) -> Result<VarId, NoMemory> {
        match self.names.opened.id(v) {
            Some(id) => Ok(id),
            None => Err(lost()),
        }
    }

    fn chosen(&self, choice: Choice) -> Result<SvExpr, NoMemory> {
        match choice.at {
            At::Constant(number) => {
                variable(self.alloc, self.names.opened.next(choice.memory, number)?)
            }
            At::Variable(v) => {
                let count = self.count(choice.memory, v)?;
                let tree = Tree {
                    alloc: self.alloc,
                    names: self.names,
                    memory: choice.memory,
                    at: v,
                    width: self.names.opened.width(v)?,
                };
                tree.part(0, count, TREE)
            }
        }
    }

    /// How many elements of a memory a variable can choose among.
    pub fn count(&self, memory: u32, v: VarId) -> Result<u32, NoMemory> {
        let size = self.names.memory(memory)?.size;
        let width = self.names.opened.width(v)?;
        Ok(if width < 32 && size >> width != 0 {
            1 << width
        } else {
            size
        })
    }
}

/// Choices among the elements of a memory by a variable.
#[derive(Clone, Copy)]
struct Tree<'a> {
    alloc: Global,
    names: Names<'a>,
    memory: u32,
    at: VarId,
    width: u32,
}

impl Tree<'_> {
    // The choice among the elements from `low` to before `high`.
    fn part(&self, low: u32, high: u32, levels: u32) -> Result<SvExpr, NoMemory> {
        let alloc = self.alloc;
        if levels == 0 || high <= low {
            return Err(lost());
        }
        if high - low == 1 {
            return variable(alloc, self.names.opened.next(self.memory, low)?);
        }
        let middle = low + (high - low) / 2;
        let left = variable(alloc, self.at)?;
        let right = node(alloc, SvExprNode::Literal(number(self.width, middle)))?;
        let op = SvBinary::Lt;
        let test = node(alloc, SvExprNode::Binary { op, left, right })?;
        let yes = self.part(low, middle, levels - 1)?;
        let no = self.part(middle, high, levels - 1)?;
        node(alloc, SvExprNode::Cond { test, yes, no })
    }
}
