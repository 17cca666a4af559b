//! Expressions over memories in place of arrays.
use crate::declared::Declared;
use crate::expressions::{binary, literal, node, unsigned, variable};
use crate::module::{MemExpr, MemExprNode};
use scc_base::{List, NoMemory, lost, push};
use scc_memory_arrays::{Arrays, Guard, Read, Spot, guard_of, read_of};
use scc_svtree::{SvBinary, SvExpr, SvExprNode, SvLeft, SvVar, VarId};
use std::alloc::Global;

/// How deep expressions nest beside their first operands.
pub const LEVELS: u32 = 8_192;

/// Makes expressions over memories.
#[derive(Clone, Copy)]
pub struct Maker<'a> {
    pub alloc: Global,
    /// The module's variables.
    pub vars: &'a [SvVar],
    pub arrays: &'a Arrays,
    pub declared: &'a Declared,
}

// The operand that is made first, if there is one.
fn first(e: &SvExpr) -> Option<&SvExpr> {
    match e.node.get() {
        SvExprNode::Unary { of, .. } | SvExprNode::Cast { of, .. } | SvExprNode::Sign { of, .. } =>
            Some(of),
        SvExprNode::Binary { left, .. } => Some(left),
        SvExprNode::Cond { test, .. } => Some(test),
        SvExprNode::Literal(_) | SvExprNode::Left(_) | SvExprNode::Concat(_) => None,
    }
}

impl<'a> Maker<'a> {
    /// An expression, where a test around it says `guard`.
    pub fn expr(&self, e: &SvExpr, guard: Option<Guard>) -> Result<MemExpr, NoMemory> {
        self.made(e, guard, LEVELS)
    }

    fn read(&self, e: &SvExpr, guard: Option<Guard>) -> Option<Read> {
        read_of(self.arrays, self.vars, e, guard)
    }

    // An expression and its first operands, from the outermost on, down to a read.
    fn spine<'b>(&self, e: &'b SvExpr, guard: Option<Guard>) -> Result<Vec<&'b SvExpr>, NoMemory> {
        let mut found = Vec::new(self.alloc);
        let mut here = e;
        let mut around = guard;
        for _ in 0..usize::MAX {
            push(&mut found, here)?;
            if self.read(here, around).is_some() {
                return Ok(found);
            }
            match first(here) {
                Some(inner) => here = inner,
                None => return Ok(found),
            }
            around = None;
        }
        Err(lost())
    }

    #[cycle(made)]
    fn made(&self, e: &SvExpr, guard: Option<Guard>, levels: u32) -> Result<MemExpr, NoMemory> {
        if levels == 0 {
            return Err(lost());
        }
        let mut chain = self.spine(e, guard)?;
        let Some(innermost) = chain.pop() else {
            return Err(lost());
        };
        let around = if chain.is_empty() { guard } else { None };
        let mut made = self.leaf(innermost, around, levels - 1)?;
        for outer in chain.iter().rev() {
            made = self.over(outer, made, levels - 1)?;
        }
        Ok(made)
    }

    // A read, or an expression without a first operand.
    #[cycle(made)]
    fn leaf(&self, e: &SvExpr, guard: Option<Guard>, levels: u32) -> Result<MemExpr, NoMemory> {
        if let Some(read) = self.read(e, guard) {
            return self.chosen(read);
        }
        match e.node.get() {
            SvExprNode::Literal(l) => node(self.alloc, MemExprNode::Literal(*l)),
            SvExprNode::Left(left) => self.location(left),
            SvExprNode::Concat(parts) => {
                let mut list = List::new(self.alloc);
                for part in parts.as_slice() {
                    list.push(self.made(part, None, levels)?)?;
                }
                node(self.alloc, MemExprNode::Concat(list))
            }
            _ => Err(lost()),
        }
    }

    #[cycle(made)]
    fn over(&self, e: &SvExpr, inner: MemExpr, levels: u32) -> Result<MemExpr, NoMemory> {
        let made = match e.node.get() {
            SvExprNode::Unary { op, .. } => MemExprNode::Unary { op: *op, of: inner },
            SvExprNode::Cast { width, of } => MemExprNode::Cast {
                width: *width,
                of: self.cast(*width, of, inner)?,
            },
            SvExprNode::Sign { signed, .. } => MemExprNode::Sign {
                signed: *signed,
                of: inner,
            },
            SvExprNode::Binary { op, right, .. } => MemExprNode::Binary {
                op: *op,
                left: inner,
                right: self.made(right, None, levels)?,
            },
            SvExprNode::Cond { test, yes, no } => MemExprNode::Cond {
                test: inner,
                yes: self.made(yes, guard_of(test), levels)?,
                no: self.made(no, None, levels)?,
            },
            _ => return Err(lost()),
        };
        node(self.alloc, made)
    }

    // The operand of a cast: a choice that stands where a name or a choice stood isn't widened.
    fn cast(&self, width: u32, of: &SvExpr, made: MemExpr) -> Result<MemExpr, NoMemory> {
        let array = match of.node.get() {
            SvExprNode::Left(SvLeft::Whole(v)) => self.arrays.next(*v).map(|spot| spot.array),
            _ => self.read(of, None).map(|read| read.array),
        };
        let Some(array) = array.and_then(|a| self.arrays.get(a)) else {
            return Ok(made);
        };
        if array.width < width {
            unsigned(self.alloc, made)
        } else {
            Ok(made)
        }
    }

    /// A location that is read.
    pub fn location(&self, left: &SvLeft) -> Result<MemExpr, NoMemory> {
        if let SvLeft::Whole(v) = left {
            if let Some(spot) = self.arrays.next(*v) {
                return self.single(spot);
            }
        }
        node(self.alloc, MemExprNode::Left(self.renumbered(left)?))
    }

    /// A location with its variable's new number.
    pub fn renumbered(&self, left: &SvLeft) -> Result<SvLeft, NoMemory> {
        Ok(match left {
            SvLeft::Whole(v) => SvLeft::Whole(self.declared.id(*v)?),
            SvLeft::Bit { var, at } => SvLeft::Bit {
                var: self.declared.id(*var)?,
                at: *at,
            },
            SvLeft::Range { var, h, l } => SvLeft::Range {
                var: self.declared.id(*var)?,
                h: *h,
                l: *l,
            },
        })
    }

    /// The number of an element as an address.
    pub fn address(&self, spot: Spot) -> Result<MemExpr, NoMemory> {
        match self.arrays.get(spot.array) {
            Some(array) => literal(self.alloc, array.address, spot.at),
            None => Err(lost()),
        }
    }

    // The next value of an element by itself.
    fn single(&self, spot: Spot) -> Result<MemExpr, NoMemory> {
        let tested = self.address(spot)?;
        let at = self.address(spot)?;
        self.element(spot.array, tested, at)
    }

    fn chosen(&self, read: Read) -> Result<MemExpr, NoMemory> {
        let tested = self.index(read.array, read.at)?;
        let at = self.index(read.array, read.at)?;
        self.element(read.array, tested, at)
    }

    // The next value of an element: what is being written there, or what it holds. Both addresses are equal.
    fn element(&self, array: u32, tested: MemExpr, at: MemExpr) -> Result<MemExpr, NoMemory> {
        let alloc = self.alloc;
        let memory = self.declared.memory_of(array)?;
        let address = variable(alloc, memory.address)?;
        let met = binary(alloc, SvBinary::Eq, address, tested)?;
        let write = variable(alloc, memory.write)?;
        let test = binary(alloc, SvBinary::LogAnd, write, met)?;
        let yes = variable(alloc, memory.value)?;
        let memory = self.declared.number(array)?;
        let no = node(alloc, MemExprNode::Element { memory, at })?;
        node(alloc, MemExprNode::Cond { test, yes, no })
    }

    /// A variable as an address of an array's memory.
    pub fn index(&self, array: u32, v: VarId) -> Result<MemExpr, NoMemory> {
        let (Some(array), Some(var)) = (self.arrays.get(array), self.vars.get(v.0 as usize)) else {
            return Err(lost());
        };
        let made = self.location(&SvLeft::Whole(v))?;
        if var.width == array.address {
            return Ok(made);
        }
        let of = if var.width < array.address && self.arrays.next(v).is_some() {
            unsigned(self.alloc, made)?
        } else {
            made
        };
        let width = array.address;
        node(self.alloc, MemExprNode::Cast { width, of })
    }
}
