//! Which element of a memory an address means.
use crate::module::{MemExpr, MemExprNode, MemModule, Memory};
use crate::opened::Opened;
use scc_base::{NoMemory, lost};
use scc_svtree::{SvBinary, SvLeft, VarId};

/// An element by its number, or by a variable.
#[derive(Clone, Copy, PartialEq, Eq)]
pub enum At {
    Constant(u32),
    Variable(VarId),
}

/// A read of a memory: what is being written at an address, or what it holds there.
#[derive(Clone, Copy)]
pub struct Choice {
    pub memory: u32,
    pub at: At,
}

/// Both addresses of a read.
#[derive(Clone, Copy)]
struct Addresses<'a> {
    memory: u32,
    tested: &'a MemExpr,
    at: &'a MemExpr,
}

fn is_variable(e: &MemExpr, v: VarId) -> bool {
    match e.node.get() {
        MemExprNode::Left(SvLeft::Whole(w)) => *w == v,
        _ => false,
    }
}

/// A module, and the variables that it has when its memories are arrays again.
#[derive(Clone, Copy)]
pub struct Names<'a> {
    pub m: &'a MemModule,
    pub opened: &'a Opened,
}

impl<'a> Names<'a> {
    pub fn memory(&self, number: u32) -> Result<&'a Memory, NoMemory> {
        match self.m.memories.get(number as usize) {
            Some(memory) => Ok(memory),
            None => Err(lost()),
        }
    }

    /// The width of a memory's addresses.
    pub fn address_width(&self, memory: &Memory) -> u32 {
        match self.m.vars.get(memory.address.0 as usize) {
            Some(v) => v.width,
            None => 0,
        }
    }

    // The addresses of a read, where an expression is of its form.
    fn addresses(&self, e: &'a MemExpr) -> Option<Addresses<'a>> {
        let MemExprNode::Cond { test, yes, no } = e.node.get() else {
            return None;
        };
        let MemExprNode::Element { memory, at } = no.node.get() else {
            return None;
        };
        let of = self.m.memories.get(*memory as usize)?;
        let MemExprNode::Binary {
            op: SvBinary::LogAnd,
            left: write,
            right: met,
        } = test.node.get()
        else {
            return None;
        };
        let MemExprNode::Binary {
            op: SvBinary::Eq,
            left: address,
            right: tested,
        } = met.node.get()
        else {
            return None;
        };
        let is_form = is_variable(write, of.write)
            && is_variable(address, of.address)
            && is_variable(yes, of.value);
        is_form.then_some(Addresses {
            memory: *memory,
            tested,
            at,
        })
    }

    /// The read that an expression is.
    pub fn choice(&self, e: &'a MemExpr) -> Result<Option<Choice>, NoMemory> {
        let Some(addresses) = self.addresses(e) else {
            return Ok(None);
        };
        let memory = addresses.memory;
        let tested = self.at(memory, addresses.tested)?;
        let at = self.at(memory, addresses.at)?;
        match at {
            Some(at) if tested == Some(at) => Ok(Some(Choice { memory, at })),
            _ => Err(lost()),
        }
    }

    /// The element that an address means.
    pub fn at(&self, memory: u32, e: &'a MemExpr) -> Result<Option<At>, NoMemory> {
        if let Some(number) = self.constant(memory, e)? {
            return Ok(Some(At::Constant(number)));
        }
        let width = self.address_width(self.memory(memory)?);
        let (of, is_cast) = match e.node.get() {
            MemExprNode::Cast { width: to, of } if *to == width => (of, true),
            _ => (e, false),
        };
        let (inner, is_signed) = match of.node.get() {
            MemExprNode::Sign { signed: false, of } if is_cast => (of, true),
            _ => (of, false),
        };
        let Some(Named { var, is_read }) = self.named(inner)? else {
            return Ok(None);
        };
        let own = self.opened.width(var)?;
        let is_form = is_cast == (own != width) && is_signed == (is_read && own < width);
        Ok(is_form.then_some(At::Variable(var)))
    }

    // The number that an address is.
    fn constant(&self, memory: u32, e: &MemExpr) -> Result<Option<u32>, NoMemory> {
        let of = self.memory(memory)?;
        let MemExprNode::Literal(l) = e.node.get() else {
            return Ok(None);
        };
        match u32::try_from(l.value.bits) {
            Ok(number) if number < of.size && l.width == self.address_width(of) => {
                Ok(Some(number))
            }
            _ => Err(lost()),
        }
    }

    /// The variable that an expression is when memories are arrays again, and whether it is a read of a memory.
    pub fn named(&self, e: &'a MemExpr) -> Result<Option<Named>, NoMemory> {
        if let MemExprNode::Left(SvLeft::Whole(v)) = e.node.get() {
            return Ok(
                self.opened.id(*v).map(|var| Named {
                    var,
                    is_read: false,
                }),
            );
        }
        let Some(addresses) = self.addresses(e) else {
            return Ok(None);
        };
        let memory = addresses.memory;
        let tested = self.constant(memory, addresses.tested)?;
        let at = self.constant(memory, addresses.at)?;
        match at {
            Some(at) if tested == Some(at) => Ok(Some(Named {
                var: self.opened.next(memory, at)?,
                is_read: true,
            })),
            _ => Ok(None),
        }
    }
}

/// A variable, and whether it stands as a read of a memory.
#[derive(Clone, Copy)]
pub struct Named {
    pub var: VarId,
    pub is_read: bool,
}
