//! The module without memories that a module with memories came from.
use crate::address::{At, Names};
use crate::module::{MemArm, MemBlock, MemExpr, MemExprNode, MemModule, MemSet, MemStmt, Memory};
use crate::opened::{Opened, open_all};
use crate::opening::{Opener, number, variable};
use scc_base::{List, NoMemory, Text, lost};
use scc_svtree::{
    SvArm, SvBinary, SvBlock, SvLeft, SvLoad, SvModule, SvReset, SvSet, SvStmt, VarId,
};
use std::alloc::Global;

/// The module in which each memory is an array of registers again, as `memories` met it in an emitted module: a variable chooses
/// among as many elements as it can. Want of memory also where the module is of no such form.
pub fn expanded(alloc: Global, m: &MemModule) -> Result<SvModule, NoMemory> {
    let opened = open_all(alloc, m)?;
    let opener = Opener {
        alloc,
        names: Names { m, opened: &opened },
    };
    let mut blocks = List::new(alloc);
    for b in m.blocks.as_slice() {
        blocks.push(opener.block(b)?)?;
    }
    let name = Text::from_bytes(alloc, m.name.bytes())?;
    let Opened { vars, .. } = opened;
    Ok(SvModule { name, vars, blocks })
}

/// A write of a memory: what, where.
#[derive(Clone, Copy)]
struct Write<'a> {
    memory: u32,
    value: &'a MemExpr,
    at: At,
}

// The variable and the value of an assignment of a variable as a whole.
fn assigned(s: &MemStmt) -> Option<(VarId, &MemExpr)> {
    match s {
        MemStmt::Assign {
            left: SvLeft::Whole(v),
            value,
        } => Some((*v, value)),
        _ => None,
    }
}

fn is_literal(e: &MemExpr, n: u128) -> bool {
    match e.node.get() {
        MemExprNode::Literal(l) => l.value.bits == n,
        _ => false,
    }
}

impl<'a> Opener<'a> {
    fn block(&self, b: &'a MemBlock) -> Result<SvBlock, NoMemory> {
        match b {
            MemBlock::Comb(body) => Ok(SvBlock::Comb(self.stmts(body.as_slice())?)),
            MemBlock::Edge {
                rising,
                clock,
                reset,
                sets,
            } => Ok(SvBlock::Edge {
                rising: *rising,
                clock: self.id(*clock)?,
                reset: match reset {
                    Some(reset) => Some(self.reset(reset)?),
                    None => None,
                },
                sets: self.sets(sets.as_slice())?,
            }),
        }
    }

    fn reset(&self, reset: &SvReset) -> Result<SvReset, NoMemory> {
        let mut values = List::new(self.alloc);
        for load in reset.values.as_slice() {
            values.push(SvLoad {
                target: self.id(load.target)?,
                value: load.value,
            })?;
        }
        Ok(SvReset {
            signal: self.id(reset.signal)?,
            rising: reset.rising,
            values,
        })
    }

    fn sets(&self, sets: &'a [MemSet]) -> Result<List<SvSet>, NoMemory> {
        let mut out = List::new(self.alloc);
        for set in sets {
            match set {
                MemSet::Register { target, value } => out.push(SvSet {
                    target: self.id(*target)?,
                    value: self.expr(value)?,
                })?,
                MemSet::Memory(memory) => self.elements(*memory, &mut out)?,
            }
        }
        Ok(out)
    }

    // Each element takes its next value.
    fn elements(&self, memory: u32, out: &mut List<SvSet>) -> Result<(), NoMemory> {
        for at in 0..self.names.memory(memory)?.size {
            let next = self.names.opened.next(memory, at)?;
            out.push(SvSet {
                target: self.names.opened.element(memory, at)?,
                value: variable(self.alloc, next)?,
            })?;
        }
        Ok(())
    }

    // The memory to which a variable belongs.
    fn memory_of(&self, v: VarId) -> Option<u32> {
        self.names.opened.of.get(v.0 as usize).copied().flatten()
    }

    // The memory that statements begin to leave as it is.
    fn start(&self, list: &'a [MemStmt]) -> Option<u32> {
        let [first, second, third, ..] = list else {
            return None;
        };
        let (write, zero) = assigned(first)?;
        let (address, nowhere) = assigned(second)?;
        let (value, nothing) = assigned(third)?;
        let number = self.memory_of(write)?;
        let memory = self.names.m.memories.get(number as usize)?;
        let is_start = write == memory.write
            && address == memory.address
            && value == memory.value
            && is_literal(zero, 0)
            && is_literal(nowhere, 0)
            && is_literal(nothing, 0);
        is_start.then_some(number)
    }

    // The write that statements begin with.
    fn write(&self, list: &'a [MemStmt]) -> Result<Option<Write<'a>>, NoMemory> {
        let [first, second, third, ..] = list else {
            return Ok(None);
        };
        let (Some((to, value)), Some((address, at)), Some((write, is))) = (
            assigned(first),
            assigned(second),
            assigned(third),
        ) else {
            return Ok(None);
        };
        let Some(number) = self.memory_of(to) else {
            return Ok(None);
        };
        let memory = self.names.memory(number)?;
        let is_write = to == memory.value
            && address == memory.address
            && write == memory.write
            && is_literal(is, 1);
        if !is_write {
            return Ok(None);
        }
        match self.names.at(number, at)? {
            Some(at) => Ok(Some(Write {
                memory: number,
                value,
                at,
            })),
            None => Err(lost()),
        }
    }

    #[cycle(spread)]
    fn stmts(&self, list: &'a [MemStmt]) -> Result<List<SvStmt>, NoMemory> {
        let mut out = List::new(self.alloc);
        let mut behind = 0;
        for (number, s) in list.iter().enumerate() {
            if number < behind {
                continue;
            }
            let rest = &list[number..];
            if let Some(write) = self.write(rest)? {
                self.written(write, &mut out)?;
                behind = number + 3;
            } else if let Some(memory) = self.start(rest) {
                self.started(memory, &mut out)?;
                behind = number + 3;
            } else {
                self.stmt(s, &mut out)?;
            }
        }
        Ok(out)
    }

    // Each next value begins with its element.
    fn started(&self, memory: u32, out: &mut List<SvStmt>) -> Result<(), NoMemory> {
        for at in 0..self.names.memory(memory)?.size {
            let element = self.names.opened.element(memory, at)?;
            out.push(SvStmt::Assign {
                left: SvLeft::Whole(self.names.opened.next(memory, at)?),
                value: variable(self.alloc, element)?,
            })?;
        }
        Ok(())
    }

    fn assignment(&self, memory: u32, at: u32, value: &'a MemExpr) -> Result<SvStmt, NoMemory> {
        Ok(SvStmt::Assign {
            left: SvLeft::Whole(self.names.opened.next(memory, at)?),
            value: self.expr(value)?,
        })
    }

    // An assignment of one element, or a `case` of those that a variable can choose.
    fn written(&self, write: Write<'a>, out: &mut List<SvStmt>) -> Result<(), NoMemory> {
        let v = match write.at {
            At::Constant(at) => {
                return out.push(self.assignment(write.memory, at, write.value)?);
            }
            At::Variable(v) => v,
        };
        let width = self.names.opened.width(v)?;
        let mut arms = List::new(self.alloc);
        for at in 0..self.count(write.memory, v)? {
            let mut body = List::new(self.alloc);
            body.push(self.assignment(write.memory, at, write.value)?)?;
            arms.push(SvArm {
                label: number(width, at),
                body,
            })?;
        }
        let of = variable(self.alloc, v)?;
        out.push(SvStmt::Case { of, arms })
    }

    #[cycle(spread)]
    fn stmt(&self, s: &'a MemStmt, out: &mut List<SvStmt>) -> Result<(), NoMemory> {
        match s {
            MemStmt::Assign { left, value } => out.push(SvStmt::Assign {
                left: self.renumbered(left)?,
                value: self.expr(value)?,
            }),
            MemStmt::If { test, yes, no } => {
                if no.is_empty() {
                    if let Some(write) = self.guarded(test, yes.as_slice())? {
                        return self.written(write, out);
                    }
                }
                let test = self.expr(test)?;
                let yes = self.stmts(yes.as_slice())?;
                let no = self.stmts(no.as_slice())?;
                out.push(SvStmt::If { test, yes, no })
            }
            MemStmt::Case { of, arms } => {
                let of = self.expr(of)?;
                let arms = self.arms(arms.as_slice())?;
                out.push(SvStmt::Case { of, arms })
            }
        }
    }

    #[cycle(spread)]
    fn arms(&self, arms: &'a [MemArm]) -> Result<List<SvArm>, NoMemory> {
        let mut out = List::new(self.alloc);
        for arm in arms {
            out.push(SvArm {
                label: arm.label,
                body: self.stmts(arm.body.as_slice())?,
            })?;
        }
        Ok(out)
    }

    // The write by a variable that can pass the elements, under the test that it doesn't.
    fn guarded(
        &self,
        test: &'a MemExpr,
        yes: &'a [MemStmt],
    ) -> Result<Option<Write<'a>>, NoMemory> {
        if yes.len() != 3 {
            return Ok(None);
        }
        let Some(write) = self.write(yes)? else {
            return Ok(None);
        };
        let At::Variable(v) = write.at else {
            return Ok(None);
        };
        let Memory { size, .. } = self.names.memory(write.memory)?;
        let width = self.names.opened.width(v)?;
        let passes = width >= 32 || *size >> width == 0;
        Ok(if passes && self.is_below(test, v, width, *size)? {
            Some(write)
        } else {
            None
        })
    }

    // Whether a test says that a variable is less than a number.
    fn is_below(
        &self,
        test: &'a MemExpr,
        v: VarId,
        width: u32,
        bound: u32,
    ) -> Result<bool, NoMemory> {
        let MemExprNode::Binary {
            op: SvBinary::Lt,
            left,
            right,
        } = test.node.get()
        else {
            return Ok(false);
        };
        let MemExprNode::Literal(l) = right.node.get() else {
            return Ok(false);
        };
        let is_bound = l.width == width && l.value.bits == u128::from(bound);
        match self.names.named(left)? {
            Some(named) => Ok(is_bound && named.var == v),
            None => Ok(false),
        }
    }
}
