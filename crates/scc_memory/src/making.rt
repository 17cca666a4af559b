//! The module with memories of an emitted module.
use crate::declared::{Declared, declare};
use crate::expressions::{binary, literal, node, number};
use crate::module::{MemArm, MemBlock, MemExpr, MemExprNode, MemModule, MemSet, MemStmt};
use crate::rewrite::Maker;
use scc_base::{List, NoMemory, Text, lost};
use scc_memory_arrays::{Spot, Write, first_run, is_start, taken, write_of};
use scc_svtree::{
    SvArm, SvBinary, SvBlock, SvExpr, SvLeft, SvLoad, SvModule, SvReset, SvSet, SvStmt, VarId,
};
use std::alloc::Global;

/// The module in which the arrays that can be memories are memories, for a module without wrong sizes, names and drivers. An
/// assignment of an element sets what is written, where and whether; a read is a choice between what is being written and what the
/// memory holds.
pub fn memories(alloc: Global, m: &SvModule) -> Result<MemModule, NoMemory> {
    let arrays = taken(alloc, m)?;
    let declared = declare(alloc, m.vars.as_slice(), &arrays)?;
    let maker = Maker {
        alloc,
        vars: m.vars.as_slice(),
        arrays: &arrays,
        declared: &declared,
    };
    let mut blocks = List::new(alloc);
    for b in m.blocks.as_slice() {
        blocks.push(maker.block(b)?)?;
    }
    let name = Text::from_bytes(alloc, m.name.bytes())?;
    let Declared { vars, memories, .. } = declared;
    Ok(MemModule {
        name,
        vars,
        blocks,
        memories,
    })
}

impl<'a> Maker<'a> {
    fn block(&self, b: &SvBlock) -> Result<MemBlock, NoMemory> {
        match b {
            SvBlock::Comb(body) => Ok(MemBlock::Comb(self.body(body.as_slice())?)),
            SvBlock::Edge {
                rising,
                clock,
                reset,
                sets,
            } => Ok(MemBlock::Edge {
                rising: *rising,
                clock: self.declared.id(*clock)?,
                reset: match reset {
                    Some(reset) => Some(self.reset(reset)?),
                    None => None,
                },
                sets: self.sets(sets.as_slice())?,
            }),
        }
    }

    fn reset(&self, reset: &SvReset) -> Result<SvReset, NoMemory> {
        let mut values = List::new(self.alloc);
        for load in reset.values.as_slice() {
            values.push(SvLoad {
                target: self.declared.id(load.target)?,
                value: load.value,
            })?;
        }
        Ok(SvReset {
            signal: self.declared.id(reset.signal)?,
            rising: reset.rising,
            values,
        })
    }

    // What an edge sets: a memory stands in place of its first element.
    fn sets(&self, sets: &[SvSet]) -> Result<List<MemSet>, NoMemory> {
        let mut out = List::new(self.alloc);
        for set in sets {
            match self.arrays.element(set.target) {
                Some(spot) if spot.at == 0 => {
                    out.push(MemSet::Memory(self.declared.number(spot.array)?))?;
                }
                Some(_) => {}
                None => out.push(MemSet::Register {
                    target: self.declared.id(set.target)?,
                    value: self.expr(&set.value, None)?,
                })?,
            }
        }
        Ok(out)
    }

    // The statements of a block, which begin with those that keep elements.
    fn body(&self, body: &[SvStmt]) -> Result<List<MemStmt>, NoMemory> {
        let first = first_run(self.alloc, self.vars, body)?;
        let mut out = List::new(self.alloc);
        for (number, s) in body.iter().enumerate() {
            if number < first && is_start(self.arrays, s) {
                self.start(s, &mut out)?;
            } else {
                self.stmt(s, &mut out)?;
            }
        }
        Ok(out)
    }

    // Nothing is written at first; that stands in place of the first element.
    fn start(&self, s: &SvStmt, out: &mut List<MemStmt>) -> Result<(), NoMemory> {
        let SvStmt::Assign {
            left: SvLeft::Whole(v),
            ..
        } = s
        else {
            return Err(lost());
        };
        match self.arrays.next(*v) {
            Some(Spot { array, at: 0 }) => {
                let memory = self.declared.memory_of(array)?;
                self.zero(memory.write, 1, out)?;
                let Some(of) = self.arrays.get(array) else {
                    return Err(lost());
                };
                self.zero(memory.address, of.address, out)?;
                self.zero(memory.value, of.width, out)
            }
            Some(_) => Ok(()),
            None => Err(lost()),
        }
    }

    fn zero(&self, v: VarId, width: u32, out: &mut List<MemStmt>) -> Result<(), NoMemory> {
        out.push(MemStmt::Assign {
            left: SvLeft::Whole(v),
            value: literal(self.alloc, width, 0)?,
        })
    }

    #[cycle(remade)]
    fn stmts(&self, body: &[SvStmt]) -> Result<List<MemStmt>, NoMemory> {
        let mut out = List::new(self.alloc);
        for s in body {
            self.stmt(s, &mut out)?;
        }
        Ok(out)
    }

    #[cycle(remade)]
    fn stmt(&self, s: &SvStmt, out: &mut List<MemStmt>) -> Result<(), NoMemory> {
        match s {
            SvStmt::Assign { left, value } => self.assignment(left, value, out),
            SvStmt::If { test, yes, no } => out.push(MemStmt::If {
                test: self.expr(test, None)?,
                yes: self.stmts(yes.as_slice())?,
                no: self.stmts(no.as_slice())?,
            }),
            SvStmt::Case { of, arms } => {
                match write_of(self.alloc, self.arrays, of, arms.as_slice())? {
                    Some(write) => self.chosen_write(write, out),
                    None => out.push(MemStmt::Case {
                        of: self.expr(of, None)?,
                        arms: self.arms(arms.as_slice())?,
                    }),
                }
            }
        }
    }

    #[cycle(remade)]
    fn arms(&self, arms: &[SvArm]) -> Result<List<MemArm>, NoMemory> {
        let mut out = List::new(self.alloc);
        for arm in arms {
            out.push(MemArm {
                label: arm.label,
                body: self.stmts(arm.body.as_slice())?,
            })?;
        }
        Ok(out)
    }

    fn assignment(
        &self,
        left: &SvLeft,
        value: &SvExpr,
        out: &mut List<MemStmt>,
    ) -> Result<(), NoMemory> {
        if let SvLeft::Whole(v) = left {
            if let Some(spot) = self.arrays.next(*v) {
                let at = self.address(spot)?;
                return self.write(spot.array, at, value, out);
            }
        }
        out.push(MemStmt::Assign {
            left: self.renumbered(left)?,
            value: self.expr(value, None)?,
        })
    }

    // What is written, where, and that it is.
    fn write(
        &self,
        array: u32,
        at: MemExpr,
        value: &SvExpr,
        out: &mut List<MemStmt>,
    ) -> Result<(), NoMemory> {
        let memory = self.declared.memory_of(array)?;
        out.push(MemStmt::Assign {
            left: SvLeft::Whole(memory.value),
            value: self.expr(value, None)?,
        })?;
        out.push(MemStmt::Assign {
            left: SvLeft::Whole(memory.address),
            value: at,
        })?;
        out.push(MemStmt::Assign {
            left: SvLeft::Whole(memory.write),
            value: literal(self.alloc, 1, 1)?,
        })
    }

    // An assignment of the element that a variable chooses, tested where the variable can pass them.
    fn chosen_write(&self, write: Write<'_>, out: &mut List<MemStmt>) -> Result<(), NoMemory> {
        let Some(var) = self.vars.get(write.at.0 as usize) else {
            return Err(lost());
        };
        let at = self.index(write.array, write.at)?;
        if var.width < 32 && write.count >> var.width != 0 {
            return self.write(write.array, at, write.value, out);
        }
        let test = self.below(write.at, var.width, write.count)?;
        let mut yes = List::new(self.alloc);
        self.write(write.array, at, write.value, &mut yes)?;
        let no = List::new(self.alloc);
        out.push(MemStmt::If { test, yes, no })
    }

    // Whether a variable is less than a number.
    fn below(&self, v: VarId, width: u32, bound: u32) -> Result<MemExpr, NoMemory> {
        let alloc = self.alloc;
        let index = self.location(&SvLeft::Whole(v))?;
        let bound = node(alloc, MemExprNode::Literal(number(width, bound)))?;
        binary(alloc, SvBinary::Lt, index, bound)
    }
}
