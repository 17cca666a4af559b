//! How a module uses the elements of arrays.
use crate::array::Arrays;
use crate::tree::{Guard, guard_of, read_of};
use crate::write::{is_start, write_of};
use scc_base::{NoMemory, lost, push};
use scc_svtree::{SvArm, SvExpr, SvExprNode, SvLeft, SvModule, SvStmt, VarId};
use std::alloc::Global;

/// An expression, and what the test around it says.
#[derive(Clone, Copy)]
struct Under<'a> {
    e: &'a SvExpr,
    guard: Option<Guard>,
}

/// What is known of the arrays of a module.
#[derive(Drop)]
pub struct Uses<'a> {
    pub alloc: Global,
    pub m: &'a SvModule,
    pub arrays: &'a Arrays,
    /// For each array whether it can still be a memory.
    pub good: Vec<bool>,
    /// For each array whether a variable chooses among its elements.
    pub used: Vec<bool>,
}

impl<'a> Uses<'a> {
    pub fn new(alloc: Global, m: &'a SvModule, arrays: &'a Arrays) -> Result<Uses<'a>, NoMemory> {
        let mut uses = Uses {
            alloc,
            m,
            arrays,
            good: Vec::new(alloc),
            used: Vec::new(alloc),
        };
        for _array in arrays.list.iter() {
            push(&mut uses.good, true)?;
            push(&mut uses.used, false)?;
        }
        Ok(uses)
    }

    /// An array can be no memory.
    pub fn refuse(&mut self, array: u32) {
        if let Some(good) = self.good.get_mut(array as usize) {
            *good = false;
        }
    }

    fn choose(&mut self, array: u32) {
        if let Some(used) = self.used.get_mut(array as usize) {
            *used = true;
        }
    }

    /// An element or its next value stands where none of a memory can stand.
    pub fn mention(&mut self, v: VarId) {
        if let Some(spot) = self.arrays.element(v) {
            self.refuse(spot.array);
        } else if let Some(spot) = self.arrays.next(v) {
            self.refuse(spot.array);
        }
    }

    /// Goes through a block, whose first statements, so many, may begin the elements.
    pub fn block(&mut self, body: &'a [SvStmt], first: usize) -> Result<(), NoMemory> {
        for (number, s) in body.iter().enumerate() {
            if number >= first || !is_start(self.arrays, s) {
                self.stmt(s)?;
            }
        }
        Ok(())
    }

    #[cycle(uses)]
    fn list(&mut self, body: &'a [SvStmt]) -> Result<(), NoMemory> {
        for s in body {
            self.stmt(s)?;
        }
        Ok(())
    }

    #[cycle(uses)]
    fn stmt(&mut self, s: &'a SvStmt) -> Result<(), NoMemory> {
        match s {
            SvStmt::Assign { left, value } => {
                self.left(left);
                self.expr(value)
            }
            SvStmt::If { test, yes, no } => {
                self.expr(test)?;
                self.list(yes.as_slice())?;
                self.list(no.as_slice())
            }
            SvStmt::Case { of, arms } => {
                self.note_write(of, arms.as_slice())?;
                self.expr(of)?;
                self.arms(arms.as_slice())
            }
        }
    }

    #[cycle(uses)]
    fn arms(&mut self, arms: &'a [SvArm]) -> Result<(), NoMemory> {
        for arm in arms {
            self.list(arm.body.as_slice())?;
        }
        Ok(())
    }

    // A `case` that chooses among the elements of an array.
    fn note_write(&mut self, of: &SvExpr, arms: &[SvArm]) -> Result<(), NoMemory> {
        if let Some(write) = write_of(self.alloc, self.arrays, of, arms)? {
            self.choose(write.array);
        }
        Ok(())
    }

    // A left side: a next value as a whole may stand there.
    fn left(&mut self, left: &SvLeft) {
        match left {
            SvLeft::Whole(v) => {
                if self.arrays.element(*v).is_some() {
                    self.mention(*v);
                }
            }
            SvLeft::Bit { var, .. } | SvLeft::Range { var, .. } => self.mention(*var),
        }
    }

    /// Goes through an expression.
    pub fn expr(&mut self, e: &'a SvExpr) -> Result<(), NoMemory> {
        let mut rest = Vec::new(self.alloc);
        push(&mut rest, Under { e, guard: None })?;
        for _ in 0..usize::MAX {
            let Some(next) = rest.pop() else {
                return Ok(());
            };
            self.node(next, &mut rest)?;
        }
        Err(lost())
    }

    // A node; its operands go to the rest.
    fn node(&mut self, next: Under<'a>, rest: &mut Vec<Under<'a>>) -> Result<(), NoMemory> {
        let vars = self.m.vars.as_slice();
        if let Some(read) = read_of(self.arrays, vars, next.e, next.guard) {
            self.choose(read.array);
            return self.index(read.at);
        }
        match next.e.node.get() {
            SvExprNode::Literal(_) => Ok(()),
            SvExprNode::Left(left) => {
                self.read(left);
                Ok(())
            }
            SvExprNode::Unary { of, .. }
            | SvExprNode::Cast { of, .. }
            | SvExprNode::Sign { of, .. } => later(rest, of),
            SvExprNode::Binary { left, right, .. } => {
                later(rest, left)?;
                later(rest, right)
            }
            SvExprNode::Cond { test, yes, no } => {
                later(rest, test)?;
                let guard = guard_of(test);
                push(rest, Under { e: yes, guard })?;
                later(rest, no)
            }
            SvExprNode::Concat(parts) => {
                for part in parts.as_slice() {
                    later(rest, part)?;
                }
                Ok(())
            }
        }
    }

    // The index of a choice, which may be a next value.
    fn index(&mut self, v: VarId) -> Result<(), NoMemory> {
        if self.arrays.element(v).is_some() {
            self.mention(v);
        }
        Ok(())
    }

    // A variable that is read: a next value as a whole may stand there.
    fn read(&mut self, left: &SvLeft) {
        self.left(left);
    }
}

fn later<'a>(rest: &mut Vec<Under<'a>>, e: &'a SvExpr) -> Result<(), NoMemory> {
    push(rest, Under { e, guard: None })
}
