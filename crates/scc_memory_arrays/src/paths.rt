//! How often a path through a block gives elements of an array new values.
use crate::array::Arrays;
use crate::write::{is_start, write_of};
use scc_base::{NoMemory, lost, push};
use scc_svtree::{SvArm, SvLeft, SvStmt};
use std::alloc::Global;

/// Which arrays got a new value on the way to a place, and which got two.
#[derive(Drop)]
pub struct Paths<'a> {
    alloc: Global,
    arrays: &'a Arrays,
    /// For each array whether it got one.
    met: Vec<bool>,
    /// For each array whether it got two on some path.
    pub twice: Vec<bool>,
}

impl<'a> Paths<'a> {
    pub fn new(alloc: Global, arrays: &'a Arrays) -> Result<Paths<'a>, NoMemory> {
        let mut paths = Paths {
            alloc,
            arrays,
            met: Vec::new(alloc),
            twice: Vec::new(alloc),
        };
        for _array in arrays.list.iter() {
            push(&mut paths.met, false)?;
            push(&mut paths.twice, false)?;
        }
        Ok(paths)
    }

    /// Goes through a block, whose first statements, so many, may begin the elements.
    pub fn block(&mut self, body: &[SvStmt], first: usize) -> Result<(), NoMemory> {
        let mut here = Vec::new(self.alloc);
        for (number, s) in body.iter().enumerate() {
            if number >= first || !is_start(self.arrays, s) {
                self.stmt(s, &mut here)?;
            }
        }
        self.forget(here.as_slice());
        Ok(())
    }

    // Goes through statements; the arrays that get a value there for the first time are added to a list.
    #[cycle(paths)]
    fn list(&mut self, body: &[SvStmt], here: &mut Vec<u32>) -> Result<(), NoMemory> {
        for s in body {
            self.stmt(s, here)?;
        }
        Ok(())
    }

    #[cycle(paths)]
    fn stmt(&mut self, s: &SvStmt, here: &mut Vec<u32>) -> Result<(), NoMemory> {
        match s {
            SvStmt::Assign { left, .. } => self.assignment(left, here),
            SvStmt::If { yes, no, .. } => {
                let mut met = Vec::new(self.alloc);
                self.list(yes.as_slice(), &mut met)?;
                self.forget(met.as_slice());
                let mut others = Vec::new(self.alloc);
                self.list(no.as_slice(), &mut others)?;
                self.forget(others.as_slice());
                self.remember(met.as_slice(), here)?;
                self.remember(others.as_slice(), here)
            }
            SvStmt::Case { of, arms } => {
                match write_of(self.alloc, self.arrays, of, arms.as_slice())? {
                    Some(write) => self.meet(write.array, here),
                    None => self.arms(arms.as_slice(), here),
                }
            }
        }
    }

    #[cycle(paths)]
    fn arms(&mut self, arms: &[SvArm], here: &mut Vec<u32>) -> Result<(), NoMemory> {
        let mut all = Vec::new(self.alloc);
        for arm in arms {
            let mut met = Vec::new(self.alloc);
            self.list(arm.body.as_slice(), &mut met)?;
            self.forget(met.as_slice());
            for array in met.iter() {
                push(&mut all, *array)?;
            }
        }
        self.remember(all.as_slice(), here)
    }

    fn assignment(&mut self, left: &SvLeft, here: &mut Vec<u32>) -> Result<(), NoMemory> {
        let (SvLeft::Whole(v) | SvLeft::Bit { var: v, .. } | SvLeft::Range { var: v, .. }) = left;
        match self.arrays.next(*v) {
            Some(spot) => self.meet(spot.array, here),
            None => Ok(()),
        }
    }

    // An array gets a value.
    fn meet(&mut self, array: u32, here: &mut Vec<u32>) -> Result<(), NoMemory> {
        let at = array as usize;
        let (Some(met), Some(twice)) = (self.met.get_mut(at), self.twice.get_mut(at)) else {
            return Err(lost());
        };
        if *met {
            *twice = true;
            return Ok(());
        }
        *met = true;
        push(here, array)
    }

    // What got a value on one branch counts for what follows both.
    fn remember(&mut self, arrays: &[u32], here: &mut Vec<u32>) -> Result<(), NoMemory> {
        for array in arrays {
            if let Some(met) = self.met.get_mut(*array as usize) {
                if !*met {
                    *met = true;
                    push(here, *array)?;
                }
            }
        }
        Ok(())
    }

    // Another branch begins without what one branch gave.
    fn forget(&mut self, arrays: &[u32]) {
        for array in arrays {
            if let Some(met) = self.met.get_mut(*array as usize) {
                *met = false;
            }
        }
    }
}
