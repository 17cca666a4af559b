//! Processes, and how one is resumed (IEEE 1666-2011, 4.2.1: the scheduling algorithm; 5.2.18: wait).
use crate::runner::{RunStop, Runner};
use scc_base::{NoMemory, lost, push};
use scc_machine_code::{Halt, Thread};

/// A reset: the slot of the word that its signal shows, and the level at which its thread starts again.
#[derive(Clone, Copy)]
pub struct ResetAt {
    pub slot: u32,
    pub level: bool,
}

/// How far a thread came.
#[derive(Clone, Copy, PartialEq, Eq)]
pub enum Stage {
    /// Before its first statement.
    Fresh,
    /// After a wait.
    Suspended,
    /// After its last statement.
    Ended,
}

/// A process that runs.
#[derive(Drop)]
pub struct Running {
    pub thread: Thread,
    pub is_thread: bool,
    pub reset: Option<ResetAt>,
    /// The number of its clock's port.
    pub clock: Option<u32>,
    pub stage: Stage,
    /// How many edges it waits for before it goes on.
    pub waits: u32,
    pub is_due: bool,
}

impl<'a> Runner<'a> {
    /// Whether a reset has the level at which its thread starts again.
    pub(crate) fn is_active(&self, reset: Option<ResetAt>) -> bool {
        match reset {
            Some(reset) => (self.machine.store.word(reset.slot) != 0) == reset.level,
            None => false,
        }
    }

    /// The reset of the process of a number.
    pub(crate) fn reset_at(&self, number: u32) -> Result<Option<ResetAt>, NoMemory> {
        match self.processes.get(number as usize) {
            Some(process) => Ok(process.reset),
            None => Err(lost()),
        }
    }

    /// Runs a method from its first statement to its end; lets a thread go on, or start where its reset has its level.
    pub(crate) fn resume(&mut self, number: u32) -> Result<(), RunStop> {
        let is_reset = self.is_active(self.reset_at(number)?);
        let Some(bound) = self.bounds.get(number as usize) else {
            return Err(RunStop::from(lost()));
        };
        let bound = *bound;
        let Some(process) = self.processes.get_mut(number as usize) else {
            return Err(RunStop::from(lost()));
        };
        process.is_due = false;
        if is_reset || !process.is_thread {
            process.stage = Stage::Fresh;
        }
        match process.stage {
            Stage::Ended => return Ok(()),
            Stage::Fresh => process.thread.restart(),
            Stage::Suspended => {
                if process.waits > 0 {
                    process.waits -= 1;
                    return if bound == 0 {
                        Err(RunStop::Bound(number))
                    } else {
                        Ok(())
                    };
                }
            }
        }
        match self.machine.go(&mut process.thread, bound)? {
            Halt::Over => Err(RunStop::Bound(number)),
            Halt::Ended => {
                process.stage = Stage::Ended;
                Ok(())
            }
            Halt::Waits(n) => {
                process.stage = Stage::Suspended;
                process.waits = n.saturating_sub(1);
                if process.is_thread {
                    Ok(())
                } else {
                    Err(RunStop::Bound(number))
                }
            }
        }
    }

    /// Resumes processes one after the other.
    pub(crate) fn resume_all(&mut self, numbers: &[u32]) -> Result<(), RunStop> {
        for number in numbers {
            self.resume(*number)?;
        }
        Ok(())
    }

    /// Notes that a method is to run.
    pub(crate) fn make_due(&mut self, number: u32) -> Result<(), NoMemory> {
        match self.processes.get_mut(number as usize) {
            Some(process) if process.is_due => Ok(()),
            Some(process) => {
                process.is_due = true;
                push(&mut self.due, number)
            }
            None => Err(lost()),
        }
    }
}
