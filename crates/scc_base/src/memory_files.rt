ghost use Rattle.std.specs.Prelude.{◌≡◌, ◌≤◌, OnOk, OnErr, IfOk, IfErr, take, None, false};

use crate::entries::{Entry, content_of, put};
use crate::plan::Plan;
use crate::{FileFault, Files, NoMemory};
use std::alloc::Global;

/// Files in memory. The reads whose numbers were named fail, and no others; in every other read a name that was not
/// added is missing.
pub struct MemFiles {
    alloc: Global,
    entries: Vec<Entry>,
    plan: Plan,
    misses: u64,
    faults: u64,
}

impl Drop for MemFiles {
    fn drop(self) {
        let MemFiles {
            alloc: _alloc,
            entries: _entries,
            plan: _plan,
            misses: _misses,
            faults: _faults,
        } = self;
    }
}

impl MemFiles {
    ghost use Rattle.std.specs.Prelude.{[], ◌∷◌, ◌++◌};
    ghost use Rattle.scc_base.specs.Memory.{mem_shelf, mem_calls, mem_failing, mem_misses, mem_faults};
    ghost use Rattle.scc_base.specs.Shelf.{Puts};

    /// No files, and no read that is to fail. It takes no memory.
    pub fn new(alloc: Global) -> MemFiles
        ensures empty { (n : _) → mem_shelf result n ≡ None }
        ensures calls { mem_calls result ≡ 0 }
        ensures failing { mem_failing result ≡ [] }
        ensures misses { mem_misses result ≡ 0 }
        ensures faults { mem_faults result ≡ 0 }
    {
        MemFiles {
            alloc,
            entries: Vec::new(alloc),
            plan: Plan::new(alloc),
            misses: 0,
            faults: 0,
        }
    }

    /// Gives a name these bytes, in the place of any that it held. Where memory runs out, it holds what it held.
    pub fn add(&mut self, name: &str, bytes: &[u8]) -> Result<(), NoMemory>
        ensures ok { OnOk result (Puts (mem_shelf self.old) (mem_shelf self.new) name.now bytes.now) }
        ensures err { OnErr result (mem_shelf self.new ≡ mem_shelf self.old) }
        ensures calls { mem_calls self.new ≡ mem_calls self.old }
        ensures failing { mem_failing self.new ≡ mem_failing self.old }
        ensures misses { mem_misses self.new ≡ mem_misses self.old }
        ensures faults { mem_faults self.new ≡ mem_faults self.old }
    {
        put(self.alloc, &mut self.entries, name, bytes)
    }

    /// Lets the `nth` read fail, counted from 1 since the files were made, whether or not its name is held.
    pub fn fail_at(&mut self, nth: u64) -> Result<(), NoMemory>
        ensures ok { OnOk result (mem_failing self.new ≡ mem_failing self.old ++ nth ∷ []) }
        ensures err { OnErr result (mem_failing self.new ≡ mem_failing self.old) }
        ensures shelf { mem_shelf self.new ≡ mem_shelf self.old }
        ensures calls { mem_calls self.new ≡ mem_calls self.old }
        ensures misses { mem_misses self.new ≡ mem_misses self.old }
        ensures faults { mem_faults self.new ≡ mem_faults self.old }
    {
        self.plan.fail_at(nth)
    }
}

impl Files for MemFiles {
    ghost use Rattle.std.specs.Prelude.{Some, length, Err, if◌then◌else◌};
    ghost use Rattle.scc_base.specs.Memory.{mem_shelf, mem_calls, mem_failing, mem_fails, mem_misses, mem_faults, misses_after, ReadAnswer};
    ghost use Rattle.scc_base.specs.Plan.{one_more};
    ghost use Rattle.scc_base.specs.Outside.{Rose, Told, HoldsFirst};
    ghost use Rattle.scc_base.specs.declared.outside.FileFault.TheVariants as file_fault;

    ghost held = { λ m. Some (mem_shelf m) };

    ghost misses = { λ m. mem_misses m };

    ghost faults = { λ m. mem_faults m };

    fn read(&mut self, alloc: Global, name: &str, limit: u64) -> Result<Vec<u8>, FileFault>
        ensures kept { Some (mem_shelf self.new) ≡ Some (mem_shelf self.old) }
        ensures no_fewer_misses { mem_misses self.old ≤ mem_misses self.new }
        ensures missing { result ≡ Err file_fault.Missing → Rose (mem_misses self.old) (mem_misses self.new) }
        ensures answer { ReadAnswer (mem_fails self.old) (mem_shelf self.old name.now) limit result }
        ensures no_fewer_faults { mem_faults self.old ≤ mem_faults self.new }
        ensures failed { result ≡ Err file_fault.Failed → Rose (mem_faults self.old) (mem_faults self.new) }
        ensures missed { mem_misses self.new ≡ misses_after (mem_fails self.old) (mem_shelf self.old name.now) (mem_misses self.old) }
        ensures risen { mem_faults self.new ≡ (if mem_fails self.old then one_more (mem_faults self.old) else mem_faults self.old) }
        ensures calls { mem_calls self.new ≡ one_more (mem_calls self.old) }
        ensures failing { mem_failing self.new ≡ mem_failing self.old }
    {
        if self.plan.next_fails() {
            self.faults = self.faults.saturating_add(1);
            return Err(FileFault::Failed);
        }
        let Some(bytes) = content_of(&self.entries, name) else {
            self.misses = self.misses.saturating_add(1);
            return Err(FileFault::Missing);
        };
        first_part(alloc, bytes.as_slice(), limit)
    }
}

/// Files in memory, whose reads never fail: a name that was not added is missing.
pub struct CalmFiles {
    alloc: Global,
    entries: Vec<Entry>,
    misses: u64,
}

impl Drop for CalmFiles {
    fn drop(self) {
        let CalmFiles {
            alloc: _alloc,
            entries: _entries,
            misses: _misses,
        } = self;
    }
}

impl CalmFiles {
    ghost use Rattle.scc_base.specs.Memory.{calm_shelf, calm_misses};
    ghost use Rattle.scc_base.specs.Shelf.{Puts};

    /// No files. It takes no memory.
    pub fn new(alloc: Global) -> CalmFiles
        ensures empty { (n : _) → calm_shelf result n ≡ None }
        ensures misses { calm_misses result ≡ 0 }
    {
        CalmFiles {
            alloc,
            entries: Vec::new(alloc),
            misses: 0,
        }
    }

    /// Gives a name these bytes, in the place of any that it held. Where memory runs out, it holds what it held.
    pub fn add(&mut self, name: &str, bytes: &[u8]) -> Result<(), NoMemory>
        ensures ok { OnOk result (Puts (calm_shelf self.old) (calm_shelf self.new) name.now bytes.now) }
        ensures err { OnErr result (calm_shelf self.new ≡ calm_shelf self.old) }
        ensures misses { calm_misses self.new ≡ calm_misses self.old }
    {
        put(self.alloc, &mut self.entries, name, bytes)
    }
}

impl Files for CalmFiles {
    ghost use Rattle.std.specs.Prelude.{Some, length, Err};
    ghost use Rattle.scc_base.specs.Memory.{calm_shelf, calm_misses, misses_after, ReadAnswer};
    ghost use Rattle.scc_base.specs.Outside.{Rose, Told, HoldsFirst};
    ghost use Rattle.scc_base.specs.declared.outside.FileFault.TheVariants as file_fault;

    ghost held = { λ m. Some (calm_shelf m) };

    ghost misses = { λ m. calm_misses m };

    ghost faults = { λ _. 0 };

    fn read(&mut self, alloc: Global, name: &str, limit: u64) -> Result<Vec<u8>, FileFault>
        ensures kept { Some (calm_shelf self.new) ≡ Some (calm_shelf self.old) }
        ensures no_fewer_misses { calm_misses self.old ≤ calm_misses self.new }
        ensures missing { result ≡ Err file_fault.Missing → Rose (calm_misses self.old) (calm_misses self.new) }
        ensures missed { calm_misses self.new ≡ misses_after false (calm_shelf self.old name.now) (calm_misses self.old) }
        ensures answer { ReadAnswer false (calm_shelf self.old name.now) limit result }
    {
        let Some(bytes) = content_of(&self.entries, name) else {
            self.misses = self.misses.saturating_add(1);
            return Err(FileFault::Missing);
        };
        first_part(alloc, bytes.as_slice(), limit)
    }
}

// The first bytes, at most `limit` of them.
fn first_part(alloc: Global, bytes: &[u8], limit: u64) -> Result<Vec<u8>, FileFault>
    ensures part { IfOk result (λ v. v.items ≡ take limit bytes.now) }
    ensures memory { IfErr result (λ e. e ≡ FileFault.NoMemory) }
{
    let end = if limit < bytes.len() as u64 {
        limit as usize
    } else {
        bytes.len()
    };
    match Vec::from_slice(alloc, &bytes[..end]) {
        Ok(v) => Ok(v),
        Err(_) => Err(FileFault::NoMemory),
    }
}
