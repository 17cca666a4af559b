ghost use Rattle.std.specs.Prelude.{◌≡◌, [], ◌∷◌, ◌++◌, OnOk, OnErr};
ghost use Rattle.scc_base.specs.Plan.{one_more, fails_at};

use crate::NoMemory;
use std::alloc::Global;

/// How many calls were made, and which are to fail.
pub struct Plan {
    calls: u64,
    /// The numbers of the calls that are to fail, counted from 1.
    failing: Vec<u64>,
}

impl Drop for Plan {
    fn drop(self) {
        let Plan {
            calls: _calls,
            failing: _failing,
        } = self;
    }
}

impl Plan {
    /// No call was made, and none is to fail.
    pub fn new(alloc: Global) -> Plan
        ensures calls { result.calls ≡ 0 }
        ensures failing { result.failing.items ≡ [] }
    {
        Plan {
            calls: 0,
            failing: Vec::new(alloc),
        }
    }

    /// Lets the `nth` call fail.
    pub fn fail_at(&mut self, nth: u64) -> Result<(), NoMemory>
        ensures calls { self.new.calls ≡ self.old.calls }
        ensures ok { OnOk result (self.new.failing.items ≡ self.old.failing.items ++ nth ∷ []) }
        ensures err { OnErr result (self.new.failing.items ≡ self.old.failing.items) }
    {
        self.failing.push(nth)?;
        Ok(())
    }

    /// Counts one more call, at most 2^64 - 1, and says whether it is to fail.
    pub fn next_fails(&mut self) -> bool
        ensures calls { self.new.calls ≡ one_more self.old.calls }
        ensures failing { self.new.failing.items ≡ self.old.failing.items }
        ensures answer { result ≡ fails_at self.old.failing.items (one_more self.old.calls) }
    {
        self.calls = self.calls.saturating_add(1);
        self.failing.contains(&self.calls)
    }
}
