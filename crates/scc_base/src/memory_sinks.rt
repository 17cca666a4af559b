ghost use Rattle.std.specs.Prelude.{◌≡◌, ◌<◌, ◌≤◌, [], OnOk, OnErr, IfOk, take, length, Err, Some, false};
ghost use Rattle.std.specs.Io.KnownBytes.{Appends};
ghost use Rattle.scc_base.specs.Outside.{Rose};
ghost use Rattle.scc_base.specs.declared.outside.SinkFault.TheVariants as sink_fault;

use crate::plan::Plan;
use crate::{NoMemory, Sink, SinkFault};
use std::alloc::Global;

/// An output in memory that takes a part of each piece. The writes whose numbers were named fail, and no others.
pub struct MemSink {
    most: usize,
    bytes: Vec<u8>,
    plan: Plan,
    faults: u64,
    ghost takes_some: { 0 < most },
}

impl Drop for MemSink {
    fn drop(self) {
        let MemSink {
            most: _most,
            bytes: _bytes,
            plan: _plan,
            faults: _faults,
        } = self;
    }
}

impl MemSink {
    ghost use Rattle.std.specs.Prelude.{◌∷◌, ◌++◌};
    ghost use Rattle.scc_base.specs.Memory.{mem_bytes, mem_most, mem_sink_calls, mem_sink_failing, mem_sink_faults};

    /// An empty output that takes at most `most` bytes a call, `most` being at least 1. It takes no memory.
    pub fn new(alloc: Global, most: usize) -> MemSink
        requires { 0 < most }
        ensures empty { mem_bytes result ≡ [] }
        ensures most { mem_most result ≡ most }
        ensures calls { mem_sink_calls result ≡ 0 }
        ensures failing { mem_sink_failing result ≡ [] }
        ensures faults { mem_sink_faults result ≡ 0 }
    {
        MemSink {
            most,
            bytes: Vec::new(alloc),
            plan: Plan::new(alloc),
            faults: 0,
        }
    }

    /// Lets the `nth` write fail, counted from 1 since the output was made.
    pub fn fail_at(&mut self, nth: u64) -> Result<(), NoMemory>
        ensures ok { OnOk result (mem_sink_failing self.new ≡ mem_sink_failing self.old ++ nth ∷ []) }
        ensures err { OnErr result (mem_sink_failing self.new ≡ mem_sink_failing self.old) }
        ensures bytes { mem_bytes self.new ≡ mem_bytes self.old }
        ensures most { mem_most self.new ≡ mem_most self.old }
        ensures calls { mem_sink_calls self.new ≡ mem_sink_calls self.old }
        ensures faults { mem_sink_faults self.new ≡ mem_sink_faults self.old }
    {
        self.plan.fail_at(nth)
    }

    /// The bytes that were taken.
    pub fn bytes(&self) -> &[u8]
        ensures bytes { result.now ≡ mem_bytes self.now }
    {
        self.bytes.as_slice()
    }
}

impl Sink for MemSink {
    ghost use Rattle.std.specs.Prelude.{if◌then◌else◌, min};
    ghost use Rattle.scc_base.specs.Memory.{mem_bytes, mem_most, mem_sink_calls, mem_sink_failing, mem_sink_fails, mem_sink_faults, WriteAnswer};
    ghost use Rattle.scc_base.specs.Plan.{one_more};

    ghost taken = { λ s. Some (mem_bytes s) };

    ghost faults = { λ s. mem_sink_faults s };

    fn write(&mut self, bytes: &[u8]) -> Result<usize, SinkFault>
        ensures written { IfOk result (λ n. Appends (Some (mem_bytes self.old)) (Some (mem_bytes self.new)) (take n bytes.now)) }
        ensures kept { OnErr result (Some (mem_bytes self.new) ≡ Some (mem_bytes self.old)) }
        ensures answer { WriteAnswer (mem_sink_fails self.old) (min (length bytes.now) (mem_most self.old)) result }
        ensures no_fewer_faults { mem_sink_faults self.old ≤ mem_sink_faults self.new }
        ensures failed { result ≡ Err sink_fault.Failed → Rose (mem_sink_faults self.old) (mem_sink_faults self.new) }
        ensures risen { mem_sink_faults self.new ≡ (if mem_sink_fails self.old then one_more (mem_sink_faults self.old) else mem_sink_faults self.old) }
        ensures most { mem_most self.new ≡ mem_most self.old }
        ensures calls { mem_sink_calls self.new ≡ one_more (mem_sink_calls self.old) }
        ensures failing { mem_sink_failing self.new ≡ mem_sink_failing self.old }
    {
        if self.plan.next_fails() {
            self.faults = self.faults.saturating_add(1);
            return Err(SinkFault::Failed);
        }
        let count = bytes.len().min(self.most);
        match self.bytes.extend_from_slice(&bytes[..count]) {
            Ok(()) => Ok(count),
            Err(_) => Err(SinkFault::NoMemory),
        }
    }
}

/// An output in memory that takes each piece whole, and whose writes never fail.
pub struct CalmSink {
    bytes: Vec<u8>,
}

impl Drop for CalmSink {
    fn drop(self) {
        let CalmSink { bytes: _bytes } = self;
    }
}

impl CalmSink {
    ghost use Rattle.scc_base.specs.Memory.{calm_bytes};

    /// An empty output. It takes no memory.
    pub fn new(alloc: Global) -> CalmSink
        ensures empty { calm_bytes result ≡ [] }
    {
        CalmSink {
            bytes: Vec::new(alloc),
        }
    }

    /// The bytes that were taken.
    pub fn bytes(&self) -> &[u8]
        ensures bytes { result.now ≡ calm_bytes self.now }
    {
        self.bytes.as_slice()
    }
}

impl Sink for CalmSink {
    ghost use Rattle.scc_base.specs.Memory.{calm_bytes, WriteAnswer};

    ghost taken = { λ s. Some (calm_bytes s) };

    ghost faults = { λ _. 0 };

    fn write(&mut self, bytes: &[u8]) -> Result<usize, SinkFault>
        ensures written { IfOk result (λ n. Appends (Some (calm_bytes self.old)) (Some (calm_bytes self.new)) (take n bytes.now)) }
        ensures kept { OnErr result (Some (calm_bytes self.new) ≡ Some (calm_bytes self.old)) }
        ensures answer { WriteAnswer false (length bytes.now) result }
    {
        match self.bytes.extend_from_slice(bytes) {
            Ok(()) => Ok(bytes.len()),
            Err(_) => Err(SinkFault::NoMemory),
        }
    }
}
