//! The trace of a module that can run.
ghost use Rattle.std.specs.Prelude.{◌<◌, ◌^◌, length};
ghost use Rattle.scc_drive_form_sim.specs.Forms.{CanRun};

use crate::read::Runnable;
use scc_base::{Stop, Text};
use scc_svrun_trace::{clocked_trace, module_trace};
use std::alloc::Global;

/// The trace of a module on a stimulus of fewer than 2^32 bytes, which is the file of this number. It is refused as the stimulus is.
pub fn traced(alloc: Global, r: &Runnable, file: u32, bytes: &[u8]) -> Result<Text, Stop>
    requires runs { CanRun r.now }
    requires short { length bytes.now < 2 ^ 32 }
{
    match r {
        Runnable::Flat(m) => module_trace(alloc, m, file, bytes),
        Runnable::Clocked(m) => clocked_trace(alloc, m, file, bytes),
    }
}
