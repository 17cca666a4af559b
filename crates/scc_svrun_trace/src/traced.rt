//! The trace of a module.
ghost use Rattle.std.specs.Prelude.{◌≡◌, ℕ, ◌<◌, ◌^◌, true, length, Some, IfOk, IfErr};
ghost use Rattle.scc_svtree.specs.Sound.{IsSound};
ghost use Rattle.scc_svrun_trace.specs.Trace as trace;
ghost use Rattle.scc_svrun_trace.specs.Traced.{IsTrace, IsUntraced};

use crate::line::outputs_in;
use crate::ports::ports_of;
use crate::run::play;
use scc_base::{Stop, Text, lost};
use scc_svrun::SvRunner;
use scc_svtree::SvModule;
use scc_trace::{Version, stimulus, version};
use std::alloc::Global;

/// The first line of a trace.
pub fn header(version: Version) -> &'static [u8]
    ensures { result.now ≡ trace.header version }
{
    match version {
        Version::One => b"scc-trace 1\n",
        Version::Two => b"scc-trace 2\n",
    }
}

/// The trace of a module on a stimulus of version 1 or 2 with fewer than 2^32 bytes, from a valuation in which every variable is 0: a line
/// for the version of the stimulus, and one for each observation, with the words of the outputs. The stimulus names the inputs but
/// the clocks. `file` is its number in places.
///
/// It refuses what `stimulus` of `scc_trace` refuses.
pub fn module_trace(alloc: Global, m: &SvModule, file: u32, bytes: &[u8]) -> Result<Text, Stop>
    requires sound { IsSound true m.now }
    requires few { length m.now.vars < 2 ^ 32 }
    requires short { length bytes.now < 2 ^ 32 }
    ensures trace { IfOk result (λ t. IsTrace file m.now bytes.now t) }
    ensures refused { IfErr result (λ e. IsUntraced file m.now bytes.now e) }
{
    let mut runner = SvRunner::new(alloc, m)?;
    let inputs = ports_of(alloc, m, runner.inputs())?;
    let outputs = outputs_in(alloc, m)?;
    let steps = stimulus(alloc, file, bytes, inputs.as_slice())?;
    let Some(version) = version(bytes) else {
        return Err(Stop::from(lost()));
    };
    let mut out = Text::from_bytes(alloc, header(version))?;
    play(alloc, &mut runner, &outputs, steps.as_slice(), &mut out)?;
    Ok(out)
}
