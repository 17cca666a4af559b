//! Running the module of an emitted text on a stimulus.
ghost use Rattle.std.specs.Prelude.{◌<◌, ◌^◌, length};
ghost use Rattle.scc_drive_svsim.specs.Simulated.{Simulates};

use scc_base::{Code, Place, Stop, Text};
use scc_svread::read;
use scc_svrun_trace::module_trace;
use std::alloc::Global;

/// The trace of the module of an emitted text on a stimulus of version 1 or 2, from a valuation in which every variable is 0: a line for
/// the version of the stimulus, and one for each observation, with the words of the outputs. Both texts have fewer than 2^32 bytes.
///
/// It refuses what `read` of `scc_svread` refuses of the text; by `SvName` at byte 7, where the name stands, a module of another name;
/// and what `stimulus` of `scc_trace` refuses of the stimulus, whose places are those of file 1. The first of them decides.
pub fn svsim(alloc: Global, name: &[u8], text: &[u8], stimulus: &[u8]) -> Result<Text, Stop>
    requires text { length text.now < 2 ^ 32 }
    requires stimulus { length stimulus.now < 2 ^ 32 }
    ensures { Simulates name.now text.now stimulus.now result }
{
    let m = read(alloc, text)?;
    if m.name.bytes() != name {
        return Err(Stop::refused(Code::SvName, Place { file: 0, at: 7 })); // E703
    }
    let trace = module_trace(alloc, &m, 1, stimulus)?;
    Ok(trace)
}
