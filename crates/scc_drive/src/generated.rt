//! `gen`: generated designs.
ghost use Rattle.std.specs.Prelude.{◌≡◌, ℕ, List};
ghost use Rattle.scc_drive.specs.CommandOutcome.{GeneratedOutcome};
ghost use Rattle.scc_drive.specs.Stages.{Gives};

use scc_base::Text;
use scc_drive_commands::generated_line;
use scc_drive_errors::stopped::Stopped;
use scc_trace::generate;
use std::alloc::Global;

/// The source of the generated design of so many stages, or its line.
pub fn generated(alloc: Global, stages: u32, source: bool) -> Result<Text, Stopped>
    ensures { (top : List ℕ) → Gives (GeneratedOutcome stages source) top result }
{
    if source {
        Ok(generate(alloc, stages)?)
    } else {
        Ok(generated_line(alloc, stages)?)
    }
}
