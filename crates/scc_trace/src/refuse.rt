//! Refuses a text.
ghost use Rattle.std.specs.Prelude.{◌≡◌, Err};
ghost use Rattle.scc_base.specs.declared.refusal.Stop.TheVariants as stop;
ghost use Rattle.scc_trace.specs.Head.{refusal};

use scc_base::{Code, Place, Refusal, Stop};

/// The refusal of what stands in a file at a byte.
pub fn refuse<T>(file: u32, code: Code, at: u32) -> Result<T, Stop>
    ensures { result ≡ Err (stop.Refused (refusal file code at)) }
{
    Err(Stop::Refused(Refusal {
        code,
        place: Place { file, at },
        other: None,
    }))
}
