//! Refusals.
ghost use Rattle.std.specs.Prelude.{◌≡◌, Err, IfErr, None, true};
ghost use Rattle.scc_base.specs.declared.refusal.Stop.TheVariants as stop;
ghost use Rattle.scc_plain_drafts.specs.Refusals.{MayStop, is_static};

use scc_base::{Code, Place, Stop, lost};

/// A refusal as an answer.
pub fn refuse<T>(code: Code, place: Place) -> Result<T, Stop>
    requires { is_static code ≡ true }
    ensures stop { IfErr result MayStop }
    ensures is { result ≡ Err (stop.Refused (record { code = code; place = place; other = None })) }
{
    Err(Stop::refused(code, place))
}

/// The answer of what should not happen.
pub fn gone<T>() -> Result<T, Stop>
    ensures stop { IfErr result MayStop }
    ensures is { result ≡ Err stop.NoMemory }
{
    Err(Stop::from(lost()))
}
