ghost use Rattle.std.specs.Prelude.{◌≡◌, Err, IfErr, IfOk, None, true};
ghost use Rattle.scc_base.specs.declared.refusal.Stop.TheVariants as stop;
ghost use Rattle.scc_templates_scopes.specs.Refusals.{MayStop, is_refusal};

use scc_base::{Code, NoMemory, Place, Stop, lost};

/// The refusal of what stands at a place.
pub fn refused(code: Code, place: Place) -> Stop {
    Stop::refused(code, place)
}

/// A refusal as an answer.
pub fn refuse<T>(code: Code, place: Place) -> Result<T, Stop>
    requires { is_refusal code ≡ true }
    ensures stop { IfErr result MayStop }
    ensures is { result ≡ Err (stop.Refused (record { code = code; place = place; other = None })) }
{
    Err(Stop::refused(code, place))
}

/// The answer of what should not happen.
pub fn gone<T>() -> Result<T, Stop>
    ensures stop { IfErr result MayStop }
    ensures is { result ≡ Err stop.NoMemory }
{
    Err(Stop::from(lost()))
}

/// A count as a number. No source has as many as 2^32 of anything.
pub fn number(n: usize) -> Result<u32, NoMemory>
    ensures { IfOk result (λ m. m ≡ n) }
{
    u32::try_from(n).map_err(|_| lost())
}
