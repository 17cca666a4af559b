//! What has to hold of every finished program.
ghost use Rattle.std.specs.Prelude.{◌≡◌, ◌+◌, IfOk, true};

use scc_base::{NoMemory, lost};

/// No finished program breaks what is demanded.
pub(crate) fn demand(holds: bool) -> Result<(), NoMemory>
    ensures holds { IfOk result (λ u. holds ≡ true) }
{
    if holds { Ok(()) } else { Err(lost()) }
}

/// One level deeper. No program has expressions nested so deep: a source has at most 128 levels of brackets, with one operator of each
/// precedence in each.
pub(crate) fn deeper(room: u32) -> Result<u32, NoMemory>
    ensures room { IfOk result (λ r. r + 1 ≡ room) }
{
    demand(room > 0)?;
    Ok(room - 1)
}
