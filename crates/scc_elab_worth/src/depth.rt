//! How deep expressions nest.
ghost use Rattle.std.specs.Prelude.{◌≡◌, ◌+◌, IfOk};

use scc_base::{NoMemory, lost};

/// The most levels. A source has at most 128 levels of brackets, with one operator of each precedence in each; chains along first
/// operands and pointers count as one.
pub(crate) const ROOM: u32 = 8_192;

/// One level deeper.
pub(crate) fn deeper(room: u32) -> Result<u32, NoMemory>
    ensures room { IfOk result (λ r. r + 1 ≡ room) }
{
    if room == 0 {
        return Err(lost());
    }
    Ok(room - 1)
}
