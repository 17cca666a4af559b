//! Refusals of texts, and a look at them before they are given.
ghost use Rattle.std.specs.Prelude.{◌≡◌, true};
ghost use Rattle.scc_hier_read.specs.Refusals as refusals;

use scc_base::{Code, Place, Refusal, Stop, lost};
use scc_svread_grammar::Halt;

/// A refusal at a byte; those past 2^32 - 1 are not told from each other.
pub fn refusal(code: Code, at: usize) -> Stop {
    let at = at.min(u32::MAX as usize) as u32;
    Stop::refused(code, Place { file: 0, at })
}

/// Why the bytes are no modules.
pub fn stop_at(bytes: &[u8], h: Halt) -> Stop {
    match h {
        Halt::NoMemory => Stop::NoMemory,
        Halt::Unexpected(left) => refusal(Code::SvUnexpected, bytes.len().saturating_sub(left)), // E701
        Halt::TooDeep(left) => refusal(Code::SvDepth, bytes.len().saturating_sub(left)), // E706
    }
}

/// The refusal at byte 0 for what is wrong in a flattening: names, drivers and cycles.
pub fn at_start(code: Code) -> Stop {
    let number = code.number();
    if 703 <= number && number <= 705 {
        refusal(code, 0)
    } else {
        Stop::from(lost())
    }
}

fn is_of_text(bytes: &[u8], r: Refusal) -> bool
    ensures { result ≡ refusals.is_of_text bytes.now r }
{
    let number = r.code.number();
    701 <= number && number <= 708 && r.place.file == 0 && r.place.at as usize <= bytes.len()
}

/// A refusal of a text within it, or want of memory.
pub fn allowed(bytes: &[u8], stop: Stop) -> Stop
    ensures { refusals.may_stop bytes.now result ≡ true }
{
    match stop {
        Stop::Refused(r) => {
            if is_of_text(bytes, r) {
                Stop::Refused(r)
            } else {
                Stop::from(lost())
            }
        }
        Stop::NoMemory => Stop::NoMemory,
    }
}
