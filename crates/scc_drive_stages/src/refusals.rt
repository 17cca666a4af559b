//! A look at a refusal: one of another stage is never given.
ghost use Rattle.std.specs.Prelude.{◌≡◌, true};
ghost use Rattle.scc_drive_stages.specs.Refusals as refusals;

use scc_base::{Code, Stop, lost};

fn is_later(many: bool, code: Code) -> bool
    ensures { result ≡ refusals.is_later many code }
{
    let number = code.number();
    (301 <= number && number <= 314)
        || (401 <= number && number <= 412)
        || (many && number == 413)
        || (501 <= number && number <= 514)
        || (601 <= number && number <= 605)
}

/// A refusal of these stages, or want of memory.
pub fn allowed(many: bool, stop: Stop) -> Stop
    ensures { refusals.may_stop many result ≡ true }
{
    match stop {
        Stop::Refused(r) => {
            if is_later(many, r.code) {
                Stop::Refused(r)
            } else {
                Stop::from(lost())
            }
        }
        Stop::NoMemory => Stop::NoMemory,
    }
}
