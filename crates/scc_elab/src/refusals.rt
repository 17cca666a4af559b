//! A look at an answer: a design that is whole, or a refusal of construction. Another answer is never given.
ghost use Rattle.std.specs.Prelude.{◌≡◌, ◌≤◌, true, length, IfOk, IfErr};
ghost use Rattle.scc_elab_design.specs.Whole.{is_whole_design as is_whole};
ghost use Rattle.scc_elab.specs.Refusals as refusals;
ghost use Rattle.scc_elab.specs.Roots.{are_rooted as rooted, processes_fit as fit};
ghost use Rattle.scc_elab.specs.Storage.{storage_of};

use crate::roots::{are_rooted, processes_fit};
use crate::whole::is_whole_design;
use scc_base::{Code, Refusal, Stop, lost};
use scc_elab_design::Design;

fn is_construction(many: bool, code: Code) -> bool
    ensures { result ≡ refusals.is_construction many code }
{
    let number = code.number();
    401 <= number && number <= 413 && number != 408 && (many || number != 413)
}

fn has_other(code: Code) -> bool
    ensures { result ≡ refusals.has_other code }
{
    let number = code.number();
    number == 402 || number == 407
}

fn may_refuse(many: bool, r: Refusal) -> bool
    ensures { result ≡ refusals.may_refuse many r }
{
    is_construction(many, r.code) && (has_other(r.code) || r.other.is_none())
}

fn allowed_stop(many: bool, stop: Stop) -> Stop
    ensures { refusals.may_stop many result ≡ true }
{
    match stop {
        Stop::Refused(r) => {
            if may_refuse(many, r) {
                Stop::Refused(r)
            } else {
                Stop::from(lost())
            }
        }
        Stop::NoMemory => Stop::NoMemory,
    }
}

/// An answer for a program of so many classes and functions, where it may be one.
pub fn allowed(
    many: bool,
    classes: usize,
    functions: usize,
    answer: Result<Design, Stop>,
) -> Result<Design, Stop>
    requires { IfOk answer (λ d. storage_of d.objects ≤ 1048576) }
    ensures whole { IfOk result (λ d. is_whole classes functions d ≡ true) }
    ensures roots { IfOk result (λ d. rooted d.objects ≡ true) }
    ensures resets { IfOk result (λ d. fit d.processes ≡ true) }
    ensures bits { IfOk result (λ d. storage_of d.objects ≤ 1048576) }
    ensures refused { IfErr result (λ e. refusals.may_stop many e ≡ true) }
{
    match answer {
        Ok(design) => {
            if is_whole_design(classes, functions, &design)
                && are_rooted(design.objects.as_slice())
                && processes_fit(design.processes.as_slice())
            {
                Ok(design)
            } else {
                Err(Stop::from(lost()))
            }
        }
        Err(stop) => Err(allowed_stop(many, stop)),
    }
}
