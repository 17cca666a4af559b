//! The one module that an emitted text is.
ghost use Rattle.std.specs.Prelude.{◌≡◌, true, IfOk, IfErr};
ghost use Rattle.scc_svtree.specs.Sound.{IsSound};
ghost use Rattle.scc_drive_form_sim.specs.Forms as forms;
ghost use Rattle.scc_drive_form_sim.specs.Forms.{CanRun, may_stop};

use scc_base::{Code, Place, Stop, lost};
use scc_hier_read::read_flattened;
use scc_svread::read_many;
use scc_svtree::SvModule;
use std::alloc::Global;

/// A module that can run, and how.
#[derive(Drop)]
pub enum Runnable {
    /// What modules with instances are together.
    Flat(SvModule),
    /// A module that may have several clocks.
    Clocked(SvModule),
}

/// The most variables of a module.
const MOST: usize = 4_294_967_295;

/// What a text of modules with instances is, or one of a module with several clocks where `many` says so.
///
/// It is refused as the readers of these texts refuse it, or by `SvName` at byte 7, where the name stands, where the first module has
/// another name than `top`.
pub fn read_runnable(alloc: Global, top: &[u8], bytes: &[u8], many: bool) -> Result<Runnable, Stop>
    ensures runs { IfOk result CanRun }
    ensures refused { IfErr result (λ e. may_stop e ≡ true) }
{
    match read_by(alloc, bytes, many) {
        Ok(module) => named(top, module, many),
        Err(stop) => Err(allowed(stop)),
    }
}

fn read_by(alloc: Global, bytes: &[u8], many: bool) -> Result<SvModule, Stop>
    ensures { IfOk result (IsSound true) }
{
    if many {
        read_many(alloc, bytes)
    } else {
        read_flattened(alloc, bytes)
    }
}

fn named(top: &[u8], m: SvModule, many: bool) -> Result<Runnable, Stop>
    requires { IsSound true m }
    ensures runs { IfOk result CanRun }
    ensures refused { IfErr result (λ e. may_stop e ≡ true) }
{
    if m.name.bytes() != top {
        return Err(Stop::refused(Code::SvName, Place { file: 0, at: 7 })); // E703
    }
    if m.vars.len() > MOST {
        return Err(Stop::from(lost()));
    }
    if many {
        Ok(Runnable::Clocked(m))
    } else {
        Ok(Runnable::Flat(m))
    }
}

// A refusal of an emitted text, or want of memory.
fn allowed(stop: Stop) -> Stop
    ensures { may_stop result ≡ true }
{
    match stop {
        Stop::Refused(r) => {
            if is_of_text(r.code) {
                Stop::Refused(r)
            } else {
                Stop::from(lost())
            }
        }
        Stop::NoMemory => Stop::NoMemory,
    }
}

fn is_of_text(code: Code) -> bool
    ensures { result ≡ forms.is_of_text code }
{
    let number = code.number();
    701 <= number && number <= 708
}
