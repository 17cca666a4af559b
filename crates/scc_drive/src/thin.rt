//! The text of a thin design.
ghost use Rattle.std.specs.Prelude.{◌≡◌, ◌<◌, ◌^◌, length, IfOk, IfErr};
ghost use Rattle.scc_svtext.specs.ModuleText.{module_text};
ghost use Rattle.scc_thin_module.specs.Emitted.{module_of};
ghost use Rattle.scc_drive_errors.specs.declared.stopped.Stopped.TheVariants as stopped;

use scc_base::{NoMemory, Text};
use scc_drive_errors::stopped::Stopped;
use scc_svtext::print;
use scc_thin::Design;
use scc_thin_module::module_of;
use std::alloc::Global;

/// The text of the module of the design of a thin text.
pub fn printed(alloc: Global, design: &Design) -> Result<Text, Stopped>
    requires { length design.now.ports < 2 ^ 32 }
    ensures text { IfOk result (λ t. t ≡ module_text (module_of design.now)) }
    ensures memory { IfErr result (λ s. s ≡ stopped.NoMemory) }
{
    let Ok(module) = module_of(alloc, design) else {
        return Err(Stopped::NoMemory);
    };
    match print(alloc, &module) {
        Ok(text) => Ok(text),
        Err(NoMemory) => Err(Stopped::NoMemory),
    }
}
