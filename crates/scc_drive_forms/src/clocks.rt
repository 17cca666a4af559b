//! A design of several clocks as one module.
ghost use Rattle.std.specs.Prelude.{true, IfOk};
ghost use Rattle.scc_drive_stages.specs.Emitted.{IsEmitted};

use scc_base::{List, Names, NoMemory, Text};
use scc_clocks::clocked_module;
use scc_drive_stages::{Front, looked_at};
use scc_svtext::print;
use std::alloc::Global;
use std::mem::replace;

/// The text of the module of the class `top`, read back as that of a module which may have several clocks.
pub fn clocks_text(alloc: Global, names: &Names, top: &[u8], front: Front) -> Result<Text, NoMemory>
    ensures { IfOk result (λ t. IsEmitted true top.now t) }
{
    let mut front = front;
    let splits = replace(&mut front.splits, List::new(alloc));
    let module = clocked_module(alloc, names, &front.core, &front.order, splits)?;
    let text = print(alloc, &module)?;
    looked_at(alloc, true, top, &module, text)
}
