//! From a file to the text of its module.
ghost use Rattle.std.specs.Prelude.{◌≡◌, true, false, IfOk, IfErr};
ghost use Rattle.scc_drive_stages.specs.Emitted.{IsEmitted};
ghost use Rattle.scc_drive_stages.specs.Refusals.{may_stop};

use crate::front::{Front, front_of};
use crate::look::looked_at;
use scc_base::{Name, Names, NoMemory, Stop, Text};
use scc_blocks::blocks;
use scc_svtext::print;
use scc_tree::FileTree;
use std::alloc::Global;

/// The text of the module of the class `top` (IEEE 1800-2017). Before it is given it is read back by the reader of emitted texts.
///
/// # Errors
/// What the file breaks, by the first stage that refuses: names and constants (E301 to E314), construction (E401 to E412), the
/// rules of processes (E501 to E514) or sizes (E601 to E605). Want of memory takes the place of a text that isn't read back.
pub fn compile(alloc: Global, names: &Names, tree: &FileTree, top: &[u8]) -> Result<Text, Stop>
    ensures written { IfOk result (λ t. IsEmitted false top.now t) }
    ensures refused { IfErr result (λ e. may_stop false e ≡ true) }
{
    let front = front_of(alloc, tree, name_of(names, top), false)?;
    match compile_front(alloc, names, top, &front) {
        Ok(text) => Ok(text),
        Err(NoMemory) => Err(Stop::NoMemory),
    }
}

/// The number of a name, or the first number that no name has.
pub fn name_of(names: &Names, text: &[u8]) -> Name {
    for number in 0..u32::MAX {
        let name = Name(number);
        if !names.has(name) || names.text(name).as_bytes() == text {
            return name;
        }
    }
    Name(u32::MAX)
}

/// The text of the module of what the stages made of the class `top`, read back as `compile` does.
pub fn compile_front(
    alloc: Global,
    names: &Names,
    top: &[u8],
    front: &Front,
) -> Result<Text, NoMemory>
    ensures written { IfOk result (λ t. IsEmitted false top.now t) }
{
    let module = blocks(
        alloc,
        names,
        &front.core,
        &front.order,
        front.splits.as_slice(),
    )?;
    let text = print(alloc, &module)?;
    looked_at(alloc, false, top, &module, text)
}
