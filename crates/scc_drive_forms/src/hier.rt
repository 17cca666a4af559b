//! A design as a module for each module object.
use crate::found::is_found;
use crate::plans::{Plans, plans_of};
use scc_base::{Names, NoMemory, Stop, Text, lost};
use scc_blocks::blocks;
use scc_drive_stages::Front;
use scc_hier::hier;
use scc_hier_read::read_flattened;
use scc_hier_text::print_hier;
use scc_svtree::SvModule;
use std::alloc::Global;

/// The text of the modules of the class `top` and of the module objects below it, where it is read back, and what is read is together
/// the one module of the class. Where the reader says only that a part stands too deep for it, or that the modules are together too
/// large for it, the text is given, too.
pub fn hier_text(
    alloc: Global,
    names: &Names,
    top: &[u8],
    front: &Front,
) -> Result<Text, NoMemory> {
    let splits = front.splits.as_slice();
    let module = blocks(alloc, names, &front.core, &front.order, splits)?;
    if module.name.bytes() != top {
        return Err(lost());
    }
    let plans = plans_of(alloc, names, front, &module)?;
    let modules = hier(
        alloc,
        &module,
        plans.plans.as_slice(),
        plans.homes.as_slice(),
    )?;
    let text = print_hier(alloc, &modules)?;
    if is_read_back(alloc, &module, &plans, text.bytes())? {
        Ok(text)
    } else {
        Err(lost())
    }
}

// Whether a text is read as modules that are together this one.
fn is_read_back(alloc: Global, m: &SvModule, plans: &Plans, text: &[u8]) -> Result<bool, NoMemory> {
    match read_flattened(alloc, text) {
        Ok(flat) => is_found(
            alloc,
            m,
            plans.plans.as_slice(),
            plans.homes.as_slice(),
            flat,
        ),
        Err(Stop::Refused(refusal)) => Ok(is_limit(refusal.code.number())),
        Err(Stop::NoMemory) => Err(NoMemory),
    }
}

// The reader's limits: on levels, and on the size of the one module.
fn is_limit(code: u16) -> bool {
    code == 706 || code == 708
}
