//! Prints a module.
ghost use Rattle.std.specs.Prelude.{◌≡◌, IfOk};
ghost use Rattle.scc_svtext.specs.ModuleText.{module_text};

use crate::block::blocks;
use crate::digits::fixed;
use crate::fixed::Fixed;
use crate::header::{decls, ports};
use crate::spelling::{spell, spellings};
use scc_base::{NoMemory, Text};
use scc_svtree::SvModule;
use std::alloc::Global;

/// The text of a module, of which there is exactly one. It refuses nothing; the only error is want of memory.
pub fn print(alloc: Global, m: &SvModule) -> Result<Text, NoMemory>
    ensures text { IfOk result (λ t. t ≡ module_text m.now) }
{
    let vars = m.vars.as_slice();
    let names = spellings(alloc, vars)?;
    let mut out = Text::new(alloc);
    fixed(&mut out, Fixed::Module)?;
    spell(&mut out, &m.name)?;
    fixed(&mut out, Fixed::PortsOpen)?;
    ports(&mut out, vars)?;
    fixed(&mut out, Fixed::PortsClose)?;
    decls(&mut out, vars)?;
    blocks(alloc, &mut out, vars, names.as_slice(), m.blocks.as_slice())?;
    fixed(&mut out, Fixed::ModuleEnd)?;
    Ok(out)
}
