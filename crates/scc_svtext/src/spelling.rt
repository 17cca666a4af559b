//! Spells names.
ghost use Rattle.std.specs.Prelude.{◌≡◌, ◌++◌, IfOk, OnOk};
ghost use Rattle.scc_svtext.specs.ModuleText.{names_of};
ghost use Rattle.scc_svtext.specs.Pieces.{spelled};

use crate::keyword::is_reserved_word;
use scc_base::{List, NoMemory, Text};
use scc_svtree::SvVar;
use std::alloc::Global;

/// Appends a name, escaped if it is a reserved word.
pub fn spell(out: &mut Text, name: &Text) -> Result<(), NoMemory>
    ensures { OnOk result (out.new ≡ out.old ++ spelled name.now) }
{
    if is_reserved_word(name.bytes()) {
        out.push_bytes(b"\\")?;
        out.push_bytes(name.bytes())?;
        out.push_bytes(b" ")
    } else {
        out.push_bytes(name.bytes())
    }
}

// A name as it is written.
fn spelling(alloc: Global, name: &Text) -> Result<Text, NoMemory>
    ensures { IfOk result (λ t. t ≡ spelled name.now) }
{
    let mut out = Text::new(alloc);
    spell(&mut out, name)?;
    Ok(out)
}

/// The names of the variables as they are written.
pub fn spellings(alloc: Global, vars: &[SvVar]) -> Result<List<Text>, NoMemory>
    ensures { IfOk result (λ l. l ≡ names_of vars.now) }
{
    let mut names = List::new(alloc);
    for v in vars {
        names.push(spelling(alloc, &v.name)?)?;
    }
    Ok(names)
}
