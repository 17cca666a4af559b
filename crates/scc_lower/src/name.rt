//! Names in the emitted text.
ghost use Rattle.std.specs.Prelude.{◌≡◌, ◌++◌, IfOk, OnOk, decimal};
ghost use Rattle.scc_core_spec.specs.Constants.{name_text};
ghost use Rattle.scc_core_view.specs.Terms as view;
ghost use Rattle.scc_blocks_names.specs.Placed.{IsPlaced, Objects};
ghost use Rattle.scc_lower.specs.Names.{name_of, parts_of};
ghost use Rattle.scc_lower_spec.specs.Parts.{joined, part_text, text_at};

use itoa::Buffer;
use scc_base::{Name, Names, NoMemory, Path, PathPart, Text, lost};
use scc_core::CellName;
use std::alloc::Global;

/// The name of a cell: the members and indices of its path joined by `$`, and for a local its number, its identifier and its
/// indices behind those of its process (this project's own).
pub fn sv_name(alloc: Global, names: &Names, n: &CellName) -> Result<Text, NoMemory>
    ensures text { IfOk result (λ t. t ≡ name_of names.now n.now) }
    ensures location { (d : Objects) → IsPlaced d (view.name_of n.now) → IfOk result (λ t. t ≡ name_text (text_at names.now) (view.name_of n.now)) }
{
    let parts = parts(alloc, n)?;
    text_of(alloc, names, parts.as_slice())
}

fn parts(alloc: Global, n: &CellName) -> Result<Path, NoMemory>
    ensures { IfOk result (λ p. p ≡ parts_of n.now) }
{
    let mut parts = Path::of(alloc, n.path.as_slice())?;
    if let Some((number, name)) = n.local {
        parts.push(PathPart::Index(number))?;
        parts.push(PathPart::Member(name))?;
    }
    for i in n.indices.as_slice() {
        parts.push(PathPart::Index(*i))?;
    }
    Ok(parts)
}

fn text_of(alloc: Global, names: &Names, parts: &[PathPart]) -> Result<Text, NoMemory>
    ensures { IfOk result (λ t. t ≡ joined names.now parts.now) }
{
    let mut text = Text::new(alloc);
    let Some((first, more)) = parts.split_first() else {
        return Ok(text);
    };
    part(&mut text, names, *first)?;
    for p in more {
        text.push_bytes(b"$")?;
        part(&mut text, names, *p)?;
    }
    Ok(text)
}

fn part(text: &mut Text, names: &Names, p: PathPart) -> Result<(), NoMemory>
    ensures { OnOk result (text.new ≡ text.old ++ part_text names.now p) }
{
    match p {
        PathPart::Member(name) => member(text, names, name),
        PathPart::Index(i) => decimal(text, i),
    }
}

fn member(text: &mut Text, names: &Names, name: Name) -> Result<(), NoMemory>
    ensures { OnOk result (text.new ≡ text.old ++ text_at names.now name.0) }
{
    if !names.has(name) {
        return Err(lost());
    }
    text.push_bytes(names.text(name).as_bytes())
}

fn decimal(text: &mut Text, n: u32) -> Result<(), NoMemory>
    ensures { OnOk result (text.new ≡ text.old ++ decimal n) }
{
    let mut buffer = Buffer::new();
    text.push_bytes(buffer.format(n).as_bytes())
}
