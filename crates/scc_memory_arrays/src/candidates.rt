//! Arrays by the names and widths of their variables.
use crate::array::{Array, Arrays};
use indexmap::IndexMap;
use itoa::Buffer;
use scc_base::{NoMemory, Text, lost, push};
use scc_svtree::{Dir, SvVar};
use std::alloc::Global;

/// The arrays of which every element and every next value is declared, no port, and of one width; and none of the names that a
/// memory of that name needs.
pub fn candidates(alloc: Global, vars: &[SvVar]) -> Result<Arrays, NoMemory> {
    let ids = ids_of(alloc, vars)?;
    candidates_among(alloc, vars, &ids)
}

fn candidates_among(
    alloc: Global,
    vars: &[SvVar],
    ids: &IndexMap<Vec<u8>, u32>,
) -> Result<Arrays, NoMemory> {
    let mut arrays = Arrays::none(alloc, vars.len())?;
    for v in vars {
        let name = v.name.bytes();
        if name.ends_with(b"$0") {
            let front = &name[..name.len() - 2];
            if let Some(array) = candidate(alloc, vars, ids, front)? {
                arrays.add(array)?;
            }
        }
    }
    Ok(arrays)
}

fn ids_of(alloc: Global, vars: &[SvVar]) -> Result<IndexMap<Vec<u8>, u32>, NoMemory> {
    let mut ids = IndexMap::new(alloc);
    number(alloc, vars, &mut ids)?;
    Ok(ids)
}

// Notes the number of each variable by its name.
fn number(alloc: Global, vars: &[SvVar], ids: &mut IndexMap<Vec<u8>, u32>) -> Result<(), NoMemory> {
    let mut number = 0u32;
    for v in vars {
        let name = Vec::from_slice(alloc, v.name.bytes())?;
        let _old = ids.insert(name, number)?;
        number = number.saturating_add(1);
    }
    Ok(())
}

fn candidate(
    alloc: Global,
    vars: &[SvVar],
    ids: &IndexMap<Vec<u8>, u32>,
    name: &[u8],
) -> Result<Option<Array>, NoMemory> {
    let elements = elements_of(alloc, ids, name)?;
    if elements.len() < 2 || is_hindered(alloc, ids, name)? {
        return Ok(None);
    }
    let Some(nexts) = nexts_of(alloc, ids, name, elements.len())? else {
        return Ok(None);
    };
    let Some(width) = width_of(vars, elements.as_slice()) else {
        return Ok(None);
    };
    if width_of(vars, nexts.as_slice()) != Some(width) {
        return Ok(None);
    }
    let address = fewest_bits(elements.len() - 1);
    Ok(Some(Array {
        name: Text::from_bytes(alloc, name)?,
        elements,
        nexts,
        width,
        address,
    }))
}

fn fewest_bits(number: usize) -> u32 {
    let mut bits = 1u32;
    let mut rest = number / 2;
    for _ in 0..usize::MAX {
        if rest == 0 {
            return bits;
        }
        rest /= 2;
        bits = bits.saturating_add(1);
    }
    bits
}

// The name of an element, with an end.
fn numbered(alloc: Global, name: &[u8], at: usize, end: &[u8]) -> Result<Text, NoMemory> {
    let mut text = Text::from_bytes(alloc, name)?;
    text.push_bytes(b"$")?;
    let mut buffer = Buffer::new();
    text.push_bytes(buffer.format(at).as_bytes())?;
    text.push_bytes(end)?;
    Ok(text)
}

// The variables of the elements, up to the first that isn't declared.
fn elements_of(
    alloc: Global,
    ids: &IndexMap<Vec<u8>, u32>,
    name: &[u8],
) -> Result<Vec<u32>, NoMemory> {
    let mut elements = Vec::new(alloc);
    for at in 0..usize::MAX {
        let text = numbered(alloc, name, at, b"")?;
        match ids.get(text.bytes()) {
            Some(id) => push(&mut elements, *id)?,
            None => return Ok(elements),
        }
    }
    Err(lost())
}

fn nexts_of(
    alloc: Global,
    ids: &IndexMap<Vec<u8>, u32>,
    name: &[u8],
    size: usize,
) -> Result<Option<Vec<u32>>, NoMemory> {
    let mut nexts = Vec::new(alloc);
    for at in 0..size {
        let text = numbered(alloc, name, at, b"$$n")?;
        match ids.get(text.bytes()) {
            Some(id) => push(&mut nexts, *id)?,
            None => return Ok(None),
        }
    }
    Ok(Some(nexts))
}

// Whether one of the names that a memory needs is declared.
fn is_hindered(alloc: Global, ids: &IndexMap<Vec<u8>, u32>, name: &[u8]) -> Result<bool, NoMemory> {
    for end in [b"".as_slice(), b"$$w", b"$$a", b"$$d"] {
        let mut text = Text::from_bytes(alloc, name)?;
        text.push_bytes(end)?;
        if ids.get(text.bytes()).is_some() {
            return Ok(true);
        }
    }
    Ok(false)
}

// The one width of variables, none of which is a port.
fn width_of(vars: &[SvVar], numbers: &[u32]) -> Option<u32> {
    let mut width = None;
    for number in numbers {
        let v = vars.get(*number as usize)?;
        if v.dir != Dir::Inner || (width.is_some() && width != Some(v.width)) {
            return None;
        }
        width = Some(v.width);
    }
    width
}
