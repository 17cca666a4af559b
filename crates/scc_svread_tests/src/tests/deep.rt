//! E706: a statement holds expressions of up to 8,191 levels.
use super::texts::{BLOCK, TAIL, at_byte, refused, text};
use scc_base::{Code, NoMemory, Text};
use std::alloc::Global;

// A statement whose expression holds so many others, each in the one before it, with the place of the first in the innermost.
// `front` stands before the first in an expression, and `back` between that place and the one that holds the next.
fn nested(alloc: Global, front: &str, back: &str, count: usize) -> Result<(Text, usize), NoMemory> {
    let mut t = text(alloc, &[BLOCK, "    q = "])?;
    let mut at = 0;
    for _ in 0..count {
        t.push_bytes(front.as_bytes())?;
        at = t.bytes().len();
        t.push_bytes(back.as_bytes())?;
    }
    t.push_bytes(b"a")?;
    for _ in 0..count {
        t.push_bytes(b")")?;
    }
    t.push_bytes(text(alloc, &[";\n", TAIL])?.bytes())?;
    Ok((t, at))
}

// Whether 8,191 levels are read, and one more is refused at the first expression in it.
fn is_bounded(alloc: Global, front: &str, back: &str) -> Result<bool, NoMemory> {
    let (within, _) = nested(alloc, front, back, 8190)?;
    let (beyond, at) = nested(alloc, front, back, 8191)?;
    let read = refused(alloc, false, within.bytes())?.is_none();
    Ok(read && refused(alloc, false, beyond.bytes())? == at_byte(Code::SvDepth, at))
}

#[test]
fn negations(rt: HostRuntime) -> Result<(), NoMemory> {
    assert!(rt; is_bounded(rt.alloc(), "(~", "")?);
    Ok(())
}

#[test]
fn conjunctions_to_the_right(rt: HostRuntime) -> Result<(), NoMemory> {
    assert!(rt; is_bounded(rt.alloc(), "(", "a & ")?);
    Ok(())
}
