//! Frames with holes, and texts that stand many times.
use scc_base::NoMemory;
use std::alloc::Global;

/// The frame with a block's lines in its holes.
pub fn filled(alloc: Global, frame: &str, block: &str) -> Result<String, NoMemory> {
    let mut text = String::new(alloc);
    let mut parts = frame.split("{{");
    if let Some(front) = parts.next() {
        text.push_str(front)?;
    }
    for part in parts {
        match part.split_once("}}") {
            Some((name, behind)) => {
                let lines = lines_of(alloc, block, name)?;
                text.push_str(lines.as_str())?;
                text.push_str(behind)?;
            }
            None => {
                text.push_str("{{")?;
                text.push_str(part)?;
            }
        }
    }
    Ok(text)
}

/// The lines of a block that have this name, without it.
pub fn lines_of(alloc: Global, block: &str, name: &str) -> Result<String, NoMemory> {
    let mut text = String::new(alloc);
    let mut is_first = true;
    for line in block.split('\n') {
        if let Some(value) = value_of(line, name) {
            if !is_first {
                text.push_str("\n")?;
            }
            text.push_str(value)?;
            is_first = false;
        }
    }
    Ok(text)
}

// What stands behind this name and a colon, without the first blank.
fn value_of<'a>(line: &'a str, name: &str) -> Option<&'a str> {
    let value = line.strip_prefix(name)?.strip_prefix(":")?;
    match value.strip_prefix(" ") {
        Some(value) => Some(value),
        None => Some(value),
    }
}

/// The text with what stands many times written out: `{{N*TEXT}}`, and in it `{#}`.
pub fn expanded(alloc: Global, text: &str) -> Result<String, NoMemory> {
    let mut whole = String::new(alloc);
    let mut parts = text.split("{{");
    if let Some(front) = parts.next() {
        whole.push_str(front)?;
    }
    for part in parts {
        match repeat(part) {
            Some((times, piece, behind)) => {
                for time in 0..times {
                    push_once(alloc, &mut whole, piece, time)?;
                }
                whole.push_str(behind)?;
            }
            None => {
                whole.push_str("{{")?;
                whole.push_str(part)?;
            }
        }
    }
    Ok(whole)
}

// How often a text stands, the text, and what is behind it.
fn repeat(part: &str) -> Option<(u32, &str, &str)> {
    let (inside, behind) = part.split_once("}}")?;
    let (times, piece) = inside.split_once("*")?;
    Some((times.parse::<u32>().ok()?, piece, behind))
}

fn push_once(alloc: Global, text: &mut String, piece: &str, time: u32) -> Result<(), NoMemory> {
    let number = format!(in alloc; "{time}")?;
    let mut is_first = true;
    for part in piece.split("{#}") {
        if !is_first {
            text.push_str(number.as_str())?;
        }
        text.push_str(part)?;
        is_first = false;
    }
    Ok(())
}
