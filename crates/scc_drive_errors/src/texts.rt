//! What the program says where it does not end with status 0.
ghost use Rattle.std.specs.Prelude.{◌≡◌, ◌++◌, IfOk, OnOk};
ghost use Rattle.scc_drive_errors.specs.Texts.{spot_text, other_text, refusal_text, words_text, missing_text, failed_text, memory_text, output_text};

use crate::spots::Spot;
use itoa::Buffer;
use scc_base::{Code, NoMemory, Text};
use std::alloc::Global;

fn push_spot(out: &mut Text, spot: &Spot) -> Result<(), NoMemory>
    ensures { OnOk result (out.new ≡ out.old ++ spot_text spot.now) }
{
    let mut digits = Buffer::new();
    out.push_bytes(spot.file.bytes())?;
    out.push_bytes(b":")?;
    out.push_bytes(digits.format(spot.line).as_bytes())?;
    out.push_bytes(b":")?;
    out.push_bytes(digits.format(spot.column).as_bytes())
}

fn push_other(out: &mut Text, other: &Option<Spot>) -> Result<(), NoMemory>
    ensures { OnOk result (out.new ≡ out.old ++ other_text other.now) }
{
    if let Some(spot) = other {
        out.push_bytes(b" (see ")?;
        push_spot(out, spot)?;
        out.push_bytes(b")")?;
    }
    Ok(())
}

/// A refusal at a place, and the second place of which it speaks.
#[tactic(auto, unfolding(crate::specs::Texts::refusal_text))]
pub fn refusal(
    alloc: Global,
    code: Code,
    spot: &Spot,
    other: &Option<Spot>,
) -> Result<Text, NoMemory>
    ensures text { IfOk result (λ t. t ≡ refusal_text code spot.now other.now) }
{
    let mut out = Text::new(alloc);
    let mut digits = Buffer::new();
    push_spot(&mut out, spot)?;
    out.push_bytes(b": E")?;
    out.push_bytes(digits.format(code.number()).as_bytes())?;
    out.push_bytes(b" ")?;
    out.push_bytes(code.text().as_bytes())?;
    push_other(&mut out, other)?;
    out.push_bytes(b"\n")?;
    Ok(out)
}

#[tactic(auto, unfolding(crate::specs::Texts::words_text))]
pub fn bad_words() -> &'static [u8]
    ensures text { result.now ≡ words_text }
{
    b"scc: bad words\n"
}

#[tactic(auto, unfolding(crate::specs::Texts::missing_text))]
pub fn missing(alloc: Global, name: &[u8]) -> Result<Text, NoMemory>
    ensures text { IfOk result (λ t. t ≡ missing_text name.now) }
{
    let mut out = Text::new(alloc);
    out.push_bytes(b"scc: missing ")?;
    out.push_bytes(name)?;
    out.push_bytes(b"\n")?;
    Ok(out)
}

#[tactic(auto, unfolding(crate::specs::Texts::failed_text))]
pub fn failed(alloc: Global, name: &[u8]) -> Result<Text, NoMemory>
    ensures text { IfOk result (λ t. t ≡ failed_text name.now) }
{
    let mut out = Text::new(alloc);
    out.push_bytes(b"scc: failed ")?;
    out.push_bytes(name)?;
    out.push_bytes(b"\n")?;
    Ok(out)
}

#[tactic(auto, unfolding(crate::specs::Texts::memory_text))]
pub fn no_memory() -> &'static [u8]
    ensures text { result.now ≡ memory_text }
{
    b"scc: no memory\n"
}

#[tactic(auto, unfolding(crate::specs::Texts::output_text))]
pub fn output_failed() -> &'static [u8]
    ensures text { result.now ≡ output_text }
{
    b"scc: output failed\n"
}
