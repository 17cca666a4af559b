//! The labels of a `case`.
ghost use Rattle.std.specs.Prelude.{◌≡◌, ◌||◌, IfOk, OnOk, bytes_eq};
ghost use Rattle.std.specs.List.{list_any};
ghost use Rattle.scc_svread_check.specs.Lines as lines;
ghost use Rattle.scc_svread_check.specs.Scope as scopes;

use crate::leaf::cut;
use crate::number::{decimal, is_wrong_literal};
use crate::text_set::TextSet;
use scc_base::NoMemory;
use scc_svread_grammar::RawLiteral;
use std::alloc::Global;

fn label_text(alloc: Global, l: &RawLiteral) -> Result<Vec<u8>, NoMemory>
    ensures { IfOk result (λ t. t.items ≡ lines.label_text l.now) }
{
    let mut text = Vec::from_slice(alloc, l.width.bytes())?;
    text.extend_from_slice(b"'")?;
    text.extend_from_slice(l.digits.bytes())?;
    Ok(text)
}

/// Adds a label, and says whether it stood among them.
pub fn add(alloc: Global, labels: &mut TextSet, l: &RawLiteral) -> Result<bool, NoMemory>
    ensures stood { IfOk result (λ b. b ≡ list_any (bytes_eq (lines.label_text l.now)) labels.old) }
    ensures added { OnOk result (labels.new ≡ lines.with_label labels.old l.now) }
{
    let new = labels.insert(label_text(alloc, l)?)?;
    Ok(!new)
}

/// Whether a literal has another width than this.
pub fn is_other_length(bits: Option<u32>, l: &RawLiteral) -> bool
    ensures { result ≡ lines.is_other_length bits l.now }
{
    match bits {
        Some(bits) => cut(decimal(l.width.bytes())) != bits,
        None => false,
    }
}

/// Whether a label is wrong for a selector of this length, or stood before.
pub fn is_wrong_label(bits: Option<u32>, stood: bool, l: &RawLiteral) -> bool
    ensures { result ≡ (scopes.is_wrong_literal l.now || lines.is_other_length bits l.now || stood) }
{
    is_wrong_literal(l) || is_other_length(bits, l) || stood
}
