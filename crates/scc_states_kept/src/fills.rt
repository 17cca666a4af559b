//! Whether an assignment fills one whole cell.
ghost use Rattle.std.specs.Prelude.{◌≡◌, Some, IfOk};
ghost use Rattle.scc_states_kept.specs.Filled.{all_in, filled_in, fills, is_zero, pick_all};

use scc_base::{NoMemory, lost};
use scc_bits::{Kind, Value, width};
use scc_core::{CoreLeft, CorePick, Known, Named};
use std::alloc::Global;

/// The cell that an assignment to a location fills; None where it may be to one of several, or to a part.
#[tactic(auto, unfolding(crate::specs::Filled::filled_in))]
pub fn filled(alloc: Global, known: Known<'_>, left: &CoreLeft) -> Result<Option<u32>, NoMemory>
    ensures { IfOk result (λ o. o ≡ filled_in known.entry left.now) }
{
    match known.named(alloc, left)? {
        Some(named) => {
            let base = named.base;
            let fills = is_filled(&named, left, known)?;
            Ok(if fills { Some(base) } else { None })
        }
        None => Ok(None),
    }
}

/// Whether what is named is one cell, and all of it is taken.
pub fn is_filled(named: &Named, left: &CoreLeft, known: Known<'_>) -> Result<bool, NoMemory>
    ensures { IfOk result (λ b. b ≡ fills known.entry left.now (Some named.now)) }
{
    match known.cells().get(named.base as usize) {
        Some(cell) => Ok(named.is_single() && is_all(left, cell.kind, known)),
        None => Err(lost()),
    }
}

fn is_all(left: &CoreLeft, kind: Kind, known: Known<'_>) -> bool
    ensures { result ≡ all_in known.entry left.now.pick kind }
{
    match &left.pick {
        Some(pick) => is_all_of(pick, kind, known),
        None => true,
    }
}

#[tactic(auto, unfolding(crate::specs::Filled::pick_all))]
fn is_all_of(pick: &CorePick, kind: Kind, known: Known<'_>) -> bool
    ensures { result ≡ pick_all known.entry pick.now kind }
{
    match pick {
        CorePick::Bit { at, .. } => width(kind) == 1 && is_zero(known.value(at)),
        CorePick::Range { h, l, .. } => *l == 0 && h.saturating_add(1) == width(kind),
    }
}

fn is_zero(value: Option<Value>) -> bool
    ensures { result ≡ is_zero value }
{
    match value {
        Some(value) => !value.is_true(),
        None => false,
    }
}
