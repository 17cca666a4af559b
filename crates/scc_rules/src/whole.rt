//! Rules that look at whole bodies, what no path comes to included.
ghost use Rattle.std.specs.Prelude.{◌≡◌, Some, [], ◌∷◌, IfOk};
ghost use Rattle.scc_core_spec.specs.First.{first_of, or_else, when};
ghost use Rattle.scc_core_spec.specs.Static.{Cells};
ghost use Rattle.scc_rules.specs.Chosen.{AreLocated, chosen_at, chosen_in, chosen_place, uses_in};

use crate::facts::Facts;
use scc_base::{NoMemory, Place, lost};
use scc_core::{CoreLeft, CoreNode, CoreStmt};
use scc_rules_walks::{Load, put_loads, test_loads};
use std::alloc::Global;

fn earlier(a: Option<Place>, b: Option<Place>) -> Option<Place>
    ensures { result ≡ or_else a b }
{
    match a {
        Some(place) => Some(place),
        None => b,
    }
}

/// The first signal or port of a body that an index which isn't static chooses.
#[cycle(signal_index)]
pub fn first_chosen_signal(
    body: &[CoreStmt],
    alloc: Global,
    f: &Facts<'_>,
) -> Result<Option<Place>, NoMemory>
    ensures { (cs : Cells) → AreLocated f.now cs (uses_in body.now) → IfOk result (λ o. o ≡ first_of (chosen_place cs) (uses_in body.now)) }
{
    for s in body {
        match chosen_in(s, alloc, f)? {
            Some(place) => return Ok(Some(place)),
            None => {}
        }
    }
    Ok(None)
}

#[cycle(signal_index)]
fn chosen_in(s: &CoreStmt, alloc: Global, f: &Facts<'_>) -> Result<Option<Place>, NoMemory>
    ensures { (cs : Cells) → AreLocated f.now cs (uses_in (s.now ∷ [])) → IfOk result (λ o. o ≡ first_of (chosen_place cs) (uses_in (s.now ∷ []))) }
{
    match &s.node {
        CoreNode::Assign { left, value } => {
            let uses = put_loads(alloc, left, value)?;
            first_chosen(alloc, uses.as_slice(), f)
        }
        CoreNode::If { test, yes, no } => {
            let uses = test_loads(alloc, test)?;
            let own = first_chosen(alloc, uses.as_slice(), f)?;
            let a = first_chosen_signal(yes.as_slice(), alloc, f)?;
            let b = first_chosen_signal(no.as_slice(), alloc, f)?;
            Ok(earlier(own, earlier(a, b)))
        }
        CoreNode::Block(body) => first_chosen_signal(body.as_slice(), alloc, f),
        CoreNode::Loop { body, .. } => first_chosen_signal(body.as_slice(), alloc, f),
        CoreNode::Exit(_) => Ok(None),
        CoreNode::Wait { .. } => Ok(None),
        CoreNode::Alias { .. } => Err(lost()),
    }
}

// The first of some uses at which a signal or port is chosen so.
fn first_chosen(alloc: Global, uses: &[Load<'_>], f: &Facts<'_>) -> Result<Option<Place>, NoMemory>
    ensures { IfOk result (λ o. o ≡ first_of (chosen_at f.now) uses.now) }
{
    for load in uses {
        match chosen_by(alloc, load, f)? {
            Some(place) => return Ok(Some(place)),
            None => {}
        }
    }
    Ok(None)
}

fn chosen_by(alloc: Global, load: &Load<'_>, f: &Facts<'_>) -> Result<Option<Place>, NoMemory>
    ensures { IfOk result (λ o. o ≡ chosen_at f.now load.now) }
{
    let is = is_chosen(alloc, load.left, f)?;
    Ok(when(is, load.place))
}

fn when(is: bool, place: Place) -> Option<Place>
    ensures { result ≡ when is place }
{
    if is { Some(place) } else { None }
}

fn is_chosen(alloc: Global, left: &CoreLeft, f: &Facts<'_>) -> Result<bool, NoMemory>
    ensures { IfOk result (λ is. is ≡ chosen_in f.now left.now) }
{
    match f.known.named(alloc, left)? {
        Some(named) => Ok(!named.is_single() && f.is_shown(named.base)),
        None => Ok(false),
    }
}
