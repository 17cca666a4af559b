//! The first loop without a wait that isn't counted.
ghost use Rattle.std.specs.Prelude.{◌≡◌, ◌+◌, ◌∷◌, [], Option, IfOk, option_map};
ghost use Rattle.scc_core_spec.specs.Code.{Code};
ghost use Rattle.scc_core_spec.specs.Counted as spec;
ghost use Rattle.scc_core_spec.specs.First.{or_else};
ghost use Rattle.scc_core_spec.specs.Unrolled.{first_spot, uncounted};
ghost use Rattle.scc_core_view.specs.Codes.{code_of, counted, stmt_code};
ghost use Rattle.scc_unroll_asked.specs.Asked.{AreRead, asked, asked_count};
ghost use Rattle.scc_unroll_laws.specs.Counters.{counters_of};
ghost use Rattle.scc_unroll_laws.specs.Heads.{head_size, stand_behind};
ghost use Rattle.scc_unroll.specs.Shape.{Around, setting_of, stand_of};
ghost use Rattle.scc_unroll.specs.Spots.{spot_of};
ghost use Rattle.scc_unroll_laws.specs.Spots.{looked_into};

use crate::counted::{At, counted_by, counters_in};
use crate::shape::{Stand, are_all, behind, holds_wait, is_simple, plus, size_in, size_of};
use scc_base::{NoMemory, Place, lost};
use scc_bits::Word;
use scc_core::{CoreNode, CoreStmt, Count, Counter};

/// A loop, by its number among the statements of its body in text order.
#[derive(Clone, Copy)]
pub struct Spot {
    pub number: u64,
    pub place: Place,
}

/// The first such loop of statements, the first of which has that number. The counters around are those of the counted
/// loops around, each as 0.
#[cycle(looked)]
pub fn first_uncounted(
    at: &At<'_>,
    counters: &[Counter],
    stand: Stand<'_>,
    number: u64,
    body: &[CoreStmt],
) -> Result<Option<Spot>, NoMemory>
    ensures { (b : Code) → Around at.now b counters.now → AreRead at.now.known (asked body.now) → IfOk result (λ o. option_map spot_of o ≡ first_spot (uncounted (setting_of at.now b) (counters_of counters.now) (stand_of stand.entry) number (code_of body.now))) }
{
    let mut stand = stand;
    let mut number = number;
    let mut count = 0usize;
    for s in body {
        count += 1;
        let last = are_all(count, body);
        let found = look_at(at, counters, stand, number, s, last)?;
        match found {
            Some(spot) => return Ok(Some(spot)),
            None => {}
        }
        let size = size_in(s)?;
        number = plus(number, size)?;
        stand = behind(stand, s);
    }
    Ok(None)
}

// That of a statement, which is the last of its list or isn't.
#[cycle(looked)]
fn look_at(
    at: &At<'_>,
    counters: &[Counter],
    stand: Stand<'_>,
    number: u64,
    s: &CoreStmt,
    last: bool,
) -> Result<Option<Spot>, NoMemory>
    ensures { (b r : Code) → Around at.now b counters.now → AreRead at.now.known (asked (s.now ∷ [])) → spec.is_end r ≡ last → IfOk result (λ o. first_spot (uncounted (setting_of at.now b) (counters_of counters.now) (stand_of stand.entry) number (stmt_code s.now r)) ≡ or_else (option_map spot_of o) (first_spot (uncounted (setting_of at.now b) (counters_of counters.now) (stand_behind (stand_of stand.entry) (code_of (s.now ∷ []))) (number + head_size (code_of (s.now ∷ []))) r))) }
{
    if is_simple(s) {
        return Ok(None);
    }
    let inner = plus(number, 1)?;
    match &s.node {
        CoreNode::If { yes, no, .. } => {
            let first = first_uncounted(at, counters, Stand::Elsewhere, inner, yes.as_slice())?;
            match first {
                Some(spot) => Ok(Some(spot)),
                None => {
                    let size = size_of(yes.as_slice())?;
                    let second = plus(inner, size)?;
                    let other = first_uncounted(
                        at,
                        counters,
                        Stand::Elsewhere,
                        second,
                        no.as_slice(),
                    )?;
                    Ok(other)
                }
            }
        }
        CoreNode::Block(body) => {
            let inside = first_uncounted(at, counters, Stand::First, inner, body.as_slice())?;
            Ok(inside)
        }
        CoreNode::Loop { count, body } => {
            let cell = counted_cell(at, counters, stand, count, body.as_slice(), last)?;
            let spot = Spot {
                number,
                place: s.place,
            };
            let within = look_in_loop(at, counters, cell, spot, body.as_slice())?;
            Ok(within)
        }
        _ => Err(lost()),
    }
}

// The cell of the counter of a loop that is counted.
fn counted_cell(
    at: &At<'_>,
    counters: &[Counter],
    stand: Stand<'_>,
    count: &Option<Count>,
    body: &[CoreStmt],
    last: bool,
) -> Result<Option<u32>, NoMemory>
    ensures { (b r : Code) → Around at.now b counters.now → AreRead at.now.known (asked_count count.now) → spec.is_end r ≡ last → IfOk result (λ o. o ≡ option_map (λ g. g.cell) (spec.counted_by (setting_of at.now b) (counters_of counters.now) (stand_of stand.entry) (counted count.now) (code_of body.now) r)) }
{
    let of = counted_by(at, counters, stand, count, body, last)?;
    match of {
        Some(of) => Ok(Some(of.cell)),
        None => Ok(None),
    }
}

// That of a loop, and of what stands in it; its counter is 0 there, where it is counted.
#[cycle(looked)]
fn look_in_loop(
    at: &At<'_>,
    counters: &[Counter],
    cell: Option<u32>,
    spot: Spot,
    body: &[CoreStmt],
) -> Result<Option<Spot>, NoMemory>
    ensures { (b : Code) (g : Option spec.Counting) → Around at.now b counters.now → AreRead at.now.known (asked body.now) → cell ≡ option_map (λ x. x.cell) g → IfOk result (λ o. option_map spot_of o ≡ first_spot (looked_into (setting_of at.now b) (counters_of counters.now) g (spot_of spot) (code_of body.now))) }
{
    let inner = plus(spot.number, 1)?;
    match cell {
        Some(cell) => {
            let zero = Word { bits: 0 };
            let around = counters_in(at, counters, cell, zero)?;
            let counted = first_uncounted(at, around.as_slice(), Stand::Elsewhere, inner, body)?;
            Ok(counted)
        }
        None => {
            if holds_wait(body) {
                let waiting = first_uncounted(at, counters, Stand::Elsewhere, inner, body)?;
                Ok(waiting)
            } else {
                Ok(Some(spot))
            }
        }
    }
}
