//! Which loops are written out: those that are counted and whose turns come to an end.
ghost use Rattle.std.specs.Prelude.{List, ◌≡◌, IfOk, IfSome, Some, option_map};
ghost use Rattle.scc_core_spec.specs.Code.{Code};
ghost use Rattle.scc_core_spec.specs.Counted as spec;
ghost use Rattle.scc_core_view.specs.Codes.{code_of, counted};
ghost use Rattle.scc_unroll.specs.Shape.{StandIsRead, Around, HasParts, cells_at, counting_of, setting_of, stand_of};
ghost use Rattle.scc_unroll_asked.specs.Copied.{AreWithin, IsWithin};
ghost use Rattle.scc_unroll_asked.specs.Items.{Item};
ghost use Rattle.scc_unroll_asked.specs.Asked.{AreAll, AreRead, IsItself, asked, asked_count};
ghost use Rattle.scc_unroll.specs.Turns.{IsTold, ended_of};
ghost use Rattle.scc_unroll_laws.specs.Counters.{counters_of};

use crate::counted::{At, Counted, counted_by};
use crate::shape::{Stand, Turning};
use crate::turns::{Turn, turns_by};
use scc_base::{List, NoMemory};
use scc_core::{CoreStmt, Count, Counter};

/// A loop that is written out: its counter's cell, the parts of its body, and its turns.
#[derive(Drop)]
pub struct Ended<'a> {
    pub cell: u32,
    pub turning: Turning<'a>,
    pub list: List<Turn>,
}

/// The loop that is written out in place of a loop.
pub fn ended_by<'a>(
    at: &At<'_>,
    counters: &[Counter],
    stand: Stand<'a>,
    count: &Option<Count>,
    body: &'a [CoreStmt],
    last: bool,
) -> Result<Option<Ended<'a>>, NoMemory>
    ensures ended { (b r : Code) → Around at.now b counters.now → AreRead at.now.known (asked_count count.now) → AreRead at.now.known (asked body.now) → StandIsRead at.now.known stand.entry → spec.is_end r ≡ last → IfOk result (λ o. option_map ended_of o ≡ spec.ended (spec.counted_by (setting_of at.now b) (counters_of counters.now) (stand_of stand.entry) (counted count.now) (code_of body.now) r)) }
    ensures itself { AreAll IsItself (asked body.now) → IfOk result (λ o. IfSome o (λ e. IsItself e.turning.step.now)) }
    ensures parts { IfOk result (λ o. IfSome o (λ e. HasParts e.turning (code_of body.now))) }
    ensures within { (xs : List Item) → AreWithin xs body.now → IfOk result (λ o. IfSome o (λ e. IsWithin xs e.turning.step_left.now)) }
{
    let of = counted_by(at, counters, stand, count, body, last)?;
    match of {
        Some(of) => {
            let ended = ended_from(at, counters, &of)?;
            Ok(ended)
        }
        None => Ok(None),
    }
}

// That in place of a counted loop.
fn ended_from<'a>(
    at: &At<'_>,
    counters: &[Counter],
    of: &Counted<'a>,
) -> Result<Option<Ended<'a>>, NoMemory>
    ensures ended { IsTold at.now counters.now of.now → IfOk result (λ o. option_map ended_of o ≡ spec.ended (Some (counting_of (cells_at at.now) (counters_of counters.now) of.now))) }
    ensures itself { IsItself of.now.turning.step.now → IfOk result (λ o. IfSome o (λ e. IsItself e.turning.step.now)) }
    ensures parts { (c : Code) → HasParts of.now.turning c → IfOk result (λ o. IfSome o (λ e. HasParts e.turning c)) }
    ensures within { (xs : List Item) → IsWithin xs of.now.turning.step_left.now → IfOk result (λ o. IfSome o (λ e. IsWithin xs e.turning.step_left.now)) }
{
    let turns = turns_by(at, counters, of)?;
    if turns.ends {
        Ok(Some(Ended {
            cell: of.cell,
            turning: of.turning,
            list: turns.list,
        }))
    } else {
        Ok(None)
    }
}
