//! The statements of an unrolled body, counted before they are written out.
ghost use Rattle.std.specs.Prelude.{◌≡◌, ◌∷◌, [], IfOk, Some, map};
ghost use Rattle.scc_base.specs.declared.refusal.Place.{Place};
ghost use Rattle.scc_core_spec.specs.Code.{Code, size};
ghost use Rattle.scc_core_spec.specs.Counted as spec;
ghost use Rattle.scc_core_spec.specs.Unrolled.{unrolled, written_out};
ghost use Rattle.scc_core_view.specs.Codes.{code_of, stmt_code};
ghost use Rattle.scc_unroll.specs.Shape.{StandIsRead, Around, setting_of, stand_of};
ghost use Rattle.scc_unroll_asked.specs.Asked.{AreRead, asked};
ghost use Rattle.scc_unroll.specs.Turns.{turn_of};
ghost use Rattle.scc_unroll_laws.specs.Counters.{counters_of};
ghost use Rattle.scc_unroll_laws.specs.Heads.{stand_behind};
ghost use Rattle.scc_unroll_laws.specs.Sizes.{more, sum_of};
ghost use Rattle.scc_unroll_laws.specs.Writing.{each_turn};

use crate::counted::{At, counters_in};
use crate::ended::{Ended, ended_by};
use crate::shape::{Stand, are_all, behind, is_simple};
use crate::turns::Turn;
use scc_base::{NoMemory, Tally, lost};
use scc_core::{CoreNode, CoreStmt, Counter};

/// The most statements of an unrolled body.
pub const STATEMENTS: u32 = 65_536;

/// The number of statements of an unrolled body, up to the limit, added to others.
#[cycle(sizes)]
pub fn unrolled_size(
    at: &At<'_>,
    counters: &[Counter],
    stand: Stand<'_>,
    body: &[CoreStmt],
    sum: Tally,
) -> Result<Tally, NoMemory>
    ensures { (b : Code) → Around at.now b counters.now → AreRead at.now.known (asked body.now) → StandIsRead at.now.known stand.entry → IfOk result (λ z. sum_of z ≡ more (sum_of sum) (size (unrolled (setting_of at.now b) (counters_of counters.now) (stand_of stand.entry) (code_of body.now)))) }
{
    let mut stand = stand;
    let mut sum = sum;
    let mut count = 0usize;
    for s in body {
        if sum.is_over() {
            return Ok(sum);
        }
        count += 1;
        let last = are_all(count, body);
        sum = size_at(at, counters, stand, s, last, sum)?;
        stand = behind(stand, s);
    }
    Ok(sum)
}

// With a statement, which is the last of its list or isn't.
#[cycle(sizes)]
fn size_at(
    at: &At<'_>,
    counters: &[Counter],
    stand: Stand<'_>,
    s: &CoreStmt,
    last: bool,
    sum: Tally,
) -> Result<Tally, NoMemory>
    ensures { (b r : Code) → Around at.now b counters.now → AreRead at.now.known (asked (s.now ∷ [])) → StandIsRead at.now.known stand.entry → spec.is_end r ≡ last → IfOk result (λ z. more (sum_of sum) (size (unrolled (setting_of at.now b) (counters_of counters.now) (stand_of stand.entry) (stmt_code s.now r))) ≡ more (sum_of z) (size (unrolled (setting_of at.now b) (counters_of counters.now) (stand_behind (stand_of stand.entry) (code_of (s.now ∷ []))) r))) }
{
    let more = sum.plus(1);
    if is_simple(s) {
        return Ok(more);
    }
    match &s.node {
        CoreNode::If { yes, no, .. } => {
            let first = unrolled_size(at, counters, Stand::Elsewhere, yes.as_slice(), more)?;
            let both = unrolled_size(at, counters, Stand::Elsewhere, no.as_slice(), first)?;
            Ok(both)
        }
        CoreNode::Block(body) => {
            let inside = unrolled_size(at, counters, Stand::First, body.as_slice(), more)?;
            Ok(inside)
        }
        CoreNode::Loop { count, body } => {
            let list = body.as_slice();
            let ended = ended_by(at, counters, stand, count, list, last)?;
            match ended {
                Some(of) => {
                    let turned = size_of_loop(at, counters, &of, list, sum)?;
                    Ok(turned)
                }
                None => unrolled_size(at, counters, Stand::Elsewhere, list, more),
            }
        }
        _ => Err(lost()),
    }
}

// With the turns of a loop by its body.
#[cycle(sizes)]
fn size_of_loop(
    at: &At<'_>,
    counters: &[Counter],
    of: &Ended<'_>,
    body: &[CoreStmt],
    sum: Tally,
) -> Result<Tally, NoMemory>
    ensures { (b : Code) (t : spec.Turning) → Around at.now b counters.now → AreRead at.now.known (asked body.now) → spec.turning_of (code_of body.now) ≡ Some t → IfOk result (λ z. (rest : Code) → more (sum_of sum) (size (written_out (spec.turning_of (code_of body.now)) (map (λ x. (x, unrolled (setting_of at.now b) (spec.counter of.now.cell x.now ∷ counters_of counters.now) spec.Elsewhere (code_of body.now))) (map turn_of of.now.list)) rest)) ≡ more (sum_of z) (size rest)) }
{
    let [_, block, _] = body else {
        return Err(lost());
    };
    match &block.node {
        CoreNode::Block(inner) => {
            let list = of.list.as_slice();
            let turned = size_of_turns(at, counters, of.cell, list, inner.as_slice(), sum)?;
            Ok(turned)
        }
        _ => Err(lost()),
    }
}

// With turns, each of which is its block and its step.
#[cycle(sizes)]
fn size_of_turns(
    at: &At<'_>,
    counters: &[Counter],
    cell: u32,
    list: &[Turn],
    inner: &[CoreStmt],
    sum: Tally,
) -> Result<Tally, NoMemory>
    ensures { (b rest : Code) (p : Place) (t : spec.Turning) → Around at.now b counters.now → AreRead at.now.known (asked inner.now) → IfOk result (λ z. more (sum_of sum) (size (each_turn (setting_of at.now b) (counters_of counters.now) cell p (code_of inner.now) t (map turn_of list.now) rest)) ≡ more (sum_of z) (size rest)) }
{
    let mut sum = sum;
    for turn in list {
        if sum.is_over() {
            return Ok(sum);
        }
        sum = size_of_turn(at, counters, cell, turn, inner, sum)?;
    }
    Ok(sum)
}

#[cycle(sizes)]
fn size_of_turn(
    at: &At<'_>,
    counters: &[Counter],
    cell: u32,
    turn: &Turn,
    inner: &[CoreStmt],
    sum: Tally,
) -> Result<Tally, NoMemory>
    ensures { (b : Code) → Around at.now b counters.now → AreRead at.now.known (asked inner.now) → IfOk result (λ z. sum_of z ≡ more (more (sum_of sum) 2) (size (unrolled (setting_of at.now b) (spec.counter cell turn.entry.now.now.bits ∷ counters_of counters.now) spec.First (code_of inner.now)))) }
{
    let around = counters_in(at, counters, cell, turn.now)?;
    let more = sum.plus(2);
    let whole = unrolled_size(at, around.as_slice(), Stand::First, inner, more)?;
    Ok(whole)
}
