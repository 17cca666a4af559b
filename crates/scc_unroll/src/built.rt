//! The unrolled body.
ghost use Rattle.std.specs.Prelude.{List, ◌≡◌, ◌∷◌, [], IfOk, OnOk, map, option_map, true};
ghost use Rattle.scc_core_spec.specs.Code.{Code};
ghost use Rattle.scc_core_spec.specs.Code as code;
ghost use Rattle.scc_core_spec.specs.Counted as spec;
ghost use Rattle.scc_core_spec.specs.Unrolled.{counting_count, unrolled, written_out};
ghost use Rattle.scc_core_view.specs.Codes.{code_of, counted, stmt_code};
ghost use Rattle.scc_core_view.specs.Terms.{taken_of};
ghost use Rattle.scc_unroll.specs.Shape.{StandIsRead, Around, HasParts, setting_of, stand_of, turned};
ghost use Rattle.scc_unroll_asked.specs.Copied.{AreCopies, AreOf, AreWithin, IsWithin};
ghost use Rattle.scc_unroll_asked.specs.Items.{Item, asked_count};
ghost use Rattle.scc_unroll_asked.specs.Read.{AreCounters};
ghost use Rattle.scc_unroll_asked.specs.Asked.{AreTaken, IsItself, asked};
ghost use Rattle.scc_unroll.specs.Turns.{turn_of};
ghost use Rattle.scc_unroll_laws.specs.Counters.{counters_of};
ghost use Rattle.scc_unroll_laws.specs.Heads.{stand_behind};
ghost use Rattle.scc_unroll_laws.specs.Writing.{each_turn, set_before};

use crate::counted::{At, counters_in};
use crate::ended::{Ended, ended_by};
use crate::made::{aim, choice, kept, push_turn, put};
use crate::shape::{Stand, are_all, behind};
use crate::turns::Turn;
use scc_base::{List, NoMemory, Place, lost};
use scc_core::{CoreNode, CoreStmt, Count, Counter};

/// The statements with their counted loops turn by turn, in which the counters stand as literals.
#[cycle(unrolled)]
pub fn unrolled(
    at: &At<'_>,
    counters: &[Counter],
    stand: Stand<'_>,
    body: &[CoreStmt],
) -> Result<List<CoreStmt>, NoMemory>
    ensures code { (b : Code) → Around at.now b counters.now → AreTaken at.now.known (asked body.now) → StandIsRead at.now.known stand.entry → IfOk result (λ l. code_of l ≡ unrolled (setting_of at.now b) (counters_of counters.now) (stand_of stand.entry) (code_of body.now)) }
    ensures copies { (xs : List Item) → AreCounters at.now.known.cells.now counters.now → AreWithin xs body.now → IfOk result (λ l. AreCopies at.now.known.cells.now xs l) }
{
    let mut stand = stand;
    let mut out = List::new(at.alloc);
    let mut count = 0usize;
    for s in body {
        count += 1;
        let last = are_all(count, body);
        unroll(at, counters, stand, s, last, &mut out)?;
        stand = behind(stand, s);
    }
    Ok(out)
}

// A statement, which is the last of its list or isn't.
#[cycle(unrolled)]
fn unroll(
    at: &At<'_>,
    counters: &[Counter],
    stand: Stand<'_>,
    s: &CoreStmt,
    last: bool,
    out: &mut List<CoreStmt>,
) -> Result<(), NoMemory>
    ensures code { (b r : Code) → Around at.now b counters.now → AreTaken at.now.known (asked (s.now ∷ [])) → StandIsRead at.now.known stand.entry → spec.is_end r ≡ last → OnOk result (set_before out.old (unrolled (setting_of at.now b) (counters_of counters.now) (stand_of stand.entry) (stmt_code s.now r)) ≡ set_before out.new (unrolled (setting_of at.now b) (counters_of counters.now) (stand_behind (stand_of stand.entry) (code_of (s.now ∷ []))) r)) }
    ensures copies { (xs : List Item) → AreCounters at.now.known.cells.now counters.now → AreWithin xs (s.now ∷ []) → AreCopies at.now.known.cells.now xs out.old → OnOk result (AreCopies at.now.known.cells.now xs out.new) }
{
    match &s.node {
        CoreNode::Loop { count, body } => {
            let list = body.as_slice();
            let ended = ended_by(at, counters, stand, count, list, last)?;
            match ended {
                Some(of) => write_loop(at, counters, &of, list, out),
                None => {
                    let copy = kept_loop(at, counters, s.place, count, list)?;
                    out.push(copy)
                }
            }
        }
        _ => {
            let copy = copied(at, counters, s)?;
            out.push(copy)
        }
    }
}

// A statement that is no loop.
#[cycle(unrolled)]
fn copied(at: &At<'_>, counters: &[Counter], s: &CoreStmt) -> Result<CoreStmt, NoMemory>
    ensures code { (b : Code) → Around at.now b counters.now → AreTaken at.now.known (asked (s.now ∷ [])) → IfOk result (λ z. (w : spec.Stand) (r : Code) → unrolled (setting_of at.now b) (counters_of counters.now) w (stmt_code s.now r) ≡ stmt_code z (unrolled (setting_of at.now b) (counters_of counters.now) (stand_behind w (code_of (s.now ∷ []))) r)) }
    ensures copies { (xs : List Item) → AreCounters at.now.known.cells.now counters.now → AreWithin xs (s.now ∷ []) → IfOk result (λ z. AreCopies at.now.known.cells.now xs (z ∷ [])) }
{
    let place = s.place;
    match &s.node {
        CoreNode::If { test, yes, no } => {
            let yes = unrolled(at, counters, Stand::Elsewhere, yes.as_slice())?;
            let no = unrolled(at, counters, Stand::Elsewhere, no.as_slice())?;
            choice(at.alloc, counters, place, test, yes, no)
        }
        CoreNode::Block(body) => {
            let body = unrolled(at, counters, Stand::First, body.as_slice())?;
            let node = CoreNode::Block(body);
            Ok(CoreStmt { place, node })
        }
        CoreNode::Assign { left, value } => put(at.alloc, counters, place, left, value),
        CoreNode::Exit(n) => {
            let node = CoreNode::Exit(*n);
            Ok(CoreStmt { place, node })
        }
        CoreNode::Wait { n } => {
            let node = CoreNode::Wait { n: *n };
            Ok(CoreStmt { place, node })
        }
        CoreNode::Alias { to, target } => aim(at.alloc, counters, place, to, target),
        CoreNode::Loop { .. } => Err(lost()),
    }
}

// A loop that stays.
#[cycle(unrolled)]
fn kept_loop(
    at: &At<'_>,
    counters: &[Counter],
    place: Place,
    count: &Option<Count>,
    body: &[CoreStmt],
) -> Result<CoreStmt, NoMemory>
    ensures code { (b : Code) → Around at.now b counters.now → AreTaken at.now.known (asked body.now) → IfOk result (λ z. (r : Code) → stmt_code z r ≡ code.Loop place (option_map (counting_count (counters_of counters.now)) (counted count.now)) (unrolled (setting_of at.now b) (counters_of counters.now) spec.Elsewhere (code_of body.now)) r) }
    ensures copies { (xs : List Item) → AreCounters at.now.known.cells.now counters.now → AreOf xs (asked_count count.now) → AreWithin xs body.now → IfOk result (λ z. AreCopies at.now.known.cells.now xs (z ∷ [])) }
{
    let body = unrolled(at, counters, Stand::Elsewhere, body)?;
    kept(at.alloc, counters, place, count, body)
}

// The turns of a loop by its body.
#[cycle(unrolled)]
fn write_loop(
    at: &At<'_>,
    counters: &[Counter],
    of: &Ended<'_>,
    body: &[CoreStmt],
    out: &mut List<CoreStmt>,
) -> Result<(), NoMemory>
    ensures code { (b : Code) → Around at.now b counters.now → AreTaken at.now.known (asked body.now) → IsItself of.now.turning.step.now → HasParts of.now.turning (code_of body.now) → OnOk result ((r : Code) → set_before out.new r ≡ set_before out.old (written_out (spec.turning_of (code_of body.now)) (map (λ x. (x, unrolled (setting_of at.now b) (spec.counter of.now.cell x.now ∷ counters_of counters.now) spec.Elsewhere (code_of body.now))) (map turn_of of.now.list)) r)) }
    ensures copies { (xs : List Item) → AreCounters at.now.known.cells.now counters.now → AreWithin xs body.now → IsWithin xs of.now.turning.step_left.now → AreCopies at.now.known.cells.now xs out.old → OnOk result (AreCopies at.now.known.cells.now xs out.new) }
{
    let [_, block, _] = body else {
        return Err(lost());
    };
    match &block.node {
        CoreNode::Block(inner) => write_turns(at, counters, of, block.place, inner.as_slice(), out),
        _ => Err(lost()),
    }
}

// Turns, each of which is its block, then the counter's next number.
#[cycle(unrolled)]
fn write_turns(
    at: &At<'_>,
    counters: &[Counter],
    of: &Ended<'_>,
    place: Place,
    inner: &[CoreStmt],
    out: &mut List<CoreStmt>,
) -> Result<(), NoMemory>
    ensures code { (b : Code) → Around at.now b counters.now → AreTaken at.now.known (asked inner.now) → IsItself of.now.turning.step.now → spec.is_whole (taken_of of.now.turning.step_left.now).pick ≡ true → OnOk result ((r : Code) → set_before out.new r ≡ set_before out.old (each_turn (setting_of at.now b) (counters_of counters.now) of.now.cell place (code_of inner.now) (turned of.now.turning) (map turn_of of.now.list) r)) }
    ensures copies { (xs : List Item) → AreCounters at.now.known.cells.now counters.now → AreWithin xs inner.now → IsWithin xs of.now.turning.step_left.now → AreCopies at.now.known.cells.now xs out.old → OnOk result (AreCopies at.now.known.cells.now xs out.new) }
{
    for turn in of.list.as_slice() {
        let block = turn_block(at, counters, of.cell, turn, place, inner)?;
        push_turn(at.alloc, &of.turning, block, turn.next, out)?;
    }
    Ok(())
}

// The block of a turn.
#[cycle(unrolled)]
fn turn_block(
    at: &At<'_>,
    counters: &[Counter],
    cell: u32,
    turn: &Turn,
    place: Place,
    inner: &[CoreStmt],
) -> Result<CoreStmt, NoMemory>
    ensures code { (b : Code) → Around at.now b counters.now → AreTaken at.now.known (asked inner.now) → IfOk result (λ z. (r : Code) → stmt_code z r ≡ code.Block place (unrolled (setting_of at.now b) (spec.counter cell turn.entry.now.now.bits ∷ counters_of counters.now) spec.First (code_of inner.now)) r) }
    ensures copies { (xs : List Item) → AreCounters at.now.known.cells.now counters.now → AreWithin xs inner.now → IfOk result (λ z. AreCopies at.now.known.cells.now xs (z ∷ [])) }
{
    let around = counters_in(at, counters, cell, turn.now)?;
    let body = unrolled(at, around.as_slice(), Stand::First, inner)?;
    let node = CoreNode::Block(body);
    Ok(CoreStmt { place, node })
}
