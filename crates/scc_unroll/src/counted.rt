//! Which loops are counted, and what stands in them as literals.
ghost use Rattle.std.specs.Prelude.{List, ◌≡◌, ◌&&◌, ◌∷◌, not, nat_le, map, slice_get, IfOk, IfSome, Some, None, option_map, is_some};
ghost use Rattle.scc_core_spec.specs.Code.{Code};
ghost use Rattle.scc_core_spec.specs.Term.{Term};
ghost use Rattle.scc_core_spec.specs.Counted as spec;
ghost use Rattle.scc_core_spec.specs.Program.{is_pointer};
ghost use Rattle.scc_core_view.specs.Codes.{code_of, count_of, counted};
ghost use Rattle.scc_core_view.specs.Programs.{cell_of, path_of};
ghost use Rattle.scc_core_view.specs.Terms.{taken_of, term_of};
ghost use Rattle.scc_semantics.specs.Location.{same_path};
ghost use Rattle.scc_unroll.specs.Shape.{StandIsRead, Around, HasParts, Knows, cells_at, counting_of, setting_of, stand_of};
ghost use Rattle.scc_unroll_asked.specs.Copied.{AreWithin, IsWithin};
ghost use Rattle.scc_unroll_asked.specs.Items.{Item};
ghost use Rattle.scc_unroll_asked.specs.Asked.{AreAll, AreRead, IsItself, asked, asked_count};
ghost use Rattle.scc_unroll_laws.specs.Counters.{counter_of, counters_of};
ghost use Rattle.scc_unroll_asked.specs.Read.{AreCounters, IsCounter, IsRead, read};
ghost use Rattle.scc_unroll.specs.Turns.{IsTold};
ghost use Rattle.scc_unroll.specs.Used.{used};

use crate::own::own_of;
use crate::shape::{Stand, Turning, holds_wait, is_cell, turning_in};
use crate::uses::Uses;
use scc_base::{List, NoMemory, PathPart, lost, push};
use scc_bits::{Value, Word};
use scc_core::{Cell, CellSort, Copies, CoreExpr, CoreLeft, CoreStmt, Count, Counter, Known};
use std::alloc::Global;

/// What stands around statements: what is known of cells, the name of their process, and how often its body assigns
/// locals.
#[derive(Clone, Copy)]
pub struct At<'a> {
    pub alloc: Global,
    pub known: Known<'a>,
    pub path: &'a [PathPart],
    pub uses: &'a Uses,
}

/// A counted loop: its counter's cell, what the counter begins with, and the parts of its body.
#[derive(Clone, Copy)]
pub struct Counted<'a> {
    pub cell: u32,
    pub start: &'a CoreExpr,
    pub turning: Turning<'a>,
}

/// The number of an expression in which these counters stand as literals; None where it isn't static.
pub fn number(at: &At<'_>, counters: &[Counter], e: &CoreExpr) -> Result<Option<Value>, NoMemory>
    ensures { IfOk result (λ o. option_map (λ v. v.word) o ≡ read at.now.known counters.now e.now) }
{
    let copy = Copies::with(at.alloc, counters).expr(e)?;
    Ok(at.known.value(&copy))
}

fn is_static(at: &At<'_>, counters: &[Counter], e: &CoreExpr) -> Result<bool, NoMemory>
    ensures { IfOk result (λ b. b ≡ is_some (read at.now.known counters.now e.now)) }
{
    match number(at, counters, e)? {
        Some(_) => Ok(true),
        None => Ok(false),
    }
}

/// A counter with the number of a word.
pub fn counter_with(cells: &List<Cell>, cell: u32, word: Word) -> Result<Counter, NoMemory>
    ensures is { IfOk result (λ c. counter_of c ≡ spec.counter cell word.bits) }
    ensures counter { IfOk result (λ c. IsCounter cells.now c) }
{
    let Some(held) = cells.get(cell as usize) else {
        return Err(lost());
    };
    match Value::of(held.kind, word) {
        Some(now) => Ok(Counter { cell, now }),
        None => Err(lost()),
    }
}

/// A counter before those of the loops around.
pub fn with(alloc: Global, first: Counter, around: &[Counter]) -> Result<Vec<Counter>, NoMemory>
    ensures { IfOk result (λ v. v.items ≡ first ∷ around.now) }
{
    let mut all = Vec::new(alloc);
    push(&mut all, first)?;
    for counter in around {
        push(&mut all, *counter)?;
    }
    Ok(all)
}

/// The counters in a loop where its own has a number.
pub fn counters_in(
    at: &At<'_>,
    around: &[Counter],
    cell: u32,
    now: Word,
) -> Result<Vec<Counter>, NoMemory>
    ensures is { IfOk result (λ v. counters_of v.items ≡ spec.counter cell now.bits ∷ counters_of around.now) }
    ensures counters { AreCounters at.now.known.cells.now around.now → IfOk result (λ v. AreCounters at.now.known.cells.now v.items) }
{
    let first = counter_with(at.known.cells(), cell, now)?;
    let all = with(at.alloc, first, around)?;
    Ok(all)
}

#[tactic(auto, using(scc_unroll_laws::proofs::Paths::path_is))]
fn same_path(a: &[PathPart], b: &[PathPart]) -> bool
    ensures { result ≡ same_path (path_of a.now) (path_of b.now) }
{
    a == b
}

fn is_pointer(cell: &Cell) -> bool
    ensures { result ≡ is_pointer (cell_of cell.now).sort }
{
    matches!(cell.sort, CellSort::Pointer(_))
}

// The number of a local of the process that is no array.
fn number_of(cell: &Cell, path: &[PathPart]) -> Option<u32>
    ensures { result ≡ spec.number_of (path_of path.now) (Some (cell_of cell.now)) }
{
    if same_path(cell.name.path.as_slice(), path) && !is_pointer(cell) {
        own_of(&cell.name)
    } else {
        None
    }
}

// That of a counter.
fn counter_number(cells: &List<Cell>, path: &[PathPart], cell: u32) -> Option<u32>
    ensures { result ≡ spec.number_of (path_of path.now) (slice_get (map cell_of cells.now) cell) }
{
    match cells.get(cell as usize) {
        Some(cell) => number_of(cell, path),
        None => None,
    }
}

fn assigned_twice(at: &At<'_>, own: u32) -> bool
    ensures { result ≡ nat_le (used at.now.uses.now own) 2 }
{
    at.uses.of(own) <= 2
}

// Whether nothing but what begins and steps a loop assigns its counter, and no pointer leads to it.
fn is_seldom(at: &At<'_>, cell: u32) -> bool
    ensures { (b : Code) → Knows at.now b → result ≡ spec.is_seldom (setting_of at.now b) (spec.counter_number (setting_of at.now b) cell) }
{
    match counter_number(at.known.cells(), at.path, cell) {
        Some(own) => assigned_twice(at, own),
        None => false,
    }
}

fn has_form(cell: u32, body: &[CoreStmt]) -> bool
    ensures { result ≡ spec.is_turning cell (code_of body.now) }
{
    turning_in(cell, body).is_some()
}

fn are_all(
    waits: bool,
    start: bool,
    bound: bool,
    step: bool,
    cell: bool,
    last: bool,
    form: bool,
    seldom: bool,
) -> bool
    ensures { result ≡ (not waits && (start && (bound && (step && (cell && (last && (form && seldom))))))) }
{
    !waits && start && bound && step && cell && last && form && seldom
}

// Whether a loop with a count that stands behind an assignment is counted: it holds no wait, what it counts by is static
// where the counters around stand as literals, the assignment begins its counter, it is its block's last, and beside that
// assignment its step alone assigns the counter.
fn counts(
    at: &At<'_>,
    counters: &[Counter],
    left: &CoreLeft,
    count: &Count,
    body: &[CoreStmt],
    last: bool,
) -> Result<bool, NoMemory>
    ensures { (b r : Code) (v : Term) → Around at.now b counters.now → AreRead at.now.known (asked_count (Some count.now)) → spec.is_end r ≡ last → IfOk result (λ t. t ≡ spec.counts (setting_of at.now b) (counters_of counters.now) (record { left = (taken_of left.now).left; pick = (taken_of left.now).pick; value = v }) (count_of count.now) (code_of body.now) r) }
{
    let start = is_static(at, counters, &count.start)?;
    let bound = is_static(at, counters, &count.bound)?;
    let step = is_static(at, counters, &count.step)?;
    let waits = holds_wait(body);
    let cell = is_cell(count.cell, left);
    let form = has_form(count.cell, body);
    let seldom = is_seldom(at, count.cell);
    Ok(are_all(waits, start, bound, step, cell, last, form, seldom))
}

// The counted loop that a loop behind an assignment is.
fn counted_from<'a>(
    at: &At<'_>,
    counters: &[Counter],
    left: &CoreLeft,
    value: &'a CoreExpr,
    count: &Count,
    body: &'a [CoreStmt],
    last: bool,
) -> Result<Option<Counted<'a>>, NoMemory>
    ensures counted { (b r : Code) → Around at.now b counters.now → AreRead at.now.known (asked_count (Some count.now)) → spec.is_end r ≡ last → IfOk result (λ o. option_map (counting_of (cells_at at.now) (counters_of counters.now)) o ≡ spec.counted_by (setting_of at.now b) (counters_of counters.now) (spec.Behind (record { left = (taken_of left.now).left; pick = (taken_of left.now).pick; value = term_of value.now })) (Some (count_of count.now)) (code_of body.now) r) }
    ensures told { AreCounters at.now.known.cells.now counters.now → IsRead at.now.known value.now → AreRead at.now.known (asked body.now) → IfOk result (λ o. IfSome o (λ g. IsTold at.now counters.now g)) }
    ensures itself { AreAll IsItself (asked body.now) → IfOk result (λ o. IfSome o (λ g. IsItself g.turning.step.now)) }
    ensures parts { IfOk result (λ o. IfSome o (λ g. HasParts g.turning (code_of body.now))) }
    ensures within { (xs : List Item) → AreWithin xs body.now → IfOk result (λ o. IfSome o (λ g. IsWithin xs g.turning.step_left.now)) }
{
    let counted = counts(at, counters, left, count, body, last)?;
    if !counted {
        return Ok(None);
    }
    match turning_in(count.cell, body) {
        Some(turning) => Ok(Some(Counted {
            cell: count.cell,
            start: value,
            turning,
        })),
        None => Err(lost()),
    }
}

/// The counted loop that a loop is.
pub fn counted_by<'a>(
    at: &At<'_>,
    counters: &[Counter],
    stand: Stand<'a>,
    count: &Option<Count>,
    body: &'a [CoreStmt],
    last: bool,
) -> Result<Option<Counted<'a>>, NoMemory>
    ensures counted { (b r : Code) → Around at.now b counters.now → AreRead at.now.known (asked_count count.now) → spec.is_end r ≡ last → IfOk result (λ o. option_map (counting_of (cells_at at.now) (counters_of counters.now)) o ≡ spec.counted_by (setting_of at.now b) (counters_of counters.now) (stand_of stand.entry) (counted count.now) (code_of body.now) r) }
    ensures told { AreCounters at.now.known.cells.now counters.now → StandIsRead at.now.known stand.entry → AreRead at.now.known (asked body.now) → IfOk result (λ o. IfSome o (λ g. IsTold at.now counters.now g)) }
    ensures itself { AreAll IsItself (asked body.now) → IfOk result (λ o. IfSome o (λ g. IsItself g.turning.step.now)) }
    ensures parts { IfOk result (λ o. IfSome o (λ g. HasParts g.turning (code_of body.now))) }
    ensures within { (xs : List Item) → AreWithin xs body.now → IfOk result (λ o. IfSome o (λ g. IsWithin xs g.turning.step_left.now)) }
{
    match (stand, count) {
        (Stand::Behind { left, value }, Some(count)) => {
            counted_from(at, counters, left, value, count, body, last)
        }
        (Stand::Behind { .. }, None) => Ok(None),
        (Stand::First, _) => Ok(None),
        (Stand::Elsewhere, _) => Ok(None),
    }
}
