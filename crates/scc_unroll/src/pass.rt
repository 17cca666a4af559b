//! The pass.
ghost use Rattle.std.specs.Prelude.{◌≡◌, ℕ, [], Err, IfOk, IfSome, Some, None, map, nat_lt, option_map, slice_get};
ghost use Rattle.scc_base.specs.declared.code.Code.TheVariants as code;
ghost use Rattle.scc_base.specs.declared.refusal.Refusal.{Refusal};
ghost use Rattle.scc_base.specs.declared.refusal.Stop.TheVariants as stop;
ghost use Rattle.scc_core_spec.specs.Code.{Code as Statements, size};
ghost use Rattle.scc_core_spec.specs.Counted.{Elsewhere, uses};
ghost use Rattle.scc_core_spec.specs.First.{first_of, refused, when};
ghost use Rattle.scc_core_spec.specs.Unrolled.{earlier, first_unrolled, run_turns, unrolled, with_body};
ghost use Rattle.scc_core_view.specs.Codes.{code_of};
ghost use Rattle.scc_core_view.specs.Programs.{cell_of, process_of};
ghost use Rattle.scc_unroll_asked.specs.Copied.{AreCopies, HaveCopies};
ghost use Rattle.scc_unroll_asked.specs.Items.{asked as items};
ghost use Rattle.scc_unroll_asked.specs.Asked.{AreRead, AreTaken, asked};
ghost use Rattle.scc_unroll.specs.Shape.{Around, setting_of};
ghost use Rattle.scc_unroll.specs.Spots.{spot_of};
ghost use Rattle.scc_unroll.specs.Used.{used};
ghost use Rattle.scc_unroll.specs.Unrolled.{IsOfUnrolling, IsRefused, IsUnrolled, body_of, head_of, refusal_in};
ghost use Rattle.scc_unroll_asked.specs.Cores.{AreBodies};

use crate::built::unrolled;
use crate::counted::At;
use crate::limits::{Budget, count_turns};
use crate::look::{Spot, first_uncounted};
use crate::shape::Stand;
use crate::sizes::{STATEMENTS, unrolled_size};
use crate::uses::{Uses, note_all};
use scc_base::{Code, List, NoMemory, Place, Refusal, Stop, Tally};
use scc_core::{Core, CoreProcess, CoreStmt, Known, Pass, Places};
use std::alloc::Global;

/// Writes counted loops out, turn by turn. It refuses a loop without a wait that isn't counted (UncountedLoop), and more than 4,096
/// turns of a process or more than 65,536 statements of its unrolled body (TooManyTurns).
#[derive(Clone, Copy)]
pub struct Unroll;

impl Pass for Unroll {
    ghost gives = { λ _ c m. IsUnrolled c m };

    ghost refuses = { λ _ c r. IsRefused c r };

    fn run(&self, alloc: Global, c: Core) -> Result<Core, Stop> {
        let Core {
            top,
            cells,
            processes,
            vectors,
        } = c;
        let places = Places::of(alloc, &cells, &vectors)?;
        let processes = all(alloc, Known::new(&cells, &places), processes)?;
        Ok(Core {
            top,
            cells,
            processes,
            vectors,
        })
    }
}

fn all(
    alloc: Global,
    known: Known<'_>,
    processes: List<CoreProcess>,
) -> Result<List<CoreProcess>, Stop>
    ensures heads { IfOk result (λ ps. map head_of ps ≡ map head_of processes) }
    ensures stop { (r : Refusal) → result ≡ Err (stop.Refused r) → IsOfUnrolling r }
    ensures refused { (r : Refusal) → AreBodies known.entry processes → result ≡ Err (stop.Refused r) → first_of (first_unrolled (map cell_of known.entry.cells.now)) (map process_of processes) ≡ Some r }
    ensures passed { AreBodies known.entry processes → IfOk result (λ ps. first_of (first_unrolled (map cell_of known.entry.cells.now)) (map process_of processes) ≡ None) }
    ensures given { AreBodies known.entry processes → IfOk result (λ ps. map process_of ps ≡ map (with_body (body_of (map cell_of known.entry.cells.now))) (map process_of processes)) }
    ensures copies { IfOk result (λ ps. HaveCopies known.entry.cells.now processes ps) }
{
    let mut out = List::new(alloc);
    for p in processes.into_vec() {
        let new = process(alloc, known, p)?;
        out.push(new)?;
    }
    Ok(out)
}

fn process(alloc: Global, known: Known<'_>, p: CoreProcess) -> Result<CoreProcess, Stop>
    ensures head { IfOk result (λ q. head_of q ≡ head_of p) }
    ensures stop { (r : Refusal) → result ≡ Err (stop.Refused r) → IsOfUnrolling r }
    ensures refused { (r : Refusal) → AreTaken known.entry (asked p.body) → result ≡ Err (stop.Refused r) → first_unrolled (map cell_of known.entry.cells.now) (process_of p) ≡ Some r }
    ensures passed { AreTaken known.entry (asked p.body) → IfOk result (λ q. first_unrolled (map cell_of known.entry.cells.now) (process_of p) ≡ None) }
    ensures given { AreTaken known.entry (asked p.body) → IfOk result (λ q. process_of q ≡ with_body (body_of (map cell_of known.entry.cells.now)) (process_of p)) }
    ensures copies { IfOk result (λ q. AreCopies known.entry.cells.now (items p.body) q.body) }
{
    let mut p = p;
    p.body = new_body(alloc, known, &p)?;
    Ok(p)
}

// The unrolled body.
fn new_body(alloc: Global, known: Known<'_>, p: &CoreProcess) -> Result<List<CoreStmt>, Stop>
    ensures stop { (r : Refusal) → result ≡ Err (stop.Refused r) → IsOfUnrolling r }
    ensures refused { (r : Refusal) → AreTaken known.entry (asked p.now.body) → result ≡ Err (stop.Refused r) → first_unrolled (map cell_of known.entry.cells.now) (process_of p.now) ≡ Some r }
    ensures passed { AreTaken known.entry (asked p.now.body) → IfOk result (λ l. first_unrolled (map cell_of known.entry.cells.now) (process_of p.now) ≡ None) }
    ensures given { AreTaken known.entry (asked p.now.body) → IfOk result (λ l. code_of l ≡ body_of (map cell_of known.entry.cells.now) (process_of p.now)) }
    ensures copies { IfOk result (λ l. AreCopies known.entry.cells.now (items p.now.body) l) }
{
    let uses = uses_of(alloc, known, p.body.as_slice())?;
    let at = At {
        alloc,
        known,
        path: p.name.path.as_slice(),
        uses: &uses,
    };
    body_at(&at, p.place, p.body.as_slice())
}

fn uses_of(alloc: Global, known: Known<'_>, body: &[CoreStmt]) -> Result<Uses, NoMemory>
    ensures { IfOk result (λ u. (o : ℕ) → used u o ≡ uses (map cell_of known.entry.cells.now) o (code_of body.now)) }
{
    let mut uses = Uses::new(alloc);
    note_all(body, known.cells(), &mut uses)?;
    Ok(uses)
}

fn body_at(at: &At<'_>, place: Place, body: &[CoreStmt]) -> Result<List<CoreStmt>, Stop>
    ensures stop { (r : Refusal) → result ≡ Err (stop.Refused r) → IsOfUnrolling r }
    ensures refused { (b : Statements) (r : Refusal) → Around at.now b [] → AreTaken at.now.known (asked body.now) → result ≡ Err (stop.Refused r) → refusal_in (setting_of at.now b) place (code_of body.now) ≡ Some r }
    ensures passed { (b : Statements) → Around at.now b [] → AreTaken at.now.known (asked body.now) → IfOk result (λ l. refusal_in (setting_of at.now b) place (code_of body.now) ≡ None) }
    ensures given { (b : Statements) → Around at.now b [] → AreTaken at.now.known (asked body.now) → IfOk result (λ l. code_of l ≡ unrolled (setting_of at.now b) [] Elsewhere (code_of body.now)) }
    ensures copies { IfOk result (λ l. AreCopies at.now.known.cells.now (items body.now) l) }
{
    let refusal = refusal_of(at, place, body)?;
    match refusal {
        Some(refusal) => Err(Stop::Refused(refusal)),
        None => {
            let written = unrolled(at, &[], Stand::Elsewhere, body)?;
            Ok(written)
        }
    }
}

// What is refused of a body, of a process at that place.
fn refusal_of(at: &At<'_>, place: Place, body: &[CoreStmt]) -> Result<Option<Refusal>, NoMemory>
    ensures stop { IfOk result (λ o. IfSome o (λ r. IsOfUnrolling r)) }
    ensures refusal { (b : Statements) → Around at.now b [] → AreRead at.now.known (asked body.now) → IfOk result (λ o. o ≡ refusal_in (setting_of at.now b) place (code_of body.now)) }
{
    let uncounted = first_uncounted(at, &[], Stand::Elsewhere, 0, body)?;
    let over = over_of(at, body)?;
    let of_loops = earlier_of(uncounted, over);
    match of_loops {
        Some(refusal) => Ok(Some(refusal)),
        None => {
            let of_size = size_refusal(at, place, body)?;
            Ok(of_size)
        }
    }
}

// The loop that makes a turn too many.
fn over_of(at: &At<'_>, body: &[CoreStmt]) -> Result<Option<Spot>, NoMemory>
    ensures { (b : Statements) → Around at.now b [] → AreRead at.now.known (asked body.now) → IfOk result (λ o. option_map spot_of o ≡ slice_get (run_turns (setting_of at.now b) [] Elsewhere 0 (code_of body.now)) 4096) }
{
    let budget = count_turns(at, &[], Stand::Elsewhere, 0, body, Budget::new())?;
    Ok(budget.over)
}

// Whether the unrolled body has too many statements.
fn is_too_large(at: &At<'_>, body: &[CoreStmt]) -> Result<bool, NoMemory>
    ensures { (b : Statements) → Around at.now b [] → AreRead at.now.known (asked body.now) → IfOk result (λ t. t ≡ nat_lt 65536 (size (unrolled (setting_of at.now b) [] Elsewhere (code_of body.now)))) }
{
    let none = Tally::new(STATEMENTS);
    let sum = unrolled_size(at, &[], Stand::Elsewhere, body, none)?;
    Ok(sum.is_over())
}

// That of an unrolled body that has too many.
fn size_refusal(at: &At<'_>, place: Place, body: &[CoreStmt]) -> Result<Option<Refusal>, NoMemory>
    ensures stop { IfOk result (λ o. IfSome o (λ r. IsOfUnrolling r)) }
    ensures refusal { (b : Statements) → Around at.now b [] → AreRead at.now.known (asked body.now) → IfOk result (λ o. o ≡ when (nat_lt 65536 (size (unrolled (setting_of at.now b) [] Elsewhere (code_of body.now)))) (refused code.TooManyTurns place)) }
{
    let large = is_too_large(at, body)?;
    if large {
        // E602.
        Ok(Some(refusal(Code::TooManyTurns, place)))
    } else {
        Ok(None)
    }
}

fn refusal(code: Code, place: Place) -> Refusal
    ensures { result ≡ refused code place }
{
    Refusal {
        code,
        place,
        other: None,
    }
}

// That of the earlier one of a loop that isn't counted and one that makes a turn too many.
fn earlier_of(uncounted: Option<Spot>, over: Option<Spot>) -> Option<Refusal>
    ensures stop { IfSome result (λ r. IsOfUnrolling r) }
    ensures refusal { result ≡ earlier (option_map spot_of uncounted) (option_map spot_of over) }
{
    match (uncounted, over) {
        (None, None) => None,
        // E508.
        (Some(a), None) => Some(refusal(Code::UncountedLoop, a.place)),
        (None, Some(b)) => Some(refusal(Code::TooManyTurns, b.place)),
        (Some(a), Some(b)) => {
            if a.number < b.number {
                Some(refusal(Code::UncountedLoop, a.place))
            } else {
                Some(refusal(Code::TooManyTurns, b.place))
            }
        }
    }
}
