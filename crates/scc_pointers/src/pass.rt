//! The pass.
ghost use Rattle.std.specs.Prelude.{◌≡◌, ℕ, Err, IfOk, Some, filter, map, not};
ghost use Rattle.scc_base.specs.declared.refusal.Refusal.{Refusal};
ghost use Rattle.scc_base.specs.declared.refusal.Stop.TheVariants as stop;
ghost use Rattle.scc_core_spec.specs.Program.{Program};
ghost use Rattle.scc_core_spec.specs.Resolved.{Made, Stopped};
ghost use Rattle.scc_core_spec.specs.Renumbered.{new_number, renamed_code};
ghost use Rattle.scc_pointers_numbers.specs.Numbered.{Found};
ghost use Rattle.scc_core_view.specs.Codes.{code_of};
ghost use Rattle.scc_core_view.specs.Programs.{process_of};
ghost use Rattle.scc_pointers.specs.Resolved.{IsRefused, IsResolved, new_numbers, number_in, title_in, title_of};
ghost use Rattle.scc_pointers_laws.specs.Ready.{AreBodies, AreReady, IsOver, first_leads};
ghost use Rattle.scc_pointers_spec.specs.Freed.{all_freed, freed};
ghost use Rattle.scc_pointers_walk.specs.Led.{Gives};
ghost use Rattle.scc_pointers_walk.specs.Pointers.{IsOfPointers, is_pointer};

use crate::stmt::resolved_stmts;
use scc_base::{List, NoMemory, Stop, lost, push};
use scc_core::{
    Cell, CellSort, Core, CoreProcess, CoreStmt, Edge2, Known, Pass, Places, Reset2, VectorSize2,
};
use scc_pointers_numbers::Numbering;
use scc_pointers_walk::Resolver;
use std::alloc::Global;

/// Puts the objects to which pointers and references lead in their place. It refuses following null (EmptyPointer), an assignment
/// of a pointer after its declaration (PointerAssigned), and a pointer, reference or object that is chosen by an index which
/// isn't static (StaticIndex).
#[derive(Clone, Copy)]
pub struct Resolve;

impl Pass for Resolve {
    ghost gives = { λ _ c m. IsResolved c m };

    ghost refuses = { λ _ c r. IsRefused c r };

    fn run(&self, alloc: Global, c: Core) -> Result<Core, Stop> {
        let Core {
            top,
            cells,
            processes,
            vectors,
        } = c;
        let places = Places::of(alloc, &cells, &vectors)?;
        let numbers = numbers_of(alloc, cells.as_slice())?;
        let known = Known::new(&cells, &places);
        let processes = all(
            alloc,
            known,
            &places,
            &vectors,
            processes,
            numbers.as_slice(),
        )?;
        let cells = kept(alloc, cells)?;
        Ok(Core {
            top,
            cells,
            processes,
            vectors,
        })
    }
}

const GONE: u32 = u32::MAX;

fn is_pointer(cell: &Cell) -> bool
    ensures { result ≡ is_pointer cell.now }
{
    matches!(cell.sort, CellSort::Pointer(_))
}

// The processes with their bodies without pointers and the new numbers.
fn all(
    alloc: Global,
    known: Known<'_>,
    places: &Places,
    vectors: &List<VectorSize2>,
    processes: List<CoreProcess>,
    numbers: &[u32],
) -> Result<List<CoreProcess>, Stop>
    ensures titles { IfOk result (λ out. map title_of out ≡ map (title_in numbers.now) processes) }
    ensures stop { (q : Refusal) → result ≡ Err (stop.Refused q) → IsOfPointers q }
    ensures refused { (p : Program) (r : Refusal) → IsOver p known.entry vectors.now → AreBodies known.entry places.now vectors.now processes → result ≡ Err (stop.Refused r) → all_freed p (map process_of processes) ≡ Stopped r }
    ensures given { (p : Program) → IsOver p known.entry vectors.now → Found numbers.now (new_number p.cells) → AreBodies known.entry places.now vectors.now processes → IfOk result (λ out. all_freed p (map process_of processes) ≡ Made (map process_of out)) }
{
    let mut out = List::new(alloc);
    for p in processes.into_vec() {
        let body = new_body(alloc, known, places, vectors, p.body.as_slice())?;
        out.push(renumbered_process(alloc, p, body, numbers)?)?;
    }
    Ok(out)
}

// A body without pointers, with the cells' old numbers.
fn new_body(
    alloc: Global,
    known: Known<'_>,
    places: &Places,
    vectors: &List<VectorSize2>,
    body: &[CoreStmt],
) -> Result<List<CoreStmt>, Stop>
    ensures stop { (q : Refusal) → result ≡ Err (stop.Refused q) → IsOfPointers q }
    ensures freed { AreReady known.entry places.now vectors.now body.now → Gives code_of result (freed (first_leads known.entry vectors.now) (code_of body.now)) }
{
    let mut r = Resolver::new(alloc, known, places, vectors);
    resolved_stmts(body, &mut r)
}

// The new numbers of the cells that stay.
fn numbers_of(alloc: Global, cells: &[Cell]) -> Result<Vec<u32>, NoMemory>
    ensures { IfOk result (λ v. v.items ≡ new_numbers 0 cells.now) }
{
    let mut numbers = Vec::new(alloc);
    let mut next = 0u32;
    for cell in cells {
        if is_pointer(cell) {
            push(&mut numbers, GONE)?;
        } else {
            push(&mut numbers, next)?;
            next = next.saturating_add(1);
        }
    }
    Ok(numbers)
}

// The cells that are no pointers.
fn kept(alloc: Global, cells: List<Cell>) -> Result<List<Cell>, NoMemory>
    ensures { IfOk result (λ out. out ≡ filter (λ x. not (is_pointer x)) cells) }
{
    let mut out = List::new(alloc);
    for cell in cells.into_vec() {
        if is_pointer(&cell) {
            drop(cell);
        } else {
            out.push(cell)?;
        }
    }
    Ok(out)
}

fn number(numbers: &[u32], cell: u32) -> Result<u32, NoMemory>
    ensures { IfOk result (λ n. number_in numbers.now cell ≡ Some n) }
{
    match numbers.get(cell as usize) {
        Some(n) if *n != GONE => Ok(*n),
        Some(_) | None => Err(lost()),
    }
}

// A process with its new body and the new numbers.
fn renumbered_process(
    alloc: Global,
    p: CoreProcess,
    new: List<CoreStmt>,
    numbers: &[u32],
) -> Result<CoreProcess, NoMemory>
    ensures title { IfOk result (λ q. title_of q ≡ title_in numbers.now p) }
    ensures body { (f : ℕ → ℕ) → Found numbers.now f → IfOk result (λ q. code_of q.body ≡ renamed_code f (code_of new)) }
{
    let CoreProcess {
        sort,
        name,
        place,
        senses: old_senses,
        edge: old_edge,
        reset: old_reset,
        body: old,
    } = p;
    drop(old);
    let mut senses = List::new(alloc);
    for cell in old_senses.as_slice() {
        senses.push(number(numbers, *cell)?)?;
    }
    let edge = match old_edge {
        Some(edge) => Some(Edge2 {
            cell: number(numbers, edge.cell)?,
            rising: edge.rising,
        }),
        None => None,
    };
    let reset = match old_reset {
        Some(reset) => Some(Reset2 {
            cell: number(numbers, reset.cell)?,
            level: reset.level,
            asynchronous: reset.asynchronous,
        }),
        None => None,
    };
    let body = Numbering { alloc, numbers }.stmts(new.as_slice())?;
    Ok(CoreProcess {
        sort,
        name,
        place,
        senses,
        edge,
        reset,
        body,
    })
}
