//! What is known of a process without its body.
ghost use Rattle.std.specs.Prelude.{◌≡◌, ℕ, Some, map, option_map, IfOk};
ghost use Rattle.scc_core_view.specs.Programs.{is_thread as is_thread_core, edge_of as core_edge, process_of as core_process, reset_of as core_reset};
ghost use Rattle.scc_elab_spec.specs.Cells.{cell_number};
ghost use Rattle.scc_inline_cells.specs.Listed.{counted};
ghost use Rattle.scc_inline_spec.specs.Inlined.{copied_process};
ghost use Rattle.scc_plain_view.specs.Designs.{design_of, edge_of, is_thread, process_of, reset_of};
ghost use Rattle.scc_plain_view.specs.Plains.{plain_of};
ghost use Rattle.scc_inline.specs.Headings.{without_body, edge_in, name_in, reset_in};
ghost use Rattle.scc_core_view.specs.Terms.{name_of as core_name};

use scc_base::{List, NoMemory, Path, PathPart, lost};
use scc_core::{CellName, CoreProcess, Edge2, Reset2, Sort2};
use scc_elab_design::{Design, Edge, Process, Reset, Sort};
use scc_plain_tree::Plain;
use std::alloc::Global;

fn numbered(found: Option<u32>) -> Result<u32, NoMemory>
    ensures { IfOk result (λ c. found ≡ Some c) }
{
    match found {
        Some(cell) => Ok(cell),
        None => Err(lost()),
    }
}

// The number of an object's cell.
fn cell(d: &Design, cells: &List<Option<u32>>, object: u32) -> Result<u32, NoMemory>
    ensures { cells.now ≡ counted 0 (design_of d.now).objects → IfOk result (λ c. c ≡ cell_number (design_of d.now) object) }
{
    match cells.get(object as usize) {
        Some(found) => numbered(*found),
        None => Err(lost()),
    }
}

fn senses(
    alloc: Global,
    d: &Design,
    process: &Process,
    cells: &List<Option<u32>>,
) -> Result<List<u32>, NoMemory>
    ensures { cells.now ≡ counted 0 (design_of d.now).objects → IfOk result (λ ns. ns ≡ map (cell_number (design_of d.now)) process.now.senses) }
{
    let mut made = List::new(alloc);
    for number in 0..process.senses.len() {
        let Some(root) = process.senses.get(number) else {
            return Err(lost());
        };
        made.push(cell(d, cells, *root)?)?;
    }
    Ok(made)
}

fn edge(
    d: &Design,
    edge: Option<Edge>,
    cells: &List<Option<u32>>,
) -> Result<Option<Edge2>, NoMemory>
    ensures { cells.now ≡ counted 0 (design_of d.now).objects → IfOk result (λ e. option_map core_edge e ≡ option_map (edge_in (design_of d.now)) (option_map edge_of edge)) }
{
    match edge {
        None => Ok(None),
        Some(edge) => Ok(Some(Edge2 {
            cell: cell(d, cells, edge.root)?,
            rising: edge.rising,
        })),
    }
}

fn reset(
    d: &Design,
    reset: Option<Reset>,
    cells: &List<Option<u32>>,
) -> Result<Option<Reset2>, NoMemory>
    ensures { cells.now ≡ counted 0 (design_of d.now).objects → IfOk result (λ e. option_map core_reset e ≡ option_map (reset_in (design_of d.now)) (option_map reset_of reset)) }
{
    match reset {
        None => Ok(None),
        Some(reset) => Ok(Some(Reset2 {
            cell: cell(d, cells, reset.root)?,
            level: reset.level,
            asynchronous: reset.asynchronous,
        })),
    }
}

// The path of the process's object, and its function's name.
fn name_of(alloc: Global, p: &Plain, d: &Design, process: &Process) -> Result<CellName, NoMemory>
    ensures { IfOk result (λ n. core_name n ≡ name_in (plain_of p.now) (design_of d.now) (process_of process.now)) }
{
    let Some(function) = p.functions.get(process.function as usize) else {
        return Err(lost());
    };
    let Some(object) = d.objects.get(process.object as usize) else {
        return Err(lost());
    };
    let mut path = Path::of(alloc, object.path.as_slice())?;
    path.push(PathPart::Member(function.name))?;
    Ok(CellName {
        path,
        local: None,
        indices: List::new(alloc),
    })
}

fn sort_of(sort: Sort) -> Sort2
    ensures { is_thread_core result ≡ is_thread sort }
{
    match sort {
        Sort::Method => Sort2::Method,
        Sort::Thread => Sort2::Thread,
    }
}

/// A process without its body.
pub fn heading(
    alloc: Global,
    p: &Plain,
    d: &Design,
    process: &Process,
    cells: &List<Option<u32>>,
) -> Result<CoreProcess, NoMemory>
    ensures { cells.now ≡ counted 0 (design_of d.now).objects → (i : ℕ) → IfOk result (λ q. core_process q ≡ without_body (copied_process (plain_of p.now) (design_of d.now) i (process_of process.now))) }
{
    let name = name_of(alloc, p, d, process)?;
    let senses = senses(alloc, d, process, cells)?;
    let edge = edge(d, process.edge, cells)?;
    let reset = reset(d, process.reset, cells)?;
    Ok(CoreProcess {
        sort: sort_of(process.sort),
        name,
        place: process.place,
        senses,
        edge,
        reset,
        body: List::new(alloc),
    })
}
