//! Which cells live across a wait: some segment may read them before it writes them whole.
ghost use Rattle.std.specs.Prelude.{◌≡◌, ◌||◌, ◌+◌, ◌++◌, ◌∷◌, [], ℕ, Bool, true, false, if◌then◌else◌, filter, IfOk, IfSome, OnOk};
ghost use Rattle.std.specs.List.{list_any};
ghost use Rattle.scc_core_spec.specs.Code.{append};
ghost use Rattle.scc_core_spec.specs.Kept.{kept};
ghost use Rattle.scc_core_spec.specs.Segments.{Plain, Segment, segment_code};
ghost use Rattle.scc_core_spec.specs.Static.{Cells};
ghost use Rattle.scc_core_spec.specs.Uses.{loads};
ghost use Rattle.scc_core_view.specs.Codes.{code_of};
ghost use Rattle.scc_core_view.specs.Terms.{term_of};
ghost use Rattle.scc_states_cut.specs.Cut.{segment_of, stmt_segment};
ghost use Rattle.scc_states_kept.specs.Gathered.{AreAsked, IsCutThread, TellsAll, Thread, before_all, cut_segments, needed_in, segments_of};
ghost use Rattle.scc_states_kept.specs.Needs.{reads_cell};
ghost use Rattle.scc_states_kept.specs.Noted.{TellsHere, cells_here};
ghost use Rattle.scc_states_kept.specs.Slots.{Keeps, TellsUses};
ghost use Rattle.scc_states_kept.specs.Walks.{Around, Counts, IsAround, Meets, Outs, TellsCode, before_rest, needs};

use crate::own::{Own, own_cells};
use crate::slots::{before_put, before_test, slot_of};
use scc_base::{List, NoMemory, lost, push};
use scc_core::{CoreExpr, CoreNode, CoreStmt, Known};
use scc_core_flow::CellSet;
use scc_states_cut::{CutBody, SegNode, SegStmt};
use std::alloc::Global;

/// The cells of the thread of that number that live across a wait, ascending; `live` is its live part, and it is cut so.
pub fn kept_of(
    alloc: Global,
    known: Known<'_>,
    process: u32,
    live: &[CoreStmt],
    cut: &CutBody,
) -> Result<List<u32>, NoMemory>
    ensures { (p : Thread) (waits : Counts) → IsCutThread known.entry p live.now (cut_segments waits cut.now) → TellsHere known.entry process (code_of live.now) →
        IfOk result (λ ks. ks ≡ kept (cells_here known.entry) process p) }
{
    let own = own_cells(alloc, known, process, live)?;
    kept_among(alloc, &own, cut)
}

fn kept_among(alloc: Global, own: &Own<'_>, cut: &CutBody) -> Result<List<u32>, NoMemory>
    ensures { (cs : Cells) (only : ℕ → Bool) (waits : Counts) → TellsAll own.now.known cs only (cut_segments waits cut.now) → AreAsked only own.now.cells.keys →
        IfOk result (λ ks. ks ≡ filter (needed_in cs (cut_segments waits cut.now)) own.now.cells.keys) }
{
    let mut all = CellSet::none(alloc, own.cells.len())?;
    segment(cut.reset.as_slice(), alloc, own, &mut all)?;
    join_segments(cut.segments.as_slice(), alloc, own, &mut all)?;
    those_in(alloc, own, &all)
}

// Puts in what is live before each of these segments.
fn join_segments(
    lists: &[List<SegStmt>],
    alloc: Global,
    own: &Own<'_>,
    all: &mut CellSet,
) -> Result<(), NoMemory>
    ensures { (cs : Cells) (only f : ℕ → Bool) (waits : Counts) → TellsAll own.now.known cs only (segments_of waits lists.now) → Keeps only own.now all.old f →
        OnOk result (Keeps only own.now all.new (λ x. list_any (λ l. before_all cs waits l x) lists.now || f x)) }
{
    for list in lists {
        join_segment(list.as_slice(), alloc, own, all)?;
    }
    Ok(())
}

fn join_segment(
    list: &[SegStmt],
    alloc: Global,
    own: &Own<'_>,
    all: &mut CellSet,
) -> Result<(), NoMemory>
    ensures { (cs : Cells) (only f : ℕ → Bool) (waits : Counts) → TellsCode own.now.known cs only (segment_code (segment_of waits list.now)) → Keeps only own.now all.old f →
        OnOk result (Keeps only own.now all.new (λ x. before_all cs waits list.now x || f x)) }
{
    let mut live = CellSet::none(alloc, own.cells.len())?;
    segment(list, alloc, own, &mut live)?;
    all.join(&live)
}

// The cells of a set, ascending.
fn those_in(alloc: Global, own: &Own<'_>, set: &CellSet) -> Result<List<u32>, NoMemory>
    ensures { (only f : ℕ → Bool) → Keeps only own.now set.now f → AreAsked only own.now.cells.keys → IfOk result (λ ks. ks ≡ filter f own.now.cells.keys) }
{
    let mut kept = List::new(alloc);
    for cell in own.cells.as_slice() {
        add_if_in(*cell, own, set, &mut kept)?;
    }
    Ok(kept)
}

fn add_if_in(cell: u32, own: &Own<'_>, set: &CellSet, kept: &mut List<u32>) -> Result<(), NoMemory>
    ensures { (only f : ℕ → Bool) → Keeps only own.now set.now f → only cell ≡ true → OnOk result (kept.new ≡ kept.old ++ (if f cell then cell ∷ [] else [])) }
{
    if is_in(cell, own, set)? {
        kept.push(cell)
    } else {
        Ok(())
    }
}

fn is_in(cell: u32, own: &Own<'_>, set: &CellSet) -> Result<bool, NoMemory>
    ensures { (only f : ℕ → Bool) → Keeps only own.now set.now f → only cell ≡ true → IfOk result (λ b. b ≡ f cell) }
{
    match slot_of(cell, own)? {
        Some(slot) => Ok(set.has(slot)),
        None => Err(lost()),
    }
}

// From what is live behind some statements of a segment to what is live before them.
#[cycle(kept_segment)]
fn segment(
    list: &[SegStmt],
    alloc: Global,
    own: &Own<'_>,
    live: &mut CellSet,
) -> Result<(), NoMemory>
    ensures { (cs : Cells) (only : ℕ → Bool) (waits : Counts) (rest : Segment) → Meets only own.now cs live.old rest → OnOk result (Meets only own.now cs live.new (before_rest waits list.now rest)) }
{
    let mut left = list.len();
    while left > 0 {
        left -= 1;
        segment_stmt(&list[left], alloc, own, live)?;
    }
    Ok(())
}

#[cycle(kept_segment)]
fn segment_stmt(
    s: &SegStmt,
    alloc: Global,
    own: &Own<'_>,
    live: &mut CellSet,
) -> Result<(), NoMemory>
    ensures { (cs : Cells) (only : ℕ → Bool) (waits : Counts) (rest : Segment) → Meets only own.now cs live.old rest → OnOk result (Meets only own.now cs live.new (stmt_segment waits s.now rest)) }
{
    match &s.node {
        SegNode::Wait(_) => {
            live.clear();
            Ok(())
        }
        SegNode::If { test, yes, no } => {
            let mut other = live.copied(alloc)?;
            segment(yes.as_slice(), alloc, own, live)?;
            segment(no.as_slice(), alloc, own, &mut other)?;
            before_branches(alloc, test, own, live, &other)
        }
        SegNode::Plain(stmt) => plain(stmt, alloc, own, live),
    }
}

// A statement that stands in its segment whole.
fn plain(s: &CoreStmt, alloc: Global, own: &Own<'_>, live: &mut CellSet) -> Result<(), NoMemory>
    ensures { (cs : Cells) (only : ℕ → Bool) (rest : Segment) → Meets only own.now cs live.old rest → OnOk result (Meets only own.now cs live.new (Plain (code_of (s.now ∷ [])) rest)) }
{
    if is_end(s) {
        return Err(lost());
    }
    let mut behind = Vec::new(alloc);
    before(s, alloc, own, live, &mut behind)
}

// Whether nothing that follows a statement in its list is reached from it; none such stands in a segment whole.
fn is_end(s: &CoreStmt) -> bool
    ensures { result ≡ false → (rest : Segment) → segment_code (Plain (code_of (s.now ∷ [])) rest) ≡ append (code_of (s.now ∷ [])) (segment_code rest) }
{
    match &s.node {
        CoreNode::Exit(_) => true,
        CoreNode::Wait { .. } => true,
        CoreNode::Assign { .. } => false,
        CoreNode::If { .. } => false,
        CoreNode::Block(_body) => false,
        CoreNode::Loop { .. } => false,
        CoreNode::Alias { .. } => false,
    }
}

#[cycle(kept_stmts)]
fn each(
    body: &[CoreStmt],
    alloc: Global,
    own: &Own<'_>,
    live: &mut CellSet,
    behind: &mut Vec<CellSet>,
) -> Result<(), NoMemory>
    ensures same { OnOk result (behind.new.items ≡ behind.old.items) }
    ensures live { (cs : Cells) (only f : ℕ → Bool) (outs : Outs) → TellsCode own.now.known cs only (code_of body.now) → Keeps only own.now live.old f → Around only own.now behind.old.items outs
        → OnOk result (Keeps only own.now live.new (needs cs (code_of body.now) f outs)) }
{
    let mut left = body.len();
    while left > 0 {
        left -= 1;
        before(&body[left], alloc, own, live, behind)?;
    }
    Ok(())
}

// From what is live behind a statement to what is live before it; `behind` has what is live behind each open block.
#[cycle(kept_stmts)]
fn before(
    s: &CoreStmt,
    alloc: Global,
    own: &Own<'_>,
    live: &mut CellSet,
    behind: &mut Vec<CellSet>,
) -> Result<(), NoMemory>
    ensures same { OnOk result (behind.new.items ≡ behind.old.items) }
    ensures live { (cs : Cells) (only f : ℕ → Bool) (outs : Outs) → TellsCode own.now.known cs only (code_of (s.now ∷ [])) → Keeps only own.now live.old f → Around only own.now behind.old.items outs
        → OnOk result (Keeps only own.now live.new (needs cs (code_of (s.now ∷ [])) f outs)) }
{
    match &s.node {
        CoreNode::Assign { left, value } => before_put(alloc, left, value, own, live),
        CoreNode::If { test, yes, no } => {
            let mut other = live.copied(alloc)?;
            each(yes.as_slice(), alloc, own, live, behind)?;
            each(no.as_slice(), alloc, own, &mut other, behind)?;
            before_branches(alloc, test, own, live, &other)
        }
        CoreNode::Block(body) => {
            push(behind, live.copied(alloc)?)?;
            each(body.as_slice(), alloc, own, live, behind)?;
            let _set = closed(behind)?;
            Ok(())
        }
        CoreNode::Exit(n) => {
            *live = around(alloc, *n, behind.as_slice())?;
            Ok(())
        }
        CoreNode::Loop { .. } => Err(lost()),
        CoreNode::Wait { .. } => Err(lost()),
        CoreNode::Alias { .. } => Err(lost()),
    }
}

// Before a test, from what is live before its branches.
fn before_branches(
    alloc: Global,
    test: &CoreExpr,
    own: &Own<'_>,
    live: &mut CellSet,
    other: &CellSet,
) -> Result<(), NoMemory>
    ensures { (cs : Cells) (only f g : ℕ → Bool) → TellsUses own.now.known cs only (loads (term_of test.now)) → Keeps only own.now live.old f → Keeps only own.now other.now g
        → OnOk result (Keeps only own.now live.new (λ x. reads_cell cs x (loads (term_of test.now)) || (f x || g x))) }
{
    live.join(other)?;
    before_test(alloc, test, own, live)
}

// What is live behind the innermost open block, which ends.
fn closed(behind: &mut Vec<CellSet>) -> Result<CellSet, NoMemory>
    ensures { IfOk result (λ s. behind.old.items ≡ behind.new.items ++ s ∷ []) }
{
    behind.pop().ok_or(lost())
}

// What is live behind the open block of that number, counted outward from 0.
fn around(alloc: Global, n: u32, behind: &[CellSet]) -> Result<CellSet, NoMemory>
    ensures { IfOk result (λ s. IsAround behind.now n s) }
{
    let Some(at) = outward(behind.len(), n) else {
        return Err(lost());
    };
    match behind.get(at) {
        Some(set) => set.copied(alloc),
        None => Err(lost()),
    }
}

// The place of the open block of that number, among so many.
fn outward(blocks: usize, n: u32) -> Option<usize>
    ensures { IfSome result (λ at. at + (n + 1) ≡ blocks) }
{
    let last = blocks.checked_sub(1)?;
    last.checked_sub(n as usize)
}
