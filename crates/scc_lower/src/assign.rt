//! Assignments.
ghost use Rattle.std.specs.Prelude.{◌≡◌, [], ◌∷◌, IfOk, OnOk, Some, map, slice_get};
ghost use Rattle.scc_bits_kinds.specs.declared.kind.Kind.{Kind};
ghost use Rattle.scc_bits_kinds.specs.Kinds.{width_of};
ghost use Rattle.scc_core.specs.declared.expr.CoreBase.TheOpen as tree;
ghost use Rattle.scc_core.specs.declared.expr.CoreLeft.{CoreLeft};
ghost use Rattle.scc_core.specs.declared.expr.CorePick.{CorePick, out-CorePick};
ghost use Rattle.scc_core.specs.declared.program.Cell.{Cell};
ghost use Rattle.scc_core_spec.specs.Term.{Pick, Term};
ghost use Rattle.scc_svtree.specs.Code.{code_of};
ghost use Rattle.scc_svtree.specs.Term.{term_of};
ghost use Rattle.scc_lower_laws.specs.Puts.{bit_text, bit_value};
ghost use Rattle.scc_lower_tree_laws.specs.Assigning.{Assigning, At, Part, PutsElement, Takes};
ghost use Rattle.scc_lower_tree_laws.specs.Finding.{IsFoundAt};
ghost use Rattle.scc_lower_expressions.specs.Becoming.{found_of, given_of, opened_of, outcome_of, seen_of, slot_of, state_of};
ghost use Rattle.scc_lower.specs.Adding.{Adds, IsArm, inside_code, others_text, wanted_of};
ghost use Rattle.scc_lower.specs.Taking.{ArePicked, IsBitTaken, IsNumberTaken, IsTaken};

use scc_base::{List, NoMemory, lost};
use scc_bits::{Value, width};
use scc_core::{CoreExpr, CoreLeft, CorePick};
use scc_lower_expressions::built::{binary, literal, number, unary, whole, widened};
use scc_lower_expressions::convert::{Lowered, expression};
use scc_lower_expressions::expr::{LEVELS, lowered};
use scc_lower_expressions::index::{Index, Open, indexed, opened};
use scc_lower_expressions::lowering::{Cells, Lowering, read_of};
use scc_lower_expressions::place::{Found, locate};
use scc_lower_expressions::select::{Bits, part};
use scc_lower_expressions::tree::{CHOICES, element_at};
use scc_svtree::{SvArm, SvBinary, SvExpr, SvLeft, SvStmt, SvUnary, VarId};
use scc_svtree_renumber::{Ids, renumbered_expr};
use std::alloc::Global;

/// What each cell that an assignment may mean is given.
#[derive(Drop)]
enum Written {
    /// These bits, a copy of the value each.
    Part { bits: Bits, value: SvExpr },
    /// One bit under an index; the value has the width of the cell.
    Bit { at: Index, value: SvExpr },
}

/// Which bits of its cells an assignment writes.
#[derive(Clone, Copy)]
enum Taken<'a> {
    These(Bits),
    /// The bit at an index that isn't static.
    Open(&'a CoreExpr),
    /// None, as the bit stands past the end.
    Past,
}

/// An assignment; none where the location is past an end. The assignments of its temporaries go to the lowering's list.
pub fn assigned(
    alloc: Global,
    left: &CoreLeft,
    value: &CoreExpr,
    cells: Cells<'_>,
    cx: &mut Lowering<'_>,
) -> Result<List<SvStmt>, NoMemory>
    ensures { IfOk result (λ ss. Assigning (given_of cells.entry) left.now value.now (state_of cx.old) (code_of ss) (state_of cx.new)) }
{
    match locate(alloc, cells, left)? {
        Some(found) => located(alloc, left, &found, value, cells, cx),
        None => Ok(List::new(alloc)),
    }
}

// The same to cells that were found.
fn located(
    alloc: Global,
    left: &CoreLeft,
    found: &Found<'_>,
    value: &CoreExpr,
    cells: Cells<'_>,
    cx: &mut Lowering<'_>,
) -> Result<List<SvStmt>, NoMemory>
    ensures { IsFoundAt (given_of cells.entry) left.now (found_of found.now) → IfOk result (λ ss. Assigning (given_of cells.entry) left.now value.now (state_of cx.old) (code_of ss) (state_of cx.new)) }
{
    let all = width(cells.cell(found.first)?.kind);
    match bits_of(cells, left, all)? {
        Taken::These(bits) => part_assigned(alloc, found, bits, value, cells, cx),
        Taken::Open(at) => bit_assigned(alloc, found, at, all, value, cells, cx),
        Taken::Past => Ok(List::new(alloc)),
    }
}

// Which bits of cells of so many are written.
fn bits_of<'a>(cells: Cells<'_>, left: &'a CoreLeft, all: u32) -> Result<Taken<'a>, NoMemory>
    ensures { IfOk result (λ t. IsTaken (given_of cells.entry) left.now.pick all t) }
{
    match &left.pick {
        None => Ok(Taken::These(Bits::all(all)?)),
        Some(pick) => Ok(pick_taken(cells, pick, all)),
    }
}

fn pick_taken<'a>(cells: Cells<'_>, pick: &'a CorePick, all: u32) -> Taken<'a>
    ensures { ArePicked (given_of cells.entry) (out-CorePick pick.now) all result }
{
    match pick {
        CorePick::Range { h, l, .. } => Taken::These(Bits { h: *h, l: *l }),
        CorePick::Bit { at, .. } => bit_taken(cells, at, all),
    }
}

// The bit at an index.
fn bit_taken<'a>(cells: Cells<'_>, at: &'a CoreExpr, all: u32) -> Taken<'a>
    ensures { IsBitTaken (given_of cells.entry) at.now all result }
{
    match cells.known.value(at) {
        None => Taken::Open(at),
        Some(v) => number_taken(v, all),
    }
}

fn number_taken<'a>(v: Value, all: u32) -> Taken<'a>
    ensures { IsNumberTaken v all result }
{
    match v.small() {
        Some(i) => {
            if i < all {
                Taken::These(Bits { h: i, l: i })
            } else {
                Taken::Past
            }
        }
        None => Taken::Past,
    }
}

fn part_assigned(
    alloc: Global,
    found: &Found<'_>,
    bits: Bits,
    value: &CoreExpr,
    cells: Cells<'_>,
    cx: &mut Lowering<'_>,
) -> Result<List<SvStmt>, NoMemory>
    ensures { (l : CoreLeft) → IsFoundAt (given_of cells.entry) l (found_of found.now) → Takes (given_of cells.entry) l value.now (map seen_of cx.old.views.now) bits.h bits.l → IfOk result (λ ss. Assigning (given_of cells.entry) l value.now (state_of cx.old) (code_of ss) (state_of cx.new)) }
{
    let opens = opened(alloc, found.dims.as_slice(), cells, cx, LEVELS)?;
    let of = lowered(alloc, value, cells, cx, LEVELS)?;
    let value = expression(alloc, of)?;
    let written = Written::Part { bits, value };
    all_written(alloc, opens.as_slice(), found.first, &written, cells, cx)
}

// The bit at an index that isn't static, in cells of so many bits.
fn bit_assigned(
    alloc: Global,
    found: &Found<'_>,
    at: &CoreExpr,
    all: u32,
    value: &CoreExpr,
    cells: Cells<'_>,
    cx: &mut Lowering<'_>,
) -> Result<List<SvStmt>, NoMemory>
    ensures { (l : CoreLeft) → (q : CorePick) → (j : Kind) → (cell : Cell) → l.pick ≡ Some q → out-CorePick q ≡ tree.Bit j at.now → IsFoundAt (given_of cells.entry) l (found_of found.now) → slice_get cells.entry.cells.now found.now.first ≡ Some cell → all ≡ width_of cell.kind → IfOk result (λ ss. Assigning (given_of cells.entry) l value.now (state_of cx.old) (code_of ss) (state_of cx.new)) }
{
    let opens = opened(alloc, found.dims.as_slice(), cells, cx, LEVELS)?;
    let at = indexed(alloc, at, cells, cx, LEVELS)?;
    let of = lowered(alloc, value, cells, cx, LEVELS)?;
    let value = in_width(alloc, all, of)?;
    let written = Written::Bit { at, value };
    all_written(alloc, opens.as_slice(), found.first, &written, cells, cx)
}

// A bit in the width of the cells.
fn in_width(alloc: Global, width: u32, of: Lowered) -> Result<SvExpr, NoMemory>
    ensures { IfOk result (λ e. term_of e ≡ bit_value width (outcome_of of)) }
{
    match of {
        Lowered::Known(v) => literal(alloc, width, v.word().bits),
        Lowered::Made(e) => widened(alloc, width, e),
    }
}

// The statements that write the element that the indices name.
fn all_written(
    alloc: Global,
    opens: &[Open],
    first: u32,
    written: &Written,
    cells: Cells<'_>,
    cx: &Lowering<'_>,
) -> Result<List<SvStmt>, NoMemory>
    ensures { (k : Pick) → (e : Term) → IfOk result (λ ss. PutsElement (given_of cells.entry) (map seen_of cx.now.views.now) (map opened_of opens.now) first (wanted_of written.now k e) (code_of ss)) }
{
    let mut out = List::new(alloc);
    spread(alloc, opens, first, written, cells, cx, &mut out, CHOICES)?;
    Ok(out)
}

// One assignment for each element that the indices can name, in the arms of a `case` for each dimension.
#[cycle(spread)]
fn spread(
    alloc: Global,
    opens: &[Open],
    first: u32,
    written: &Written,
    cells: Cells<'_>,
    cx: &Lowering<'_>,
    out: &mut List<SvStmt>,
    levels: u32,
) -> Result<(), NoMemory>
    ensures { (k : Pick) → (e : Term) → OnOk result (Adds (given_of cells.entry) (map seen_of cx.now.views.now) (map opened_of opens.now) first (wanted_of written.now k e) out.old out.new) }
{
    let Some((open, inner)) = opens.split_first() else {
        return cell_written(alloc, first, written, cells, cx, out);
    };
    if levels == 0 {
        return Err(lost());
    }
    let mut arms = List::new(alloc);
    for i in 0..open.at.reach(open.size) {
        let arm = arm_of(
            alloc,
            inner,
            *open,
            i,
            first,
            written,
            cells,
            cx,
            levels - 1,
        )?;
        arms.push(arm)?;
    }
    let of = open.at.read(alloc)?;
    out.push(SvStmt::Case { of, arms })
}

// The arm of one element of a dimension.
#[cycle(spread)]
fn arm_of(
    alloc: Global,
    inner: &[Open],
    dim: Open,
    i: u32,
    first: u32,
    written: &Written,
    cells: Cells<'_>,
    cx: &Lowering<'_>,
    levels: u32,
) -> Result<SvArm, NoMemory>
    ensures { (k : Pick) → (e : Term) → IfOk result (λ a. IsArm (given_of cells.entry) (map seen_of cx.now.views.now) (opened_of dim) (map opened_of inner.now) first i (wanted_of written.now k e) a) }
{
    let mut body = List::new(alloc);
    let cell = element_at(first, i, dim.stride)?;
    spread(alloc, inner, cell, written, cells, cx, &mut body, levels)?;
    let label = number(dim.at.width, u128::from(i));
    Ok(SvArm { label, body })
}

// One cell.
fn cell_written(
    alloc: Global,
    cell: u32,
    written: &Written,
    cells: Cells<'_>,
    cx: &Lowering<'_>,
    out: &mut List<SvStmt>,
) -> Result<(), NoMemory>
    ensures { (k : Pick) → (e : Term) → OnOk result (Adds (given_of cells.entry) (map seen_of cx.now.views.now) [] cell (wanted_of written.now k e) out.old out.new) }
{
    match written {
        Written::Part { bits, value } => part_of(alloc, cell, *bits, value, cells, cx, out),
        Written::Bit { at, value } => bit_of(alloc, cell, *at, value, cells, cx, out),
    }
}

fn part_of(
    alloc: Global,
    cell: u32,
    bits: Bits,
    value: &SvExpr,
    cells: Cells<'_>,
    cx: &Lowering<'_>,
    out: &mut List<SvStmt>,
) -> Result<(), NoMemory>
    ensures { (k : Pick) → (e : Term) → OnOk result (Adds (given_of cells.entry) (map seen_of cx.now.views.now) [] cell (Part bits.h bits.l k e (term_of value.now)) out.old out.new) }
{
    let var = cx.written_to(cell)?;
    let left = part(var, width(cells.cell(cell)?.kind), bits);
    let value = renumbered_expr(alloc, value, Ids::same(), LEVELS)?;
    out.push(SvStmt::Assign { left, value })
}

// The bit at an index; nothing where the index is past the width.
fn bit_of(
    alloc: Global,
    cell: u32,
    at: Index,
    value: &SvExpr,
    cells: Cells<'_>,
    cx: &Lowering<'_>,
    out: &mut List<SvStmt>,
) -> Result<(), NoMemory>
    ensures { (i : Term) → OnOk result (Adds (given_of cells.entry) (map seen_of cx.now.views.now) [] cell (At i (slot_of at) (term_of value.now)) out.old out.new) }
{
    let all = width(cells.cell(cell)?.kind);
    let from = read_of(cx.view(cell)?, cell)?;
    let value = with_bit(alloc, all, from, at, value)?;
    let left = SvLeft::Whole(cx.written_to(cell)?);
    let stmt = inside(alloc, all, at, SvStmt::Assign { left, value })?;
    out.push(stmt)
}

// The variable of so many bits with the bit at an index taken out and the new one put there.
fn with_bit(
    alloc: Global,
    width: u32,
    var: VarId,
    at: Index,
    value: &SvExpr,
) -> Result<SvExpr, NoMemory>
    ensures { IfOk result (λ e. term_of e ≡ bit_text width var.0 at.var.0 (term_of value.now)) }
{
    let kept = without_bit(alloc, width, var, at)?;
    let value = renumbered_expr(alloc, value, Ids::same(), LEVELS)?;
    let put = binary(alloc, SvBinary::Shl, value, at.read(alloc)?)?;
    binary(alloc, SvBinary::Or, kept, put)
}

fn without_bit(alloc: Global, width: u32, var: VarId, at: Index) -> Result<SvExpr, NoMemory>
    ensures { IfOk result (λ e. term_of e ≡ others_text width var.0 at.var.0) }
{
    let old = whole(alloc, var)?;
    let one = literal(alloc, width, 1)?;
    let there = binary(alloc, SvBinary::Shl, one, at.read(alloc)?)?;
    let others = unary(alloc, SvUnary::Not, there)?;
    binary(alloc, SvBinary::And, old, others)
}

// A statement that runs where an index is below a width.
fn inside(alloc: Global, width: u32, at: Index, stmt: SvStmt) -> Result<SvStmt, NoMemory>
    ensures { IfOk result (λ s. code_of (s ∷ []) ≡ inside_code width (slot_of at) (code_of (stmt ∷ []))) }
{
    if !at.can_reach(width) {
        return Ok(stmt);
    }
    let test = at.below(alloc, width)?;
    let mut yes = List::new(alloc);
    yes.push(stmt)?;
    Ok(SvStmt::If {
        test,
        yes,
        no: List::new(alloc),
    })
}
