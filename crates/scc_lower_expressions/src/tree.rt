//! Reads of elements under indices that aren't static: a tree of choices.
ghost use Rattle.std.specs.Prelude.{◌≡◌, ◌+◌, ◌*◌, IfOk, map};
ghost use Rattle.scc_svtree.specs.Term.{term_of};
ghost use Rattle.scc_lower_laws.specs.Elements.{variable_of, within_text};
ghost use Rattle.scc_lower_spec.specs.Selected.{halves_term};
ghost use Rattle.scc_lower_tree_laws.specs.Choosing.{ReadsElement, ReadsSpan};
ghost use Rattle.scc_lower_expressions.specs.Becoming.{given_of, opened_of, seen_of, slot_of};

use crate::built::{choice, literal};
use crate::index::Open;
use crate::lowering::{Cells, Lowering};
use crate::select::{Bits, read_part};
use scc_base::{NoMemory, lost};
use scc_svtree::SvExpr;
use std::alloc::Global;

/// How deep elements' choices may nest: the dimensions of an array, and for each the halvings of its size.
pub const CHOICES: u32 = 65_536;

/// Some bits of the element that the indices name, 0 where one is past its dimension's end. `first` is the element under
/// indices 0.
#[cycle(choices)]
pub fn element(
    alloc: Global,
    opens: &[Open],
    first: u32,
    bits: Bits,
    cells: Cells<'_>,
    cx: &Lowering<'_>,
    levels: u32,
) -> Result<SvExpr, NoMemory>
    ensures { IfOk result (λ t. ReadsElement (given_of cells.entry) (map seen_of cx.now.views.now) (map opened_of opens.now) first bits.h bits.l (term_of t)) }
{
    let Some((open, inner)) = opens.split_first() else {
        return read_part(alloc, cells, cx, first, bits);
    };
    if levels == 0 {
        return Err(lost());
    }
    let span = Span {
        low: 0,
        high: open.at.reach(open.size),
    };
    let chosen = between(
        alloc,
        inner,
        *open,
        first,
        span,
        bits,
        cells,
        cx,
        levels - 1,
    )?;
    within(alloc, *open, bits, chosen)
}

// An element of a dimension, 0 past its end.
fn within(alloc: Global, dim: Open, bits: Bits, chosen: SvExpr) -> Result<SvExpr, NoMemory>
    ensures { IfOk result (λ t. term_of t ≡ within_text (slot_of dim.at) dim.size bits.h bits.l (term_of chosen)) }
{
    if !dim.at.can_reach(dim.size) {
        return Ok(chosen);
    }
    let inside = dim.at.below(alloc, dim.size)?;
    let zero = literal(alloc, bits.count()?, 0)?;
    choice(alloc, inside, chosen, zero)
}

/// Elements from `low` up to, not with, `high`.
#[derive(Clone, Copy)]
pub struct Span {
    pub low: u32,
    pub high: u32,
}

// The choice among some elements of a dimension, by halves.
#[cycle(choices)]
fn between(
    alloc: Global,
    inner: &[Open],
    dim: Open,
    first: u32,
    span: Span,
    bits: Bits,
    cells: Cells<'_>,
    cx: &Lowering<'_>,
    levels: u32,
) -> Result<SvExpr, NoMemory>
    ensures { IfOk result (λ t. ReadsSpan (given_of cells.entry) (map seen_of cx.now.views.now) (opened_of dim) (map opened_of inner.now) first span.low span.high bits.h bits.l (term_of t)) }
{
    if levels == 0 || span.high <= span.low {
        return Err(lost());
    }
    let half = (span.high - span.low) / 2;
    if half == 0 {
        let at = element_at(first, span.low, dim.stride)?;
        return element(alloc, inner, at, bits, cells, cx, levels - 1);
    }
    let middle = span.low + half;
    let low = Span {
        low: span.low,
        high: middle,
    };
    let yes = between(alloc, inner, dim, first, low, bits, cells, cx, levels - 1)?;
    let high = Span {
        low: middle,
        high: span.high,
    };
    let no = between(alloc, inner, dim, first, high, bits, cells, cx, levels - 1)?;
    halves(alloc, dim, middle, yes, no)
}

// One of two, by whether an index is below a number.
fn halves(
    alloc: Global,
    dim: Open,
    middle: u32,
    yes: SvExpr,
    no: SvExpr,
) -> Result<SvExpr, NoMemory>
    ensures { IfOk result (λ t. term_of t ≡ halves_term dim.at.width (variable_of dim.at.var.0) middle (term_of yes) (term_of no)) }
{
    let test = dim.at.below(alloc, middle)?;
    choice(alloc, test, yes, no)
}

/// The cell of element `i` of a dimension.
pub fn element_at(first: u32, i: u32, stride: u32) -> Result<u32, NoMemory>
    ensures { IfOk result (λ c. c ≡ first + i * stride) }
{
    match i.checked_mul(stride).and_then(|n| n.checked_add(first)) {
        Some(cell) => Ok(cell),
        None => Err(lost()),
    }
}
