//! What is read of elements under indices that stand in variables, and the text of bits and concatenations.
ghost use Rattle.std.specs.Prelude.{◌≡◌, IfOk, IfSome, Some, map};
ghost use Rattle.std.specs.Option.{option_copied};
ghost use Rattle.scc_bits_kinds.specs.declared.kind.Kind.{Kind};
ghost use Rattle.scc_core.specs.declared.expr.CoreLeft.{CoreLeft};
ghost use Rattle.scc_core.specs.declared.expr.CorePick.{CorePick};
ghost use Rattle.scc_core.specs.Numbers.{small};
ghost use Rattle.scc_svtree.specs.Term as term;
ghost use Rattle.scc_svtree.specs.Term.{joined, term_of};
ghost use Rattle.scc_svtree.specs.declared.expr.SvLeft.TheVariants as place;
ghost use Rattle.scc_lower_spec.specs.Selected.{bit_term};
ghost use Rattle.scc_lower_tree_laws.specs.Finding as finding;
ghost use Rattle.scc_lower_tree_laws.specs.Finding.{IsFoundAt, IsKnownBit, Opening, Reading, location_of};
ghost use Rattle.scc_lower_tree_laws.specs.States.{State};
ghost use Rattle.scc_lower_expressions.specs.Becoming.{IsBitAt, IsWholeRead, given_of, opened_of, seen_of, state_of};

use crate::built::{binary, cast, literal, node};
use crate::index::{Index, Open};
use crate::lowering::{Cells, Lowering};
use crate::select::Bits;
use crate::tree::{CHOICES, element};
use scc_base::{List, NoMemory, lost};
use scc_bits::{Value, width};
use scc_core::{CoreExpr, CoreExprNode, CoreLeft, CorePick};
use scc_svtree::{SvBinary, SvExpr, SvExprNode};
use std::alloc::Global;

/// The location that an expression reads.
pub fn location(e: &CoreExpr) -> Option<&CoreLeft>
    ensures { option_copied result ≡ location_of e.now }
{
    match e.node.get() {
        CoreExprNode::Load(left) => Some(left),
        CoreExprNode::Read(left) => Some(left),
        CoreExprNode::Lit(_) | CoreExprNode::Convert(_) | CoreExprNode::Operate { .. } => None,
        CoreExprNode::Choose { .. } | CoreExprNode::Pick { .. } | CoreExprNode::Join(_) => None,
    }
}

/// The index of a pick of a bit, where it isn't static.
pub fn open_index<'a>(cells: Cells<'_>, pick: Option<&'a CorePick>) -> Option<&'a CoreExpr>
    ensures { IfSome result (λ at. IsBitAt (option_copied pick.entry) at.now) }
{
    match pick {
        Some(CorePick::Bit { at, .. }) => match cells.known.value(at) {
            Some(_) => None,
            None => Some(at),
        },
        Some(CorePick::Range { .. }) => None,
        None => None,
    }
}

/// A whole element.
pub fn read_whole(
    alloc: Global,
    opens: &[Open],
    first: u32,
    cells: Cells<'_>,
    cx: &Lowering<'_>,
) -> Result<SvExpr, NoMemory>
    ensures { IfOk result (λ t. IsWholeRead (given_of cells.entry) (map seen_of cx.now.views.now) (map opened_of opens.now) first (term_of t)) }
{
    let all = Bits::all(width(cells.cell(first)?.kind))?;
    element(alloc, opens, first, all, cells, cx, CHOICES)
}

/// An element as a whole, in a range, or at a bit under a static index.
pub fn read_closed(
    alloc: Global,
    opens: &[Open],
    first: u32,
    pick: Option<&CorePick>,
    cells: Cells<'_>,
    cx: &Lowering<'_>,
) -> Result<SvExpr, NoMemory>
    ensures { (l : CoreLeft) → (k : Kind) → (f : finding.Found) → (a : State) → f.first ≡ first → IsFoundAt (given_of cells.entry) l f → Opening (given_of cells.entry) f.dims a (map opened_of opens.now) (state_of cx.now) → IfOk result (λ t. Reading (given_of cells.entry) l (option_copied pick.entry) k a (term_of t) (state_of cx.now)) }
{
    match pick {
        None => read_whole(alloc, opens, first, cells, cx),
        Some(pick) => read_bits(alloc, opens, first, pick, cells, cx),
    }
}

// Bits of an element in a range, or at a bit under a static index.
fn read_bits(
    alloc: Global,
    opens: &[Open],
    first: u32,
    pick: &CorePick,
    cells: Cells<'_>,
    cx: &Lowering<'_>,
) -> Result<SvExpr, NoMemory>
    ensures { (l : CoreLeft) → (k : Kind) → (f : finding.Found) → (a : State) → f.first ≡ first → IsFoundAt (given_of cells.entry) l f → Opening (given_of cells.entry) f.dims a (map opened_of opens.now) (state_of cx.now) → IfOk result (λ t. Reading (given_of cells.entry) l (Some pick.now) k a (term_of t) (state_of cx.now)) }
{
    match pick {
        CorePick::Range { h, l, .. } => {
            let bits = Bits { h: *h, l: *l };
            element(alloc, opens, first, bits, cells, cx, CHOICES)
        }
        CorePick::Bit { at, .. } => match cells.known.value(at) {
            Some(v) => {
                let all = Bits::all(width(cells.cell(first)?.kind))?;
                known_bit(alloc, opens, first, all.h, v, cells, cx)
            }
            None => Err(lost()),
        },
    }
}

// The bit of a static number; 0 past the highest.
fn known_bit(
    alloc: Global,
    opens: &[Open],
    first: u32,
    high: u32,
    at: Value,
    cells: Cells<'_>,
    cx: &Lowering<'_>,
) -> Result<SvExpr, NoMemory>
    ensures { IfOk result (λ t. IsKnownBit (given_of cells.entry) (map seen_of cx.now.views.now) (small at) high (map opened_of opens.now) first (term_of t)) }
{
    match at.small() {
        Some(i) => {
            if i <= high {
                element(alloc, opens, first, Bits { h: i, l: i }, cells, cx, CHOICES)
            } else {
                literal(alloc, 1, 0)
            }
        }
        None => literal(alloc, 1, 0),
    }
}

/// The lowest bit of the expression, shifted by an index.
pub fn bit_text(alloc: Global, e: SvExpr, at: Index) -> Result<SvExpr, NoMemory>
    ensures { IfOk result (λ r. term_of r ≡ bit_term (term_of e) (term.Part (place.Whole at.var))) }
{
    let at = at.read(alloc)?;
    let shifted = binary(alloc, SvBinary::Shr, e, at)?;
    cast(alloc, 1, shifted)
}

/// A concatenation of texts.
#[tactic(auto, using(crate::proofs::Terms::term_concat))]
pub fn concatenation(alloc: Global, texts: List<SvExpr>) -> Result<SvExpr, NoMemory>
    ensures { IfOk result (λ t. term_of t ≡ joined (map term_of texts)) }
{
    node(alloc, SvExprNode::Concat(texts))
}
