//! Expressions. A chain of operators is as deep as it is long, so first operands are walked by a loop.
ghost use Rattle.std.specs.Prelude.{◌≡◌, IfOk, List, Some, map};
ghost use Rattle.std.specs.Option.{option_copied};
ghost use Rattle.scc_bits_kinds.specs.declared.kind.Kind.{Kind};
ghost use Rattle.scc_bits.specs.Value.{Number};
ghost use Rattle.scc_core.specs.declared.expr.CoreExpr.{CoreExpr};
ghost use Rattle.scc_core.specs.declared.expr.CoreLeft.{CoreLeft};
ghost use Rattle.scc_svtree.specs.Term.{term_of};
ghost use Rattle.scc_lower_laws.specs.Joins.{joined_text};
ghost use Rattle.scc_lower_laws.specs.Outcome.{Outcome};
ghost use Rattle.scc_lower_tree_laws.specs.Becoming.{Becomes};
ghost use Rattle.scc_lower_tree_laws.specs.Finding.{BitAt, IsFoundAt, LoweringAll, Picking, Reading};
ghost use Rattle.scc_lower_tree_laws.specs.States.{State};
ghost use Rattle.scc_lower_expressions.specs.Becoming.{IsLowered, IsNumber, IsPath, IsWritten, first_of, found_of, given_of, outcome_of, state_of};

use crate::built::literal;
use crate::convert::{Lowered, converted, expression};
use crate::index::{indexed, opened};
use crate::lowering::{Cells, Lowering};
use crate::operator::{Operand, chosen, operated, operated_alone};
use crate::place::{Found, locate};
use crate::read::{bit_text, concatenation, location, open_index, read_closed, read_whole};
use scc_base::{List, NoMemory, lost, push};
use scc_bits::{Kind, Value, Word, width};
use scc_core::{CoreExpr, CoreExprNode, CoreLeft, CorePick};
use scc_svtree::SvExpr;
use std::alloc::Global;

/// How deep operands other than first ones, indices and brackets may nest.
pub const LEVELS: u32 = 4_096;

// The operand that is walked first, if there is one.
fn first(e: &CoreExpr) -> Option<&CoreExpr>
    ensures { option_copied result ≡ first_of e.now }
{
    match e.node.get() {
        CoreExprNode::Convert(of) => Some(of),
        CoreExprNode::Operate { left, .. } => Some(left),
        CoreExprNode::Choose { test, .. } => Some(test),
        CoreExprNode::Lit(_)
        | CoreExprNode::Load(_)
        | CoreExprNode::Read(_)
        | CoreExprNode::Pick { .. }
        | CoreExprNode::Join(_) => None,
    }
}

// An expression and its first operands, from the outermost on, and the innermost of them.
fn spine(alloc: Global, e: &CoreExpr) -> Result<(Vec<&CoreExpr>, &CoreExpr), NoMemory>
    ensures { IfOk result (λ r. IsPath e.now (map (λ x. x.now) r.0.items) r.1.now) }
{
    let mut found = Vec::new(alloc);
    let mut here = e;
    for _ in 0..usize::MAX {
        match first(here) {
            Some(inner) => {
                push(&mut found, here)?;
                here = inner;
            }
            None => return Ok((found, here)),
        }
    }
    Err(lost())
}

/// The expression as text of its kind's width, or its number where it is static. Assignments of temporaries go before it.
#[cycle(lowering)]
pub fn lowered(
    alloc: Global,
    e: &CoreExpr,
    cells: Cells<'_>,
    cx: &mut Lowering<'_>,
    levels: u32,
) -> Result<Lowered, NoMemory>
    ensures { IfOk result (λ o. IsLowered cells.entry e.now cx.old o cx.new) }
{
    if levels == 0 {
        return Err(lost());
    }
    let (mut chain, innermost) = spine(alloc, e)?;
    let mut made = leaf(alloc, innermost, cells, cx, levels - 1)?;
    while let Some(outer) = chain.pop() {
        made = over(alloc, outer, made, cells, cx, levels - 1)?;
    }
    Ok(made)
}

// An expression without a first operand.
#[cycle(lowering)]
fn leaf(
    alloc: Global,
    e: &CoreExpr,
    cells: Cells<'_>,
    cx: &mut Lowering<'_>,
    levels: u32,
) -> Result<Lowered, NoMemory>
    ensures { IfOk result (λ o. IsLowered cells.entry e.now cx.old o cx.new) }
{
    match known_leaf(e, cells)? {
        Some(v) => Ok(Lowered::Known(v)),
        None => Ok(Lowered::Made(text(alloc, e, cells, cx, levels)?)),
    }
}

// The number of an expression without a first operand, where it is static.
fn known_leaf(e: &CoreExpr, cells: Cells<'_>) -> Result<Option<Value>, NoMemory>
    ensures { IfOk result (λ o. IsNumber (given_of cells.entry) e.now o) }
{
    match e.node.get() {
        CoreExprNode::Lit(word) => number(e.kind, *word),
        CoreExprNode::Load(_) => Ok(cells.known.value(e)),
        CoreExprNode::Read(_) => Ok(cells.known.value(e)),
        CoreExprNode::Pick { .. } => Ok(cells.known.value(e)),
        CoreExprNode::Join(_) => Ok(cells.known.value(e)),
        CoreExprNode::Convert(_) | CoreExprNode::Operate { .. } | CoreExprNode::Choose { .. } => {
            Err(lost())
        }
    }
}

// A literal, which is of its kind.
fn number(kind: Kind, word: Word) -> Result<Option<Value>, NoMemory>
    ensures { IfOk result (λ o. (v : Number) × (o ≡ Some v) × (v.kind ≡ kind) × (v.word ≡ word.bits)) }
{
    match Value::of(kind, word) {
        Some(v) => Ok(Some(v)),
        None => Err(lost()),
    }
}

// The text of an expression without a first operand.
#[cycle(lowering)]
fn text(
    alloc: Global,
    e: &CoreExpr,
    cells: Cells<'_>,
    cx: &mut Lowering<'_>,
    levels: u32,
) -> Result<SvExpr, NoMemory>
    ensures { IfOk result (λ t. IsWritten cells.entry e.now cx.old t cx.new) }
{
    if let Some(of) = location(e) {
        return read(alloc, of, of.pick.as_ref(), e.kind, cells, cx, levels);
    }
    match e.node.get() {
        CoreExprNode::Pick { of, pick } => pick_of(alloc, of, pick, e.kind, cells, cx, levels),
        CoreExprNode::Join(parts) => joined(alloc, parts.as_slice(), cells, cx, levels),
        _ => Err(lost()),
    }
}

// An expression whose first operand is lowered.
#[cycle(lowering)]
fn over(
    alloc: Global,
    e: &CoreExpr,
    inner: Lowered,
    cells: Cells<'_>,
    cx: &mut Lowering<'_>,
    levels: u32,
) -> Result<Lowered, NoMemory>
    ensures { (f : CoreExpr) → (a : State) → first_of e.now ≡ Some f → Becomes (given_of cells.entry) f a (outcome_of inner) (state_of cx.old) → IfOk result (λ o. Becomes (given_of cells.entry) e.now a (outcome_of o) (state_of cx.new)) }
{
    match e.node.get() {
        CoreExprNode::Convert(of) => converted(alloc, inner, of.kind, e.kind),
        CoreExprNode::Operate { op, left, right } => {
            let x = Operand {
                of: inner,
                kind: left.kind,
            };
            match right {
                None => operated_alone(alloc, *op, x, e.kind),
                Some(right) => {
                    let y = Operand {
                        of: lowered(alloc, right, cells, cx, levels)?,
                        kind: right.kind,
                    };
                    operated(alloc, *op, x, y, e.kind)
                }
            }
        }
        CoreExprNode::Choose { test, yes, no } => {
            let t = Operand {
                of: inner,
                kind: test.kind,
            };
            let a = Operand {
                of: lowered(alloc, yes, cells, cx, levels)?,
                kind: yes.kind,
            };
            let b = Operand {
                of: lowered(alloc, no, cells, cx, levels)?,
                kind: no.kind,
            };
            chosen(alloc, t, a, b, e.kind)
        }
        CoreExprNode::Lit(_)
        | CoreExprNode::Load(_)
        | CoreExprNode::Read(_)
        | CoreExprNode::Pick { .. }
        | CoreExprNode::Join(_) => Err(lost()),
    }
}

// A concatenation.
#[cycle(lowering)]
fn joined(
    alloc: Global,
    parts: &[CoreExpr],
    cells: Cells<'_>,
    cx: &mut Lowering<'_>,
    levels: u32,
) -> Result<SvExpr, NoMemory>
    ensures { IfOk result (λ t. (os : List Outcome) × (term_of t ≡ joined_text os) × LoweringAll (given_of cells.entry) parts.now (state_of cx.old) os (state_of cx.new)) }
{
    let mut texts = List::new(alloc);
    for part in parts {
        let x = lowered(alloc, part, cells, cx, levels)?;
        texts.push(expression(alloc, x)?)?;
    }
    concatenation(alloc, texts)
}

// Bits of a value: of what is read, or of a number under an index that isn't static.
#[cycle(lowering)]
fn pick_of(
    alloc: Global,
    of: &CoreExpr,
    pick: &CorePick,
    kind: Kind,
    cells: Cells<'_>,
    cx: &mut Lowering<'_>,
    levels: u32,
) -> Result<SvExpr, NoMemory>
    ensures { IfOk result (λ t. Picking (given_of cells.entry) of.now pick.now kind (state_of cx.old) (term_of t) (state_of cx.new)) }
{
    match location(of) {
        Some(left) => read(alloc, left, Some(pick), kind, cells, cx, levels),
        None => match pick {
            CorePick::Bit { at, .. } => {
                let x = lowered(alloc, of, cells, cx, levels)?;
                let e = expression(alloc, x)?;
                bit_at(alloc, e, at, cells, cx, levels)
            }
            CorePick::Range { .. } => Err(lost()),
        },
    }
}

// A read of a location, whole or of some bits; `kind` is that of what is read.
#[cycle(lowering)]
fn read(
    alloc: Global,
    left: &CoreLeft,
    pick: Option<&CorePick>,
    kind: Kind,
    cells: Cells<'_>,
    cx: &mut Lowering<'_>,
    levels: u32,
) -> Result<SvExpr, NoMemory>
    ensures { IfOk result (λ t. Reading (given_of cells.entry) left.now (option_copied pick.entry) kind (state_of cx.old) (term_of t) (state_of cx.new)) }
{
    match locate(alloc, cells, left)? {
        Some(found) => read_found(alloc, &found, pick, cells, cx, levels),
        None => literal(alloc, width(kind), 0),
    }
}

// A read of what was found of a location.
#[cycle(lowering)]
fn read_found(
    alloc: Global,
    found: &Found<'_>,
    pick: Option<&CorePick>,
    cells: Cells<'_>,
    cx: &mut Lowering<'_>,
    levels: u32,
) -> Result<SvExpr, NoMemory>
    ensures { (l : CoreLeft) → (k : Kind) → IsFoundAt (given_of cells.entry) l (found_of found.now) → IfOk result (λ t. Reading (given_of cells.entry) l (option_copied pick.entry) k (state_of cx.old) (term_of t) (state_of cx.new)) }
{
    let opens = opened(alloc, found.dims.as_slice(), cells, cx, levels)?;
    match open_index(cells, pick) {
        None => read_closed(alloc, opens.as_slice(), found.first, pick, cells, cx),
        Some(at) => {
            let e = read_whole(alloc, opens.as_slice(), found.first, cells, cx)?;
            bit_at(alloc, e, at, cells, cx, levels)
        }
    }
}

// The bit of an expression under an index that isn't static.
#[cycle(lowering)]
fn bit_at(
    alloc: Global,
    e: SvExpr,
    at: &CoreExpr,
    cells: Cells<'_>,
    cx: &mut Lowering<'_>,
    levels: u32,
) -> Result<SvExpr, NoMemory>
    ensures { IfOk result (λ r. BitAt (given_of cells.entry) (term_of e) at.now (state_of cx.old) (term_of r) (state_of cx.new)) }
{
    let at = indexed(alloc, at, cells, cx, levels)?;
    bit_text(alloc, e, at)
}
