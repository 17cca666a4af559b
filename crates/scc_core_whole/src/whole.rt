//! Expressions that are whole. First operands are as many as a source is long, so they are gone along by a loop.
ghost use Rattle.std.specs.Prelude.{◌≡◌, IfOk, [], None, Some, false, true, ℕ, ◌<◌};
ghost use Rattle.scc_base.specs.declared.refusal.Place.{Place};
ghost use Rattle.scc_bits.specs.Value.{Number};
ghost use Rattle.scc_bits_kinds.specs.Kinds.{Fits, IsValid};
ghost use Rattle.scc_bits_kinds.specs.Operators.{Divisor};
ghost use Rattle.scc_core.specs.Operands.{first_of};
ghost use Rattle.scc_core.specs.Statics.{static_of};
ghost use Rattle.scc_core.specs.declared.expr.CoreBase.{roll-CoreBase};
ghost use Rattle.scc_core.specs.declared.expr.CoreBase.TheOpen as tree;
ghost use Rattle.scc_core_view.specs.Whole.{Answers, IsLoaded, IsNamed, IsWhole};
ghost use Rattle.scc_core_whole.specs.Parts.{Divides, HaveNames, IfWhole, IsOperated};

use crate::kinds::{both, same_kind};
use scc_base::{List, NoMemory};
use scc_bits::{Kind, Op, Word, fits, result_kind, too_wide, valid};
use scc_core::{Cell, CoreBase, CoreExpr, CoreExprNode, CoreLeft, Known, deeper, first_operand};

fn is_word(kind: Kind, word: Word) -> bool
    ensures { result ≡ true → IsValid kind × Fits kind word.bits }
{
    valid(kind) && fits(kind, word)
}

fn is_kind(kind: Kind) -> bool
    ensures { result ≡ true → IsValid kind }
{
    valid(kind)
}

// ---- what is loaded

fn has_kind(cell: &Cell, kind: Kind) -> bool
    ensures { result ≡ true → cell.now.kind ≡ kind }
{
    same_kind(cell.kind, kind)
}

// Whether the cell of that number has a kind.
fn names_kind(cells: &List<Cell>, number: u32, kind: Kind) -> bool
    ensures { result ≡ true → HaveNames cells.now → (p : Place) → IsNamed cells.now p (roll-CoreBase (tree.Cell number)) [] kind }
{
    match cells.get(number as usize) {
        Some(cell) => has_kind(cell, kind),
        None => false,
    }
}

// A whole cell; what stands behind names and indices isn't looked at.
fn is_loaded(cells: &List<Cell>, kind: Kind, left: &CoreLeft) -> bool
    ensures { result ≡ true → HaveNames cells.now → IsLoaded cells.now kind left.now }
{
    match &left.base {
        CoreBase::Cell(number) => both(is_plain(left), names_kind(cells, *number, kind)),
        CoreBase::Prefix(_) | CoreBase::Follow { .. } | CoreBase::Null => false,
    }
}

fn is_plain(left: &CoreLeft) -> bool
    ensures parts { result ≡ true → left.now.parts ≡ [] }
    ensures pick { result ≡ true → left.now.pick ≡ None }
{
    left.parts.is_empty() && left.pick.is_none()
}

// ---- operators

fn answers(kind: Kind, op: Op, left: Kind, right: Kind) -> bool
    ensures { result ≡ true → Answers op left right kind }
{
    match result_kind(op, left, right) {
        Some(found) => same_kind(found, kind) && !too_wide(op, left, right),
        None => false,
    }
}

fn is_division(op: Op) -> bool
    ensures { result ≡ false → (y : ℕ) → Divisor op y }
{
    matches!(op, Op::Div | Op::Rem)
}

fn is_not_zero(cells: &List<Cell>, e: &CoreExpr) -> bool
    ensures { result ≡ true → (n : Number) → static_of cells.now e.now ≡ Some n → 0 < n.word }
{
    match Known::alone(cells).value(e) {
        Some(v) => v.is_true(),
        None => true,
    }
}

// Whether no divisor that is known is 0.
fn divides(cells: &List<Cell>, op: Op, e: &CoreExpr) -> bool
    ensures { result ≡ true → Divides cells.now op e.now }
{
    !is_division(op) || is_not_zero(cells, e)
}

// A right operand that is whole, and no divisor that is 0.
#[cycle(whole)]
fn is_right(cells: &List<Cell>, op: Op, right: &CoreExpr, levels: u32) -> Result<bool, NoMemory>
    ensures { HaveNames cells.now → IfOk result (λ b. b ≡ true → Divides cells.now op right.now × IsWhole cells.now right.now) }
{
    if is_whole(cells, right, levels)? {
        Ok(divides(cells, op, right))
    } else {
        Ok(false)
    }
}

#[cycle(whole)]
fn is_operated(
    cells: &List<Cell>,
    kind: Kind,
    op: Op,
    left: Kind,
    right: &Option<CoreExpr>,
    levels: u32,
) -> Result<bool, NoMemory>
    ensures { HaveNames cells.now → IfOk result (λ b. b ≡ true → IsOperated cells.now kind op left right.now) }
{
    match right {
        Some(right) => Ok(both(
            answers(kind, op, left, right.kind),
            is_right(cells, op, right, levels)?,
        )),
        None => Ok(both(answers(kind, op, left, left), !is_division(op))),
    }
}

// ---- expressions

/// Whether an expression is whole; a no may be said of a whole one that has a part which isn't looked at.
#[cycle(whole)]
pub fn is_whole(cells: &List<Cell>, e: &CoreExpr, levels: u32) -> Result<bool, NoMemory>
    ensures { HaveNames cells.now → IfOk result (λ b. b ≡ true → IsWhole cells.now e.now) }
{
    let levels = deeper(levels)?;
    let mut whole = true;
    let mut here = e;
    loop {
        whole = both(whole, beside_whole(cells, here, levels)?);
        match first_operand(here) {
            Some(inner) => here = inner,
            None => return Ok(whole),
        }
    }
}

// Whether it is where its first operand is.
#[cycle(whole)]
fn beside_whole(cells: &List<Cell>, e: &CoreExpr, levels: u32) -> Result<bool, NoMemory>
    ensures { HaveNames cells.now → IfOk result (λ b. b ≡ true → IfWhole cells.now (first_of e.now) → IsWhole cells.now e.now) }
{
    match e.node.get() {
        CoreExprNode::Lit(word) => Ok(is_word(e.kind, *word)),
        CoreExprNode::Load(left) => Ok(is_loaded(cells, e.kind, left)),
        CoreExprNode::Read(_) => Ok(true),
        CoreExprNode::Convert(_) => Ok(is_kind(e.kind)),
        CoreExprNode::Operate { op, left, right } => is_operated(
            cells, e.kind, *op, left.kind, right, levels,
        ),
        CoreExprNode::Choose { yes, no, .. } => Ok(both(
            is_kind(e.kind),
            both(is_whole(cells, yes, levels)?, is_whole(cells, no, levels)?),
        )),
        CoreExprNode::Pick { .. } | CoreExprNode::Join(_) => Ok(false),
    }
}
