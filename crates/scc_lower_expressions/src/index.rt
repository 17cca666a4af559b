//! Indices that aren't static, each as one variable.
ghost use Rattle.std.specs.Prelude.{◌≡◌, ◌^◌, IfOk, IfSome, length, map, min, nat_lt};
ghost use Rattle.scc_core.specs.declared.expr.CoreExpr.{CoreExpr};
ghost use Rattle.scc_svtree.specs.Term as term;
ghost use Rattle.scc_svtree.specs.Term.{term_of};
ghost use Rattle.scc_svtree.specs.declared.expr.SvLeft.TheVariants as place;
ghost use Rattle.scc_lower_spec.specs.Selected.{below_term};
ghost use Rattle.scc_lower_laws.specs.Elements.{index_kind, variable_of};
ghost use Rattle.scc_lower_laws.specs.Outcome as outcome;
ghost use Rattle.scc_lower_tree_laws.specs.Becoming.{Becomes};
ghost use Rattle.scc_lower_tree_laws.specs.Finding.{Indexing, Keeping, Opening};
ghost use Rattle.scc_lower_tree_laws.specs.States.{State};
ghost use Rattle.scc_lower_expressions.specs.Becoming.{chosen_of, given_of, opened_of, outcome_of, slot_of, state_of};

use crate::built::{binary, literal, whole};
use crate::convert::{Lowered, converted, expression};
use crate::expr::lowered;
use crate::lowering::{Cells, Lowering};
use crate::place::Chosen;
use scc_base::{NoMemory, push};
use scc_bits::{Kind, signed, width};
use scc_core::CoreExpr;
use scc_svtree::{SvBinary, SvExpr, SvExprNode, SvLeft, SvStmt, VarId};
use std::alloc::Global;

/// An index that stands in a variable of a width.
#[derive(Clone, Copy)]
pub struct Index {
    pub var: VarId,
    pub width: u32,
}

impl Index {
    /// Whether the index can be `n` or more.
    pub fn can_reach(self, n: u32) -> bool
        ensures { result ≡ nat_lt n (2 ^ self.width) }
    {
        32 <= self.width || u64::from(n) < 1 << self.width
    }

    /// How many of `n` elements the index can name.
    pub fn reach(self, n: u32) -> u32
        ensures { result ≡ min n (2 ^ self.width) }
    {
        if self.width < 32 {
            n.min(1 << self.width)
        } else {
            n
        }
    }

    pub fn read(self, alloc: Global) -> Result<SvExpr, NoMemory>
        ensures { IfOk result (λ e. term_of e ≡ term.Part (place.Whole self.var)) }
    {
        whole(alloc, self.var)
    }

    /// Whether the index is below a number.
    pub fn below(self, alloc: Global, n: u32) -> Result<SvExpr, NoMemory>
        ensures { IfOk result (λ t. term_of t ≡ below_term self.width (variable_of self.var.0) n) }
    {
        let at = self.read(alloc)?;
        let n = literal(alloc, self.width, u128::from(n))?;
        binary(alloc, SvBinary::Lt, at, n)
    }
}

/// A dimension of an array, and the index that chooses in it.
#[derive(Clone, Copy)]
pub struct Open {
    pub at: Index,
    pub size: u32,
    pub stride: u32,
}

const UNSIGNED: Kind = Kind::Native {
    bits: 64,
    signed: false,
};

/// An index, which a temporary holds where it isn't one variable.
#[cycle(lowering)]
pub fn indexed(
    alloc: Global,
    e: &CoreExpr,
    cells: Cells<'_>,
    cx: &mut Lowering<'_>,
    levels: u32,
) -> Result<Index, NoMemory>
    ensures { IfOk result (λ v. Indexing (given_of cells.entry) e.now (state_of cx.old) (slot_of v) (state_of cx.new)) }
{
    let of = lowered(alloc, e, cells, cx, levels)?;
    index_of(alloc, e.kind, of, cells, cx)
}

// The variable that holds an index of a kind.
fn index_of(
    alloc: Global,
    kind: Kind,
    of: Lowered,
    cells: Cells<'_>,
    cx: &mut Lowering<'_>,
) -> Result<Index, NoMemory>
    ensures { (e : CoreExpr) → (a : State) → kind ≡ e.kind → Becomes (given_of cells.entry) e a (outcome_of of) (state_of cx.old) → IfOk result (λ v. Indexing (given_of cells.entry) e a (slot_of v) (state_of cx.new)) }
{
    let to = index_kind(kind);
    let of = converted(alloc, of, kind, to)?;
    let of = expression(alloc, of)?;
    kept(cells, cx, width(to), of)
}

// An index is read without sign.
fn index_kind(kind: Kind) -> Kind
    ensures { result ≡ index_kind kind }
{
    if signed(kind) { UNSIGNED } else { kind }
}

// The variable that an expression is, or a new temporary that holds it.
fn kept(cells: Cells<'_>, cx: &mut Lowering<'_>, width: u32, of: SvExpr) -> Result<Index, NoMemory>
    ensures { IfOk result (λ v. Keeping (length cells.entry.cells.now) (outcome.Made (term_of of)) width (state_of cx.old) (slot_of v) (state_of cx.new)) }
{
    match variable(&of) {
        Some(var) => Ok(Index { var, width }),
        None => temporary(cells, cx, width, of),
    }
}

// The variable that an expression is.
fn variable(e: &SvExpr) -> Option<VarId>
    ensures { IfSome result (λ v. term_of e.now ≡ term.Part (place.Whole v)) }
{
    match e.node.get() {
        SvExprNode::Left(SvLeft::Whole(var)) => Some(*var),
        _ => None,
    }
}

/// The indices of open dimensions, outermost first.
#[cycle(lowering)]
pub fn opened(
    alloc: Global,
    dims: &[Chosen<'_>],
    cells: Cells<'_>,
    cx: &mut Lowering<'_>,
    levels: u32,
) -> Result<Vec<Open>, NoMemory>
    ensures { IfOk result (λ os. Opening (given_of cells.entry) (map chosen_of dims.now) (state_of cx.old) (map opened_of os.items) (state_of cx.new)) }
{
    let mut opens = Vec::new(alloc);
    for dim in dims {
        let at = indexed(alloc, dim.at, cells, cx, levels)?;
        let open = Open {
            at,
            size: dim.size,
            stride: dim.stride,
        };
        push(&mut opens, open)?;
    }
    Ok(opens)
}

// A new temporary that holds an expression.
fn temporary(
    cells: Cells<'_>,
    cx: &mut Lowering<'_>,
    width: u32,
    value: SvExpr,
) -> Result<Index, NoMemory>
    ensures { IfOk result (λ v. Keeping (length cells.entry.cells.now) (outcome.Made (term_of value)) width (state_of cx.old) (slot_of v) (state_of cx.new)) }
{
    let var = cells.temporary(cx.temporaries.len())?;
    cx.temporaries.push(width)?;
    cx.before.push(SvStmt::Assign {
        left: SvLeft::Whole(var),
        value,
    })?;
    Ok(Index { var, width })
}
